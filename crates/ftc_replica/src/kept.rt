//! Logs that others may still lack.

ghost use Rattle.std.specs.Prelude.{◌≡◌, ◌≤◌, ◌<◌, ◌+◌, ◌++◌, ◌==◌, [], ◌∷◌, Some, length, slice_get};
ghost use Rattle.std.specs.Prelude.{IsOk, IfOk, OnOk, OnErr};
ghost use Rattle.ftc_replica.specs.Kept.{missing};

use crate::coverage::covers_log;
use crate::dropping::{
    copy_left, count_left, drop_front, is_dropped, is_pruned_by, keep_dropped, make_way, place_of,
    sweep,
};
use ftc_base::{Items, NoMemory};
use ftc_message::{Log, LogList};
use ftc_vector::Vector;
use std::alloc::Global;
use std::collections::VecDeque;
use std::marker::Model;

/// Logs in the order of keeping. A contract sees the list of them and how many more there is room for.
///
/// Pruning takes out only what lies in front, which is mostly all. What else it drops stays where it lies, unseen,
/// until a sweep takes it out: as a log is kept, where many have come since the last sweep, or for room.
#[derive(Debug, Drop)]
pub struct Kept {
    logs: VecDeque<Log>,
    /// The vector that covers the logs that are dropped. None where all that lie there are left.
    pruned: Option<Vector>,
    /// How many logs the last sweep left, or fewer where fewer lay there since.
    swept: usize,
}

impl Model for Kept {
    ghost use Rattle.std.specs.Prelude.{◌-◌, length};
    ghost use Rattle.std.specs.VecDeque.{deque_capacity};
    ghost use Rattle.ftc_replica.specs.Kept.{KeptLogs, left};

    ghost Value = { KeptLogs };

    ghost view = { λ kept. record {
      items = left kept.pruned kept.logs.items;
      spare = deque_capacity kept.logs - length (left kept.pruned kept.logs.items);
    } };
}

impl Kept {
    /// No log is kept.
    pub fn new(alloc: Global) -> Kept
        ensures { result.items ≡ [] }
    {
        Kept {
            logs: VecDeque::new(alloc),
            pruned: None,
            swept: 0,
        }
    }

    /// How many logs are kept.
    pub fn len(&self) -> usize
        ensures { result ≡ length self.now.items }
    {
        count_left(&self.logs, &self.pruned)
    }

    /// Whether no log is kept.
    pub fn is_empty(&self) -> bool
        ensures { result ≡ (length self.now.items == 0) }
    {
        self.len() == 0
    }

    /// The log at a place, in the order of keeping.
    pub fn at(&self, place: usize) -> &Log
        requires { place < length self.now.items }
        ensures { slice_get self.now.items place ≡ Some result.now }
    {
        &self.logs[place_of(&self.logs, &self.pruned, place)]
    }

    /// The same logs in the same order.
    pub fn copy(&self, alloc: Global) -> Result<Kept, NoMemory>
        ensures { IfOk result (λ copy. copy.items ≡ self.now.items) }
    {
        let logs = copy_left(alloc, &self.logs, &self.pruned)?;
        let swept = logs.len();
        Ok(Kept {
            logs,
            pruned: None,
            swept,
        })
    }

    /// Makes room for so many more logs.
    pub fn reserve(&mut self, count: usize) -> Result<(), NoMemory>
        ensures ok { OnOk result (count ≤ self.new.spare) }
        ensures items { self.new.items ≡ self.old.items }
        ensures spare { self.old.spare ≤ self.new.spare }
        ensures succeeds { count ≤ self.old.spare → IsOk result }
    {
        if self.logs.reserve(count).is_err() {
            sweep(&mut self.logs, &mut self.pruned);
            self.logs.reserve(count)?;
        }
        Ok(())
    }

    /// Keeps a log, behind the others.
    pub fn add(&mut self, log: Log) -> Result<(), NoMemory>
        ensures ok { OnOk result (self.new.items ≡ self.old.items ++ log ∷ []) }
        ensures err { OnErr result (self.new.items ≡ self.old.items) }
        ensures spare { self.old.spare ≤ self.new.spare + 1 }
        ensures succeeds { 1 ≤ self.old.spare → IsOk result }
    {
        make_way(&mut self.logs, &mut self.pruned, &mut self.swept, &log);
        if let Err(refused) = self.logs.push_back(log) {
            sweep(&mut self.logs, &mut self.pruned);
            self.logs.push_back(refused.value)?;
        }
        Ok(())
    }

    /// Drops the logs that the vector covers.
    pub fn prune(&mut self, commit: &Vector)
        ensures items { self.new.items ≡ missing commit.now self.old.items }
        ensures spare { self.new.spare + length self.new.items ≡ self.old.spare + length self.old.items }
    {
        if !is_pruned_by(&self.pruned, commit) {
            keep_dropped(&mut self.logs, &mut self.pruned, commit);
            drop_front(&mut self.logs, commit);
            self.pruned = Some(*commit);
        }
    }

    /// The kept logs that the vector doesn't cover.
    pub fn missing_after(&self, alloc: Global, vector: &Vector) -> Result<LogList, NoMemory>
        ensures { IfOk result (λ logs. logs ≡ missing vector.now self.now.items) }
    {
        let mut logs = Items::new(alloc);
        for place in 0..self.logs.len() {
            let log = &self.logs[place];
            if !is_dropped(&self.pruned, log) && !covers_log(vector, log) {
                logs.push(log.copy())?;
            }
        }
        Ok(logs)
    }
}
