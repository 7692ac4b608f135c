//! Lists of logs.

ghost use Rattle.std.specs.Prelude.{◌≡◌, ◌<◌, ◌≤◌, ◌++◌, ◌==◌, [], ◌∷◌, true, false, is_some, length, Some, None};
ghost use Rattle.std.specs.Prelude.{slice_get, IfOk, OnOk, OnErr};
ghost use Rattle.std.specs.List.{AllByRecursion, find, prefix_len};
ghost use Rattle.std.specs.Option.{option_copied};
ghost use Rattle.ftc_message.specs.Logged.{logs_rise};
ghost use Rattle.ftc_message.specs.Bounds.{IsLog, AreLogs};
ghost use Rattle.ftc_message.specs.Same.{same_log};
ghost use Rattle.ftc_message.specs.SameLaws.{log_list_equivalence};
ghost use Rattle.std.specs.Cmp.{partial_equiv_from_equiv};
ghost use Rattle.std.specs.Cmp.Lexicographic.{pointwise};
ghost use Rattle.ftc_message.specs.Ordered.{with_item, with_items, is_earlier, is_before, is_log_of, HasNone, AreApart};
ghost use Rattle.ftc_message.specs.Ordered.{logs_without};
ghost use Rattle.ftc_message.specs.Rises.{Rises};
ghost use Rattle.ftc_message.specs.OrderLaws.{earlier_is_order};

use crate::log::Log;
use crate::rising::{Placed, merge, put};
use ftc_base::{Items, NoMemory, PacketNo, ServerId, ServerSet};
use std::alloc::Global;
use std::marker::Model;

/// Logs in any order.
pub type LogList = Items<Log>;

/// Logs that rise by origin and then by group. A contract sees the list of them.
#[derive(Debug, Drop)]
pub struct Logs {
    list: Vec<Log>,
}

impl Model for Logs {
    ghost use Rattle.std.specs.Prelude.{List};
    ghost use Rattle.ftc_message.specs.Logged.{Logged};
    ghost use Rattle.ftc_message.specs.Bounds.{AreLogs};

    ghost Value = { List Logged };

    ghost view = { λ logs. logs.list.items };

    ghost invariant = { λ logs. AreLogs logs.list.items };
}

/// Whether a log stands before that of a packet and a group.
fn is_before(log: &Log, origin: PacketNo, group: ServerId) -> bool
    ensures { result ≡ is_before origin group log.now }
{
    log.origin() < origin || (log.origin() == origin && log.group().number() < group.number())
}

/// Whether it is the log of that packet and group.
fn is_of(log: &Log, origin: PacketNo, group: ServerId) -> bool
    ensures { result ≡ is_log_of origin group log.now }
{
    log.origin() == origin && log.group() == group
}

/// How many of the logs, which rise, stand before that of a packet and a group.
fn place_of(logs: &[Log], origin: PacketNo, group: ServerId) -> usize
    requires { Rises is_earlier logs.now }
    ensures place { result ≡ prefix_len (is_before origin group) logs.now }
    ensures within { result ≤ length logs.now }
{
    logs.partition_point(|log| is_before(log, origin, group))
}

impl Placed for Log {
    ghost is_before = { is_earlier };

    ghost is_order = { earlier_is_order };

    fn place_among(&self, logs: &[Log]) -> usize {
        place_of(logs, self.origin(), self.group())
    }
}

/// Every log holds what its type does.
fn are_logs(logs: &[Log])
    ensures { AllByRecursion IsLog logs.now }
{
    for log in logs {
        let _ = log.group();
    }
}

impl Logs {
    /// No logs yet.
    pub fn new(alloc: Global) -> Logs
        ensures { result ≡ [] }
    {
        Logs {
            list: Vec::new(alloc),
        }
    }

    /// How many logs there are.
    pub fn len(&self) -> usize
        ensures same { result ≡ length self.now }
        ensures bounds { AreLogs self.now }
    {
        self.list.len()
    }

    /// Whether there is no log.
    pub fn is_empty(&self) -> bool
        ensures { result ≡ (length self.now == 0) }
    {
        self.list.is_empty()
    }

    /// The log at a place, from 0.
    pub fn at(&self, place: usize) -> &Log
        requires { place < length self.now }
        ensures { slice_get self.now place ≡ Some result.now }
    {
        &self.list[place]
    }

    /// All logs.
    pub fn as_slice(&self) -> &[Log]
        ensures { result.now ≡ self.now }
    {
        self.list.as_slice()
    }

    /// Adds a log at the end, behind which it has to rise.
    pub fn push(&mut self, log: Log) -> Result<(), NoMemory>
        requires { logs_rise None (self.old ++ log ∷ []) ≡ true }
        ensures ok { OnOk result (self.new ≡ self.old ++ log ∷ []) }
        ensures err { OnErr result (self.new ≡ self.old) }
    {
        let _ = log.group();
        self.list.push(log)?;
        Ok(())
    }

    /// Makes room for so many more logs, so that adding them moves none.
    pub(crate) fn make_room(&mut self, count: usize) -> Result<(), NoMemory>
        ensures { self.new ≡ self.old }
    {
        self.list.reserve(count)?;
        Ok(())
    }

    /// Puts a log at its place among the others, of which none is of its packet and group.
    pub fn insert(&mut self, log: Log) -> Result<(), NoMemory>
        requires { HasNone log self.old }
        ensures ok { OnOk result (self.new ≡ with_item is_earlier log self.old) }
        ensures err { OnErr result (self.new ≡ self.old) }
    {
        let _ = log.group();
        self.list.reserve(1)?;
        put(&mut self.list, log);
        Ok(())
    }

    /// Puts the other logs among these, each at its place. No log is in both lists. It costs by the shorter list, and
    /// by the logs of the longer one that stand behind some of the shorter.
    pub fn merge(&mut self, other: Logs) -> Result<(), NoMemory>
        requires { AreApart other self.old }
        ensures ok { OnOk result (self.new ≡ with_items is_earlier other self.old) }
        ensures err { OnErr result (self.new ≡ self.old) }
    {
        merge(&mut self.list, other.into_vec())?;
        Ok(())
    }

    /// Drops the logs of these groups.
    pub fn drop_groups(&mut self, groups: ServerSet)
        ensures { self.new ≡ logs_without groups self.old }
    {
        self.list.retain(|log| !groups.has(log.group().number()));
    }

    /// The log of that packet and group.
    pub fn find(&self, origin: PacketNo, group: ServerId) -> Option<&Log>
        ensures { option_copied result ≡ find (is_log_of origin group) self.now }
    {
        let logs = self.list.as_slice();
        let log = logs.get(place_of(logs, origin, group))?;
        if is_of(log, origin, group) {
            Some(log)
        } else {
            None
        }
    }

    /// Whether there is a log of that packet and group.
    pub fn has(&self, origin: PacketNo, group: ServerId) -> bool
        ensures found { result ≡ is_some (find (is_log_of origin group) self.now) }
        ensures none { result ≡ false → AllByRecursion (λ log. is_log_of origin group log ≡ false) self.now }
    {
        self.find(origin, group).is_some()
    }

    /// The same logs once more.
    pub fn copy(&self, alloc: Global) -> Result<Logs, NoMemory>
        ensures { IfOk result (λ copy. copy ≡ self.now) }
    {
        // A visit adds one to the copy.
        let mut list = Vec::with_capacity(alloc, self.list.len().saturating_add(1))?;
        for log in self.list.as_slice() {
            list.push(log.copy())?;
        }
        Ok(Logs { list })
    }

    /// The logs of a vector, which are not copied.
    pub fn from_vec(list: Vec<Log>) -> Logs
        requires { logs_rise None list.items ≡ true }
        ensures { result ≡ list.items }
    {
        are_logs(list.as_slice());
        Logs { list }
    }

    /// The logs as a vector. They are not copied.
    pub fn into_vec(self) -> Vec<Log>
        ensures items { result.items ≡ self }
        ensures bounds { AreLogs self }
    {
        self.list
    }
}

impl PartialEq for Logs {
    ghost eq = { pointwise same_log };

    ghost laws = { partial_equiv_from_equiv log_list_equivalence };

    fn eq(&self, other: &Logs) -> bool {
        self.as_slice() == other.as_slice()
    }
}

impl Eq for Logs {
    ghost laws = { log_list_equivalence };
}
