//! The slots of a server.

ghost use Rattle.std.specs.Prelude.{◌≡◌, ◌<◌, ℕ, true, false, Some, None, IsTrue, length, is_some, slice_set};
ghost use Rattle.std.specs.Prelude.{if◌then◌else◌, IfSome, IsNone, ◌↔◌};
ghost use Rattle.std.specs.List.{list_any};
ghost use Rattle.std.specs.Option.{ForSome};
ghost use Rattle.ftc_base.specs.Sets.{has};
ghost use Rattle.ftc_txn.specs.Slots.{slot_at, packet_at, wounded_at, begun, restarted, answered, wounded_by, IsTurn};

use crate::transaction::Transaction;
use crate::turn::Turn;
use ftc_base::limits::{MOST_READS, MOST_SLOTS};
use ftc_base::{Answers, Key, PacketNo, Value, WorkerId, WorkerSet};
use std::array;
use std::marker::Model;

/// How many slots there are, as a length.
const SLOTS: usize = MOST_SLOTS as usize;

/// What each worker's slot runs.
#[derive(Debug, Drop)]
pub(crate) struct Slots {
    running: [Option<Transaction>; SLOTS],
}

impl Model for Slots {
    ghost use Rattle.std.specs.Prelude.{◌≡◌, List, Option, length};
    ghost use Rattle.std.specs.Coded.{coded_list, coded_option};
    ghost use Rattle.ftc_base.specs.declared.limits.TheConstants.{MOST_SLOTS};
    ghost use Rattle.ftc_txn.specs.Slots.{Running, running_code};

    ghost Value = { List (Option Running) };

    ghost coded = { coded_list (coded_option running_code) };

    ghost view = { λ slots. slots.running };

    ghost invariant = { λ slots. length slots.running ≡ MOST_SLOTS };
}

/// What a slot runs is wounded, where it isn't idle.
fn wound(slot: &mut Option<Transaction>, by: WorkerId)
    ensures { slot.new ≡ wounded_by by slot.old }
{
    match slot {
        Some(transaction) => transaction.wound(by),
        None => {}
    }
}

/// What a slot runs begins again.
fn restart(slot: &mut Option<Transaction>)
    ensures { IfSome slot.old (λ running. slot.new ≡ Some (restarted running)) }
{
    match slot {
        Some(transaction) => transaction.restart(),
        None => {}
    }
}

/// What a slot runs has one more answer.
fn add(slot: &mut Option<Transaction>, key: &Key, value: &Option<Value>)
    requires { ForSome slot.old (λ running. length running.answers < MOST_READS) }
    ensures { IfSome slot.old (λ running. slot.new
        ≡ Some (answered running (record { key = key.now; value = value.now }))) }
{
    match slot {
        Some(transaction) => transaction.add(key, value),
        None => {}
    }
}

impl Slots {
    /// Slots that are idle.
    pub(crate) fn new() -> Slots
        ensures { (worker : ℕ) → slot_at result worker ≡ None }
    {
        Slots {
            running: array::from_fn(|_place| None),
        }
    }

    /// Whether some slot runs something.
    pub(crate) fn some_run(&self) -> bool
        ensures { result ≡ list_any is_some self.now }
    {
        self.running.iter().any(|slot| slot.is_some())
    }

    /// What a worker's slot runs.
    pub(crate) fn at(&self, worker: WorkerId) -> Option<&Transaction>
        ensures some { IfSome result (λ transaction. slot_at self.now worker ≡ Some transaction.now) }
        ensures none { IsNone result ↔ (slot_at self.now worker ≡ None) }
        ensures size { length self.now ≡ MOST_SLOTS }
    {
        self.running[usize::from(worker.number())].as_ref()
    }

    /// An idle slot begins a transaction.
    pub(crate) fn begin(&mut self, worker: WorkerId, packet: PacketNo, age: u64)
        ensures begun { self.new ≡ slice_set self.old worker (Some (begun packet age)) }
        ensures within { worker < length self.old }
    {
        self.running[usize::from(worker.number())] = Some(Transaction::new(packet, age));
    }

    /// What a slot runs begins again.
    pub(crate) fn restart(&mut self, worker: WorkerId)
        ensures { IfSome (slot_at self.old worker) (λ running.
            self.new ≡ slice_set self.old worker (Some (restarted running))) }
    {
        restart(&mut self.running[usize::from(worker.number())]);
    }

    /// What a slot runs has one more answer.
    pub(crate) fn add(&mut self, worker: WorkerId, key: &Key, value: &Option<Value>)
        requires { ForSome (slot_at self.old worker) (λ running. length running.answers < MOST_READS) }
        ensures { IfSome (slot_at self.old worker) (λ running.
            self.new ≡ slice_set self.old worker
            (Some (answered running (record { key = key.now; value = value.now })))) }
    {
        add(&mut self.running[usize::from(worker.number())], key, value);
    }

    /// What the slots of these workers run is wounded by another.
    pub(crate) fn wound_each(&mut self, workers: WorkerSet, by: WorkerId)
        ensures { (worker : ℕ) → slot_at self.new worker
            ≡ (if has workers worker then wounded_by by (slot_at self.old worker) else slot_at self.old worker) }
    {
        for worker in 0..MOST_SLOTS {
            if workers.has(worker) {
                wound(&mut self.running[usize::from(worker)], by);
            }
        }
    }

    /// A slot is idle from now on.
    pub(crate) fn free(&mut self, worker: WorkerId)
        ensures idle { self.new ≡ slice_set self.old worker None }
        ensures within { worker < length self.old }
    {
        self.running[usize::from(worker.number())] = None;
    }

    /// How a slot stands.
    pub(crate) fn turn(&self, worker: WorkerId) -> Turn
        ensures turn { IsTurn (slot_at self.now worker) result }
        ensures size { length self.now ≡ MOST_SLOTS }
        ensures within { worker < MOST_SLOTS }
    {
        let place = usize::from(worker.number());
        match &self.running[place] {
            None => Turn::Idle,
            Some(transaction) => transaction.turn(),
        }
    }

    /// The answers of what a slot runs.
    pub(crate) fn answers(&self, worker: WorkerId) -> Option<&Answers>
        ensures none { IsNone result ↔ (slot_at self.now worker ≡ None) }
        ensures some { IfSome result (λ answers. IfSome (slot_at self.now worker) (λ running.
            answers.now.items ≡ running.answers)) }
    {
        match &self.running[usize::from(worker.number())] {
            None => None,
            Some(transaction) => Some(transaction.answers()),
        }
    }

    /// The packet that a slot runs for.
    pub(crate) fn packet(&self, worker: WorkerId) -> Option<PacketNo>
        ensures { result ≡ packet_at self.now worker }
    {
        match &self.running[usize::from(worker.number())] {
            None => None,
            Some(transaction) => Some(transaction.packet()),
        }
    }

    /// The worker that wounded what a slot runs.
    pub(crate) fn wounded(&self, worker: WorkerId) -> Option<WorkerId>
        ensures { result ≡ wounded_at self.now worker }
    {
        match &self.running[usize::from(worker.number())] {
            None => None,
            Some(transaction) => transaction.wounded(),
        }
    }
}
