//! The head of a group: one server's own store, vector, locks and slots.

ghost use Rattle.std.specs.Prelude.{◌≡◌, ◌<◌, ◌≤◌, ℕ, true, Option, Some, None, IsNone, IfSome, OnOk, OnErr, ◌↔◌};
ghost use Rattle.std.specs.Prelude.{length};
ghost use Rattle.ftc_locks.specs.Locks.{HoldsNothing, IsLockTable};
ghost use Rattle.ftc_vector.specs.Vector.{number_at};
ghost use Rattle.ftc_message.specs.Logged.{Logged};
ghost use Rattle.ftc_txn.specs.Slots.{Running, slot_at, packet_at, wounded_at};
ghost use Rattle.ftc_txn.specs.Touched.{is_changed};
ghost use Rattle.ftc_txn.specs.Head.{ages_left, next_age, RunsUnwounded, AreItsWrites, IsHead};
ghost use Rattle.ftc_txn.specs.declared.answers.HeadCommit.TheVariants.{Done};
ghost use Rattle.ftc_txn.specs.Steps.{begins, HeadReads, Commits, HasHeadQuit, WouldLog};

use crate::answers::{HeadCommit, ReadAnswer};
use crate::logged::{log_of, raise};
use crate::slots::Slots;
use crate::turn::Turn;
use ftc_base::limits::{MOST_PARTITIONS, MOST_READS};
use ftc_base::{Answers, Key, NoMemory, PacketNo, ServerId, WorkerId, Writes, partition_of};
use ftc_locks::{Acquired, LockTable};
use ftc_message::Log;
use ftc_store::Store;
use ftc_vector::Vector;
use std::marker::Model;

/// The store, the vector, the locks and the slots of the server that heads a group.
#[derive(Drop)]
pub struct Head {
    group: ServerId,
    partitions: u8,
    store: Store,
    vector: Vector,
    locks: LockTable,
    slots: Slots,
    /// The age that was drawn last.
    last: u64,
}

impl Model for Head {
    ghost use Rattle.std.specs.Prelude.{◌≡◌};
    ghost use Rattle.ftc_txn.specs.Head.{HeadState, head_code, IsHead};

    ghost Value = { HeadState };

    ghost coded = { head_code };

    ghost view = { λ head. record {
      group = head.group;
      content = head.store.content;
      partitions = head.partitions;
      vector = head.vector;
      locks = head.locks;
      slots = head.slots;
      last = head.last;
    } };

    ghost invariant = { λ head. (head.store.partitions ≡ head.partitions) × (head.locks.partitions ≡ head.partitions)
        × IsHead (record {
          group = head.group;
          content = head.store.content;
          partitions = head.partitions;
          vector = head.vector;
          locks = head.locks;
          slots = head.slots;
          last = head.last;
        }) };
}

impl Head {
    /// A head whose slots are idle.
    pub fn new(group: ServerId, partitions: u8, store: Store, vector: Vector) -> Head
        requires some { 1 ≤ partitions }
        requires within { partitions ≤ MOST_PARTITIONS }
        requires same { store.partitions ≡ partitions }
        ensures group { result.group ≡ group }
        ensures content { result.content ≡ store.content }
        ensures partitions { result.partitions ≡ partitions }
        ensures vector { result.vector ≡ vector }
        ensures idle { (worker : ℕ) → slot_at result.slots worker ≡ None }
        ensures free { (worker : ℕ) → HoldsNothing result.locks worker }
        ensures last { result.last ≡ 0 }
    {
        Head {
            group,
            partitions,
            store,
            vector,
            locks: LockTable::new(partitions),
            slots: Slots::new(),
            last: 0,
        }
    }

    /// The store.
    pub fn store(&self) -> &Store
        ensures content { result.now.content ≡ self.now.content }
        ensures partitions { result.now.partitions ≡ self.now.partitions }
        ensures valid { IsHead self.now }
        ensures locks { IsLockTable self.now.locks }
    {
        let _ = self.locks.partitions();
        &self.store
    }

    /// The vector.
    pub fn vector(&self) -> &Vector
        ensures { result.now ≡ self.now.vector }
    {
        &self.vector
    }

    /// Whether an age is left for a transaction to begin.
    pub fn ages_left(&self) -> bool
        ensures { result ≡ ages_left u64.MAX self.now }
    {
        !(self.slots.some_run() && self.last == u64::MAX)
    }

    /// The answers of what a slot runs, in the order of its reads.
    pub fn answers(&self, worker: WorkerId) -> Option<&Answers>
        ensures none { IsNone result ↔ (slot_at self.now.slots worker ≡ None) }
        ensures some { IfSome result (λ answers. IfSome (slot_at self.now.slots worker) (λ running.
            answers.now.items ≡ running.answers)) }
    {
        self.slots.answers(worker)
    }

    /// The packet that a slot runs for. None where it is idle.
    pub fn packet(&self, worker: WorkerId) -> Option<PacketNo>
        ensures { result ≡ packet_at self.now.slots worker }
    {
        self.slots.packet(worker)
    }

    /// The worker that the next read or commit of a slot names as the one that wounded it.
    pub fn wounded(&self, worker: WorkerId) -> Option<WorkerId>
        ensures { result ≡ wounded_at self.now.slots worker }
    {
        self.slots.wounded(worker)
    }

    /// The log that a commit of these writes would make now, so that room for it can be made before. None
    /// where the slot is idle or wounded, or has read nothing.
    pub fn log_of(&self, worker: WorkerId, writes: &Writes) -> Option<Log>
        requires { (running : Running) → RunsUnwounded self.now worker running →
            AreItsWrites self.now worker running writes.now.items }
        ensures { WouldLog self.now worker writes.now.items result }
    {
        let transaction = self.slots.at(worker)?;
        if transaction.wounded().is_some() {
            return None;
        }
        log_of(
            self.group,
            transaction,
            self.partitions,
            &self.vector,
            writes,
        )
    }

    /// An idle slot begins a transaction for a packet. The answer is its age: 0 where no slot runs
    /// anything, else one more than the last one drawn.
    pub fn begin(&mut self, worker: WorkerId, packet: PacketNo) -> u64
        requires idle { slot_at self.old.slots worker ≡ None }
        requires age { ages_left u64.MAX self.old ≡ true }
        ensures age { result ≡ next_age self.old }
        ensures begun { self.new ≡ begins self.old worker packet }
        ensures slot { worker < length self.old.slots }
    {
        let age = if self.slots.some_run() {
            self.last + 1
        } else {
            0
        };
        self.slots.begin(worker, packet, age);
        self.last = age;
        age
    }

    /// A slot gives up what it runs, with its locks.
    pub fn quit(&mut self, worker: WorkerId)
        ensures { HasHeadQuit self.old self.new worker }
    {
        self.locks.free_all(worker);
        self.slots.free(worker);
    }

    /// What a slot runs reads a key. `change` says whether it may write there.
    pub fn read(&mut self, worker: WorkerId, key: &Key, change: bool) -> ReadAnswer
        requires { (running : Running) → RunsUnwounded self.old worker running → length running.answers < MOST_READS }
        ensures { HeadReads self.old self.new worker key.now change result }
    {
        match self.slots.turn(worker) {
            Turn::Idle => ReadAnswer::Idle,
            Turn::Wounded { by } => {
                self.slots.restart(worker);
                ReadAnswer::Wounded { by }
            }
            Turn::Unwounded { age } => self.read_unwounded(worker, age, key, change),
        }
    }

    /// What a slot runs, which isn't wounded, reads a key.
    fn read_unwounded(&mut self, worker: WorkerId, age: u64, key: &Key, change: bool) -> ReadAnswer
        requires { (running : Running) × RunsUnwounded self.old worker running × (running.age ≡ age)
            × (length running.answers < MOST_READS) }
        ensures { HeadReads self.old self.new worker key.now change result }
    {
        let partition = partition_of(key, self.partitions);
        match self.locks.acquire(worker, age, partition, change) {
            Acquired::Blocked { holder } => ReadAnswer::Blocked { holder },
            Acquired::Granted { wounded } => {
                let value = self.store.get(key);
                self.slots.wound_each(wounded, worker);
                self.slots.add(worker, key, &value);
                ReadAnswer::Value(value)
            }
        }
    }

    /// What a slot runs makes its writes, and ends.
    pub fn commit(&mut self, worker: WorkerId, writes: &Writes) -> HeadCommit
        requires writes { (running : Running) → RunsUnwounded self.old worker running →
            AreItsWrites self.old worker running writes.now.items }
        requires numbers { (partition : ℕ) → partition < MOST_PARTITIONS →
            is_changed self.old.partitions writes.now.items partition ≡ true →
            number_at self.old.vector partition < u64.MAX }
        ensures { Commits self.old self.new worker writes.now.items result }
    {
        match self.slots.turn(worker) {
            Turn::Idle => HeadCommit::Idle,
            Turn::Wounded { by } => {
                self.slots.restart(worker);
                HeadCommit::Wounded { by }
            }
            Turn::Unwounded { .. } => self.commit_unwounded(worker, writes),
        }
    }

    /// What a slot runs, which isn't wounded, makes its writes, and ends.
    fn commit_unwounded(&mut self, worker: WorkerId, writes: &Writes) -> HeadCommit
        requires writes { (running : Running) × RunsUnwounded self.old worker running
            × AreItsWrites self.old worker running writes.now.items }
        requires numbers { (partition : ℕ) → partition < MOST_PARTITIONS →
            is_changed self.old.partitions writes.now.items partition ≡ true →
            number_at self.old.vector partition < u64.MAX }
        ensures { Commits self.old self.new worker writes.now.items result }
    {
        let log = self.log_of(worker, writes);
        match self.commit_logged(worker, writes) {
            Ok(()) => HeadCommit::Done(log),
            Err(NoMemory) => HeadCommit::NoMemory,
        }
    }

    /// What a slot runs, which isn't wounded, makes its writes, and ends. Its log is what `log_of` answered before, so
    /// that it isn't made twice. Where there is no memory for the writes, nothing changes.
    pub fn commit_logged(&mut self, worker: WorkerId, writes: &Writes) -> Result<(), NoMemory>
        requires writes { (running : Running) × RunsUnwounded self.old worker running
            × AreItsWrites self.old worker running writes.now.items }
        requires numbers { (partition : ℕ) → partition < MOST_PARTITIONS →
            is_changed self.old.partitions writes.now.items partition ≡ true →
            number_at self.old.vector partition < u64.MAX }
        ensures ok { OnOk result ((log : Option Logged) → WouldLog self.old worker writes.now.items log →
            Commits self.old self.new worker writes.now.items (Done log)) }
        ensures err { OnErr result (self.new ≡ self.old) }
    {
        let _ = self.locks.partitions();
        self.store.reserve(writes.len())?;
        raise(&mut self.vector, self.partitions, writes);
        self.store.apply(writes);
        self.locks.free_all(worker);
        self.slots.free(worker);
        Ok(())
    }
}
