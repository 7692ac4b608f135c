//! Who holds which partition.

ghost use Rattle.std.specs.Prelude.{◌≡◌, ◌≢◌, ◌<◌, ◌≤◌, ◌↔◌, ◌||◌, ◌&&◌, not, ℕ, true, false, IsTrue, IfSome, IfNone};
ghost use Rattle.ftc_base.specs.Sets.{has};
ghost use Rattle.ftc_locks.specs.Locks.{holds, holds_exclusively, age_of, conflicts, SameHolding, SameHoldings};
ghost use Rattle.ftc_locks.specs.Locks.{HoldsNothing, IsOldestInTheWay, IsLockTable};
ghost use Rattle.ftc_locks.specs.Acquired.{IfGranted, OnGranted, IfBlocked};

use crate::acquired::Acquired;
use ftc_base::limits::{MOST_PARTITIONS, MOST_SLOTS};
use ftc_base::{PartSet, WorkerId, WorkerSet};
use std::marker::Model;

/// How many workers there may be, as a length.
const WORKERS: usize = MOST_SLOTS as usize;

/// Which worker holds which partition, shared or exclusive, and with which age. A lower age is older.
/// A holder gives way to an older worker, and a younger one waits for it.
#[derive(Debug, Drop)]
pub struct LockTable {
    partitions: u8,
    held: [PartSet; WORKERS],
    exclusive: [PartSet; WORKERS],
    ages: [u64; WORKERS],
    /// Whoever holds a partition is in this set, so the others are in nobody's way.
    busy: WorkerSet,
}

impl Model for LockTable {
    ghost use Rattle.ftc_locks.specs.Locks.{Locks, IsLockTable, AreBusy};

    ghost Value = { Locks };

    ghost view = { λ table. record {
      partitions = table.partitions;
      held = table.held;
      exclusive = table.exclusive;
      ages = table.ages;
    } };

    ghost invariant = { λ table. IsLockTable (record {
      partitions = table.partitions;
      held = table.held;
      exclusive = table.exclusive;
      ages = table.ages;
    }) × AreBusy table.busy table.held };
}

impl LockTable {
    /// A table of so many partitions, which nobody holds.
    pub fn new(partitions: u8) -> LockTable
        requires some { 1 ≤ partitions }
        requires within { partitions ≤ MOST_PARTITIONS }
        ensures partitions { result.partitions ≡ partitions }
        ensures free { (worker : ℕ) → HoldsNothing result worker }
    {
        let none = PartSet::new();
        LockTable {
            partitions,
            held: [none; WORKERS],
            exclusive: [none; WORKERS],
            ages: [0; WORKERS],
            busy: WorkerSet::new(),
        }
    }

    /// How many partitions there are.
    pub fn partitions(&self) -> u8
        ensures same { result ≡ self.now.partitions }
        ensures valid { IsLockTable self.now }
    {
        self.partitions
    }

    /// Those who hold a partition.
    pub fn holders(&self, partition: u8) -> WorkerSet
        requires { partition < self.now.partitions }
        ensures { (worker : ℕ) → has result worker ≡ holds self.now worker partition }
    {
        let mut holders = WorkerSet::new();
        for worker in 0..MOST_SLOTS {
            if self.held[usize::from(worker)].has(partition) {
                holders = holders.with(worker);
            }
        }
        holders
    }

    /// Whether somebody holds a partition exclusively.
    pub fn exclusive(&self, partition: u8) -> bool
        requires { partition < self.now.partitions }
        ensures { IsTrue result ↔ ((worker : ℕ) × (holds_exclusively self.now worker partition ≡ true)) }
    {
        for worker in 0..MOST_SLOTS {
            if self.exclusive[usize::from(worker)].has(partition) {
                return true;
            }
        }
        false
    }

    /// Whether another's holding is in the way of a worker's request for a partition.
    fn conflicts(&self, worker: WorkerId, partition: u8, change: bool, other: u8) -> bool
        requires partition { partition < MOST_PARTITIONS }
        requires other { other < MOST_SLOTS }
        ensures { result ≡ conflicts self.now worker partition change other }
    {
        let place = usize::from(other);
        other != worker.number()
            && self.busy.has(other)
            && (self.exclusive[place].has(partition) || (change && self.held[place].has(partition)))
    }

    /// Those whose holdings are in the way of a worker's request for a partition.
    fn in_the_way(&self, worker: WorkerId, partition: u8, change: bool) -> WorkerSet
        requires { partition < MOST_PARTITIONS }
        ensures { (other : ℕ) → has result other ≡ conflicts self.now worker partition change other }
    {
        let mut others = WorkerSet::new();
        if self.busy.without(worker.number()) == others {
            // Mostly no other worker holds anything.
            return others;
        }
        for other in 0..MOST_SLOTS {
            if self.conflicts(worker, partition, change, other) {
                others = others.with(other);
            }
        }
        others
    }

    /// The oldest of those that are in the way of a worker's request for a partition and older than it.
    fn blocker(&self, worker: WorkerId, age: u64, partition: u8, change: bool) -> Option<WorkerId>
        requires { partition < MOST_PARTITIONS }
        ensures some { IfSome result (IsOldestInTheWay self.now worker age partition change) }
        ensures none { IfNone result ((other : ℕ) →
            conflicts self.now worker partition change other ≡ true → age ≤ age_of self.now other) }
    {
        let mut lowest = age;
        let mut holder = None;
        for other in 0..MOST_SLOTS {
            let others_age = self.ages[usize::from(other)];
            if others_age < lowest && self.conflicts(worker, partition, change, other) {
                lowest = others_age;
                holder = WorkerId::new(other);
            }
        }
        holder
    }

    /// Each of these workers loses all that it holds.
    fn free_each(&mut self, workers: WorkerSet)
        ensures freed { (worker : ℕ) → has workers worker ≡ true → HoldsNothing self.new worker }
        ensures others { (worker : ℕ) → has workers worker ≡ false → SameHoldings self.old self.new worker }
        ensures partitions { self.new.partitions ≡ self.old.partitions }
    {
        for worker in 0..MOST_SLOTS {
            if workers.has(worker) {
                self.held[usize::from(worker)] = PartSet::new();
                self.exclusive[usize::from(worker)] = PartSet::new();
                self.busy = self.busy.without(worker);
            }
        }
    }

    /// The worker gets the partition, which nobody else holds in a way that conflicts with it.
    fn grant(&mut self, worker: WorkerId, age: u64, partition: u8, change: bool)
        requires within { partition < self.old.partitions }
        requires free { (other : ℕ) → conflicts self.old worker partition change other ≡ false }
        requires age_differs { (other held : ℕ) → other ≢ worker → holds self.old other held ≡ true →
            age_of self.old other ≢ age }
        ensures held { holds self.new worker partition ≡ true }
        ensures exclusive { holds_exclusively self.new worker partition
            ≡ (change || holds_exclusively self.old worker partition) }
        ensures age { age_of self.new worker ≡ age }
        ensures own { (other : ℕ) → other ≢ partition → SameHolding self.old self.new worker other }
        ensures others { (other : ℕ) → other ≢ worker → SameHoldings self.old self.new other }
        ensures partitions { self.new.partitions ≡ self.old.partitions }
    {
        let number = worker.number();
        self.busy = self.busy.with(number);
        let place = usize::from(number);
        self.held[place] = self.held[place].with(partition);
        if change {
            self.exclusive[place] = self.exclusive[place].with(partition);
        }
        self.ages[place] = age;
    }

    /// A worker asks for a partition, exclusively where it may change it. A holder that is older and in
    /// the way blocks it; those that are younger and in the way give way.
    pub fn acquire(&mut self, worker: WorkerId, age: u64, partition: u8, change: bool) -> Acquired
        requires within { partition < self.old.partitions }
        requires age_differs { (other held : ℕ) → other ≢ worker → holds self.old other held ≡ true →
            age_of self.old other ≢ age }
        requires age_stays { (held : ℕ) → holds self.old worker held ≡ true → age_of self.old worker ≡ age }

        ensures blocked { IfBlocked result (IsOldestInTheWay self.old worker age partition change) }
        ensures unchanged { IfBlocked result (λ _. self.new ≡ self.old) }
        ensures granted { OnGranted result ((other : ℕ) →
            conflicts self.old worker partition change other ≡ true → age < age_of self.old other) }

        ensures wounded { IfGranted result (λ wounded. (other : ℕ) →
            has wounded other ≡ conflicts self.old worker partition change other) }
        ensures freed { IfGranted result (λ wounded. (other : ℕ) →
            has wounded other ≡ true → HoldsNothing self.new other) }

        ensures held { OnGranted result (holds self.new worker partition ≡ true) }
        ensures exclusive { OnGranted result (holds_exclusively self.new worker partition
            ≡ (change || holds_exclusively self.old worker partition)) }
        ensures age { OnGranted result (age_of self.new worker ≡ age) }

        ensures own { OnGranted result ((other : ℕ) → other ≢ partition → SameHolding self.old self.new worker other) }
        ensures others { IfGranted result (λ wounded. (other : ℕ) →
            other ≢ worker → has wounded other ≡ false → SameHoldings self.old self.new other) }
        ensures partitions { self.new.partitions ≡ self.old.partitions }
    {
        let _ = &self.partitions;
        let wounded = self.in_the_way(worker, partition, change);
        if wounded == WorkerSet::new() {
            // Mostly nobody is, and nothing else has to be looked for.
            self.grant(worker, age, partition, change);
            return Acquired::Granted { wounded };
        }
        match self.blocker(worker, age, partition, change) {
            Some(holder) => Acquired::Blocked { holder },
            None => {
                self.free_each(wounded);
                self.grant(worker, age, partition, change);
                Acquired::Granted { wounded }
            }
        }
    }

    /// A worker loses all that it holds.
    pub fn free_all(&mut self, worker: WorkerId)
        ensures freed { HoldsNothing self.new worker }
        ensures others { (other : ℕ) → other ≢ worker → SameHoldings self.old self.new other }
        ensures partitions { self.new.partitions ≡ self.old.partitions }
    {
        let place = usize::from(worker.number());
        self.held[place] = PartSet::new();
        self.exclusive[place] = PartSet::new();
        self.busy = self.busy.without(worker.number());
    }
}
