//! A replica of a group.

ghost use Rattle.std.specs.Prelude.{◌≡◌, ◌≤◌, ◌<◌, ◌↔◌, ℕ, true, [], None, IsTrue, IfOk, OnOk, OnErr};
ghost use Rattle.std.specs.FinMap as map;
ghost use Rattle.ftc_base.specs.Sets.{has};
ghost use Rattle.ftc_vector.specs.Vector.{by_partition, number_at, need_of};
ghost use Rattle.ftc_vector.specs.Order.{IsLogReady, IsCovered};
ghost use Rattle.ftc_replica.specs.Kept.{missing};
ghost use Rattle.ftc_replica.specs.Held.{applied};

use crate::coverage::covers_log;
use crate::kept::Kept;
use ftc_base::NoMemory;
use ftc_base::limits::MOST_PARTITIONS;
use ftc_message::Log;
use ftc_store::Store;
use ftc_vector::{Vector, ready};
use std::alloc::Global;
use std::marker::Model;

/// What a member of a group has of it. A contract sees the store's content and in how many partitions
/// its keys lie, the vector, and the kept logs in the order of keeping.
#[derive(Drop)]
pub struct Replica {
    store: Store,
    vector: Vector,
    kept: Kept,
}

impl Model for Replica {
    ghost use Rattle.std.specs.Coded.{codes};
    ghost use Rattle.ftc_replica.specs.Held.{Held, content_code};

    ghost Value = { Held };

    ghost coded = { Prim.hlevel (codes, content_code) };

    ghost view = { λ replica. record {
      content = replica.store.content;
      partitions = replica.store.partitions;
      vector = replica.vector;
      kept = replica.kept.items;
    } };
}

impl Replica {
    /// The replica to which nothing was applied yet, of a store whose keys lie in so many partitions.
    pub fn new(alloc: Global, partitions: u8) -> Replica
        requires some { 1 ≤ partitions }
        requires within { partitions ≤ MOST_PARTITIONS }
        ensures content { result.content ≡ map.empty }
        ensures partitions { result.partitions ≡ partitions }
        ensures vector { result.vector ≡ by_partition (λ _. 0) }
        ensures kept { result.kept ≡ [] }
    {
        Replica {
            store: Store::new(alloc, partitions),
            vector: Vector::zero(),
            kept: Kept::new(alloc),
        }
    }

    /// The replica of these three.
    pub fn of(store: Store, vector: Vector, kept: Kept) -> Replica
        ensures { result ≡ record {
          content = store.content;
          partitions = store.partitions;
          vector = vector;
          kept = kept.items;
        } }
    {
        Replica {
            store,
            vector,
            kept,
        }
    }

    /// The three that it is made of.
    pub fn split(self) -> (Store, Vector, Kept)
        ensures content { result.0.content ≡ self.content }
        ensures partitions { result.0.partitions ≡ self.partitions }
        ensures vector { result.1 ≡ self.vector }
        ensures kept { result.2.items ≡ self.kept }
    {
        (self.store, self.vector, self.kept)
    }

    /// The store of the group's middlebox.
    pub fn store(&self) -> &Store
        ensures content { result.now.content ≡ self.now.content }
        ensures partitions { result.now.partitions ≡ self.now.partitions }
    {
        &self.store
    }

    /// How often each partition was changed.
    pub fn vector(&self) -> &Vector
        ensures { result.now ≡ self.now.vector }
    {
        &self.vector
    }

    /// The logs that others may still lack.
    pub fn kept(&self) -> &Kept
        ensures { result.now.items ≡ self.now.kept }
    {
        &self.kept
    }

    /// Whether a log may be applied now.
    pub fn ready(&self, log: &Log) -> bool
        ensures { IsTrue result ↔ IsLogReady self.now.vector log.now.before log.now.changed }
    {
        ready(&self.vector, log.before(), log.changed())
    }

    /// Whether the log is already in the replica, or, where it only reads, all that it read.
    pub fn has(&self, log: &Log) -> bool
        ensures { IsTrue result ↔ IsCovered self.now.vector (need_of log.now.before log.now.changed) }
    {
        covers_log(&self.vector, log)
    }

    /// Applies a log that is ready, and keeps it.
    pub fn apply(&mut self, log: &Log) -> Result<(), NoMemory>
        requires ready { IsLogReady self.old.vector log.now.before log.now.changed }
        requires numbers { (partition : ℕ) → partition < MOST_PARTITIONS → has log.now.changed partition ≡ true →
            number_at self.old.vector partition < u64.MAX }
        ensures applied { OnOk result (self.new ≡ applied log.now self.old) }
        ensures refused { OnErr result (self.new ≡ self.old) }
    {
        self.store.reserve(log.writes().len())?;
        self.kept.add(log.copy())?;
        self.store.apply(log.writes());
        self.vector.raise(log.changed());
        Ok(())
    }

    /// Drops the kept logs that the vector covers.
    pub fn prune(&mut self, commit: &Vector)
        ensures { self.new ≡ record self.old { kept = missing commit.now self.old.kept } }
    {
        self.kept.prune(commit);
    }
}
