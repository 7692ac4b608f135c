//! A server of the chain.

ghost use Rattle.std.specs.Prelude.{◌≡◌, ◌≤◌, ◌<◌, ℕ, true, length, is_some};
ghost use Rattle.std.specs.List.{list_all};
ghost use Rattle.ftc_base.specs.declared.limits.TheConstants.{MOST_PARTITIONS};
ghost use Rattle.ftc_server.specs.Replicas.{replica_at};
ghost use Rattle.ftc_server.specs.Holding.{are_rising};
ghost use Rattle.ftc_server.specs.Standing.{is_later_member};
ghost use Rattle.ftc_server.specs.Slots.{AreSlots, is_open};
ghost use Rattle.ftc_server.specs.Waiting.{AreWatched, AreHadBefore, is_unreached};

use crate::held::HeldMessages;
use ftc_base::ServerId;
use ftc_edge::{Buffer, Forwarder};
use ftc_mbox::Rule;
use ftc_replica::{Kept, Replica, Waits};
use ftc_ring::Ring;
use ftc_txn::Head;
use ftc_vector::Commits;
use std::alloc::Global;

/// One server of a chain.
#[derive(Drop)]
pub struct Server {
    pub alloc: Global,
    pub ring: Ring,
    pub id: ServerId,
    /// What its middlebox does, and in how many partitions the keys of each middlebox lie.
    pub rule: Rule,
    pub partitions: u8,
    /// The store, the vector, the locks and the slots of its own group.
    pub head: Head,
    /// The logs of its own group that others may still lack.
    pub own: Kept,
    /// The replicas of the groups that it belongs to and doesn't head, by the number of the group.
    pub others: Vec<Option<Replica>>,
    /// What it knows to be at the tails. Of the group whose last member it is, it knows all that it has.
    pub known: Commits,
    pub held: HeldMessages,
    /// What the logs wait for that held messages lack and that can't be applied yet.
    pub waits: Waits,
    /// What is behind it where it is the last server, and in front of it where it is the first.
    pub buffer: Buffer,
    pub forwarder: Forwarder,
    ghost some_partition: { 1 ≤ partitions },
    ghost few_partitions: { partitions ≤ MOST_PARTITIONS },
    ghost within: { id < ring.servers },
    ghost head_group: { head.group ≡ id },
    ghost head_partitions: { head.partitions ≡ partitions },
    ghost each_group: { length others.items ≡ ring.servers },
    ghost members: { (group : ℕ) → group < ring.servers →
        is_some (replica_at others.items group) ≡ is_later_member ring group id },
    ghost open: { list_all (is_open id) held.items ≡ true },
    ghost slots: { ∥ AreSlots rule head held.items ∥₁ },
    ghost rising: { list_all are_rising held.items ≡ true },
    ghost watched: { AreWatched others.items held.items held.resting waits.items },
    ghost had: { AreHadBefore others.items held.items held.had },
    ghost unreached: { list_all (is_unreached others.items) waits.items ≡ true },
}
