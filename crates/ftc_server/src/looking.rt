//! What is read off a server.

ghost use Rattle.std.specs.Prelude.{◌≡◌, ◌<◌, ◌==◌, ℕ, true, false, None, Some, length, slice_get, IsNone, IfSome, ◌↔◌};
ghost use Rattle.std.specs.Prelude.{option_map};
ghost use Rattle.std.specs.Option.{option_copied};
ghost use Rattle.ftc_txn.specs.Slots.{slot_at, packet_at, wounded_at};
ghost use Rattle.ftc_txn.specs.Head.{ages_left};
ghost use Rattle.ftc_server.specs.Holding.{found};
ghost use Rattle.ftc_server.specs.Looks.{held_origin, message_in, came_by_ring, replica_in};

use crate::replicas::replica_of;
use crate::server::Server;
use ftc_base::{Answers, PacketNo, ServerId, WorkerId};
use ftc_message::Message;
use ftc_replica::Kept;
use ftc_store::Store;
use ftc_vector::{Commits, Vector};

impl Server {
    /// How many messages are held.
    pub fn held(&self) -> usize
        ensures { result ≡ length self.now.held.items }
    {
        self.held.len()
    }

    /// The origin of the held message at a place, in the order of taking.
    pub fn held_at(&self, place: usize) -> PacketNo
        requires { place < length self.now.held.items }
        ensures { option_map held_origin (slice_get self.now.held.items place) ≡ Some result }
    {
        self.held.at(place).message.origin
    }

    /// The held message of that origin.
    pub fn message(&self, origin: PacketNo) -> Option<&Message>
        ensures { option_copied result ≡ message_in self.now origin }
    {
        let held = self.held.get(origin)?;
        Some(&held.message)
    }

    /// Whether the message of that origin is held and came by the link that closes the ring.
    pub fn by_ring(&self, origin: PacketNo) -> bool
        ensures { result ≡ came_by_ring (found origin self.now.held.items) }
    {
        match self.held.get(origin) {
            Some(held) => held.by_ring,
            None => false,
        }
    }

    /// The store of a group that it belongs to.
    pub fn store_of(&self, group: ServerId) -> &Store
        ensures content { result.now.content ≡ (replica_in self.now group).content }
        ensures partitions { result.now.partitions ≡ (replica_in self.now group).partitions }
    {
        match replica_of(self.others.as_slice(), group) {
            Some(replica) => replica.store(),
            None => self.head.store(),
        }
    }

    /// How often each partition of a group that it belongs to was changed.
    pub fn vector_of(&self, group: ServerId) -> &Vector
        ensures { result.now ≡ (replica_in self.now group).vector }
    {
        match replica_of(self.others.as_slice(), group) {
            Some(replica) => replica.vector(),
            None => self.head.vector(),
        }
    }

    /// The logs that it keeps of a group that it belongs to.
    pub fn kept_of(&self, group: ServerId) -> &Kept
        ensures { result.now.items ≡ (replica_in self.now group).kept }
    {
        match replica_of(self.others.as_slice(), group) {
            Some(replica) => replica.kept(),
            None => &self.own,
        }
    }

    /// What it knows to be at the tails.
    pub fn known(&self) -> &Commits
        ensures { result.now ≡ self.now.known }
    {
        &self.known
    }

    /// How many packets are withheld.
    pub fn withheld(&self) -> usize
        ensures { result ≡ length self.now.buffer.items }
    {
        self.buffer.withheld()
    }

    /// How many logs the forwarder has.
    pub fn forwarded(&self) -> usize
        ensures { result ≡ length self.now.forwarder }
    {
        self.forwarder.logs()
    }

    /// Whether an age is left for a slot to begin.
    pub fn ages_left(&self) -> bool
        ensures { result ≡ ages_left u64.MAX self.now.head }
    {
        self.head.ages_left()
    }

    /// The packet that a slot runs.
    pub fn packet_of(&self, worker: WorkerId) -> Option<PacketNo>
        ensures { result ≡ packet_at self.now.head.slots worker }
    {
        self.head.packet(worker)
    }

    /// The answers of what a slot runs.
    pub fn answers(&self, worker: WorkerId) -> Option<&Answers>
        ensures none { IsNone result ↔ (slot_at self.now.head.slots worker ≡ None) }
        ensures some { IfSome result (λ answers. IfSome (slot_at self.now.head.slots worker) (λ running.
            answers.now.items ≡ running.answers)) }
    {
        self.head.answers(worker)
    }

    /// The worker that the next read or commit of a slot names as the one that wounded it.
    pub fn wounded(&self, worker: WorkerId) -> Option<WorkerId>
        ensures { result ≡ wounded_at self.now.head.slots worker }
    {
        self.head.wounded(worker)
    }
}
