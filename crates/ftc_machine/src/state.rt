//! What the machine keeps of the protocol's state.

ghost use Rattle.std.specs.Prelude.{◌≡◌, ◌≤◌, length};
ghost use Rattle.ftc_base.specs.declared.limits.TheConstants.{MOST_PARTITIONS};

pub mod footprint;
pub mod frontiers;
pub mod membership;
pub mod message;
pub mod opening;
pub mod restriction;
pub mod slots;
pub mod tails;

use crate::state::footprint::Footprint;
use crate::state::message::{Message, Withheld};
use crate::state::slots::Slots;
use ftc_base::{PacketNo, ServerId, ServerSet};
use ftc_journal::VisitNames;
use ftc_protocol::Fate;
use ftc_ring::Ring;
use ftc_store::Store;
use ftc_vector::GroupVectors;

/// The state of the protocol. A set of visits is kept as how far it reaches: of each group and partition as
/// the number of its last visit that changes the partition.
#[derive(Drop)]
pub struct MachineState {
    pub ring: Ring,
    /// How many partitions the keys of a middlebox lie in.
    pub partitions: u8,
    /// The servers that are down.
    pub down: ServerSet,
    /// The visits that each server has, and those that it knows to be at their tails.
    pub lists: Vec<GroupVectors>,
    pub known: Vec<GroupVectors>,
    /// The store of each server's own middlebox.
    pub stores: Vec<Store>,
    /// The footprints of visits, by their server and then by their packet.
    pub visits: Vec<Slots<Footprint>>,
    /// The visits that count, in the order of their events.
    pub order: VisitNames,
    /// The messages by their origins, the logs of the forwarder, and the packets of the buffer.
    pub messages: Slots<Message>,
    pub forwarder: VisitNames,
    pub buffer: Slots<Withheld>,
    /// The links that have a gap.
    pub gaps: ServerSet,
    /// How many lines of the script are done, how many packets have entered, and how many messages were
    /// begun without a packet.
    pub done: usize,
    pub entered: PacketNo,
    pub propagates: u64,
    /// What became of packets. Where nothing is said the packet is inside.
    pub fates: Slots<Fate>,
    ghost some_server: { 1 ≤ ring.servers },
    ghost each_list: { length lists.items ≡ ring.servers },
    ghost each_known: { length known.items ≡ ring.servers },
    ghost each_store: { length stores.items ≡ ring.servers },
    ghost each_visits: { length visits.items ≡ ring.servers },
    ghost some_partition: { 1 ≤ partitions },
    ghost few_partitions: { partitions ≤ MOST_PARTITIONS },
}
