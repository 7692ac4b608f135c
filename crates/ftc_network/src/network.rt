//! The servers and links of a chain.

ghost use Rattle.std.specs.Prelude.{◌≡◌, ◌≤◌, length};
ghost use Rattle.ftc_base.specs.declared.limits.TheConstants.{MOST_PARTITIONS};

use ftc_base::PacketNo;
use ftc_link::Link;
use ftc_ring::Ring;
use ftc_server::Server;
use ftc_visits::MadeVisits;

/// The servers and the links between them, and what stands beside them.
#[derive(Drop)]
pub struct Network {
    pub ring: Ring,
    /// In how many partitions the keys of each middlebox lie.
    pub partitions: u8,
    /// The servers by their numbers, None where one is down.
    pub servers: Vec<Option<Server>>,
    /// The links by the servers that they leave.
    pub links: Vec<Link>,
    /// How many packets have entered, how many crashes and recoveries of the script are done, and how many messages
    /// were begun without a packet.
    pub entered: PacketNo,
    pub done: usize,
    pub propagates: u32,
    /// The visits that count, and what a replica has to have reached to have each.
    pub visits: MadeVisits,
    ghost some_partition: { 1 ≤ partitions },
    ghost few_partitions: { partitions ≤ MOST_PARTITIONS },
    ghost each_server: { length servers.items ≡ ring.servers },
    ghost each_link: { length links.items ≡ ring.servers },
}
