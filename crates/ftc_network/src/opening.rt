//! The network at its start.

ghost use Rattle.std.specs.Prelude.{◌≡◌, IfOk};
ghost use Rattle.ftc_serial.specs.Packets.{bytes_of_packets};
ghost use Rattle.ftc_protocol.specs.Setting.{Setting};
ghost use Rattle.ftc_protocol.specs.State.{opening};
ghost use Rattle.ftc_network.specs.Opening.{ring_of, IsOfChain, AreNewServers, AreNewLinks};
ghost use Rattle.ftc_network.specs.Stand.{IsNetwork};

use crate::network::Network;
use ftc_base::{NoMemory, ServerId};
use ftc_link::Link;
use ftc_mbox::ChainSpec;
use ftc_refinement::what_new_makes;
use ftc_ring::Ring;
use ftc_server::Server;
use ftc_standing::all_stand;
use ftc_visits::{MadeVisits, made_visits_begin};
use std::alloc::Global;

/// All servers, to which nothing has happened.
fn new_servers(
    alloc: Global,
    ring: &Ring,
    spec: &ChainSpec,
) -> Result<Vec<Option<Server>>, NoMemory>
    requires { ring.now ≡ ring_of spec.now }
    ensures { IfOk result (λ servers. AreNewServers spec.now ring.now.servers servers.items) }
{
    let count = ring.servers();
    let partitions = spec.partitions();
    let rules = spec.rules();
    let mut servers = Vec::new(alloc);
    for number in 0..count {
        let id = ServerId::new(number).unwrap();
        let rule = rules.at(usize::from(number));
        servers.push(Some(Server::new(alloc, ring, id, rule, partitions)?))?;
    }
    Ok(servers)
}

/// All links, on which nothing is queued.
fn new_links(alloc: Global, ring: &Ring) -> Result<Vec<Link>, NoMemory>
    ensures { IfOk result (λ links. AreNewLinks ring.now.servers links.items) }
{
    let count = ring.servers();
    let mut links = Vec::new(alloc);
    for number in 0..count {
        let id = ServerId::new(number).unwrap();
        links.push(Link::new(alloc, id))?;
    }
    Ok(links)
}

impl Network {
    /// All servers are up, and nothing has happened yet.
    pub fn new(alloc: Global, ring: Ring, spec: &ChainSpec) -> Result<Network, NoMemory>
        requires { ring ≡ ring_of spec.now }
        ensures stands { IfOk result (λ network. (setting : Setting) → IsOfChain spec.now setting →
            IsNetwork setting (opening setting) network) }
        ensures new { IfOk result (λ network. AreNewServers spec.now ring.servers network.servers.items) }
    {
        what_new_makes();
        all_stand();
        made_visits_begin();
        let servers = new_servers(alloc, &ring, spec)?;
        let links = new_links(alloc, &ring)?;
        Ok(Network {
            ring,
            partitions: spec.partitions(),
            servers,
            links,
            entered: 0,
            done: 0,
            propagates: 0,
            visits: MadeVisits::new(alloc),
        })
    }
}
