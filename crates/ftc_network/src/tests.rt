//! A network at its start.

use crate::Network;
use ftc_base::{Items, ServerId, WorkerId};
use ftc_mbox::{ChainSpec, Rule};
use ftc_protocol::ring_of;
use std::alloc::Global;
use std::test::Fail;

/// Two middleboxes that pass everything, of which one may be down.
fn two_passes(alloc: Global) -> Result<ChainSpec, Fail> {
    let mut rules = Items::new(alloc);
    rules.push(Rule::Pass)?;
    rules.push(Rule::Pass)?;
    Ok(ChainSpec::new(1, 4, rules))
}

#[test]
fn all_servers_are_up_and_nothing_is_withheld(rt: HostRuntime) -> Result<(), Fail> {
    let spec = two_passes(rt.alloc())?;
    let ring = ring_of(&spec);
    let mut network = Network::new(rt.alloc(), ring, &spec)?;
    assert_eq!(rt; network.servers.len(), 2);
    assert_eq!(rt; network.links.len(), 2);
    assert!(rt; network.servers.iter().all(|server| server.is_some()));
    assert_eq!(rt; network.partitions, 4);
    assert_eq!(rt; network.withheld(), 0);
    assert!(rt; network.release().is_none());
    assert!(rt; network.visits.is_empty());
    Ok(())
}

#[test]
fn no_slot_runs_anything(rt: HostRuntime) -> Result<(), Fail> {
    let spec = two_passes(rt.alloc())?;
    let ring = ring_of(&spec);
    let network = Network::new(rt.alloc(), ring, &spec)?;
    let worker = WorkerId::new(3).unwrap();
    let server = ServerId::new(1).unwrap();
    assert_eq!(rt; network.servers.len(), 2);
    assert!(rt; network.server_of(worker).is_none());
    assert!(rt; network.look(worker, server)?.is_none());
    assert!(rt; !network.is_running(server, 0));
    Ok(())
}
