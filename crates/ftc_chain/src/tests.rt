//! A chain before its first event.

ghost use Rattle.std.specs.Prelude.{◌≡◌, IfOk};

use crate::Chain;
use ftc_base::{Bytes, Items, ServerId};
use ftc_journal::Job;
use ftc_mbox::{ChainSpec, Rule};
use ftc_pcap::{Packet, Packets};
use ftc_protocol::ring_of;
use ftc_ring::Ring;
use ftc_script::{Script, accepted, read_script};
use std::alloc::Global;
use std::test::Fail;

/// Two middleboxes that pass everything, without replicas.
fn two_passes(alloc: Global) -> Result<ChainSpec, Fail> {
    let mut rules = Items::new(alloc);
    rules.push(Rule::Pass)?;
    rules.push(Rule::Pass)?;
    Ok(ChainSpec::new(0, 1, rules))
}

/// A packet of two bytes.
fn one_packet(alloc: Global) -> Result<Packets, Fail> {
    let mut packets = Packets::new(alloc);
    let mut bytes = Bytes::new(alloc);
    bytes.append(b"ab")?;
    packets.push(Packet {
        seconds: 1,
        fraction: 0,
        original: 2,
        bytes,
    })?;
    Ok(packets)
}

/// The script without lines, for that ring and so many packets.
fn empty_script(alloc: Global, ring: &Ring, packets: u32) -> Result<Script, Fail>
    ensures ring { IfOk result (λ script. script.ring ≡ ring.now) }
    ensures packets { IfOk result (λ script. script.packets ≡ packets) }
{
    let _servers = ring.servers();
    accepted();
    match read_script(alloc, b"", ring, packets) {
        Ok(script) => Ok(script),
        Err(_) => Err(Fail::new("the script is right")),
    }
}

#[test]
fn at_first_a_packet_enters(rt: HostRuntime) -> Result<(), Fail> {
    let alloc = rt.alloc();
    let spec = two_passes(alloc)?;
    let packets = one_packet(alloc)?;
    let ring = ring_of(&spec);
    let script = empty_script(alloc, &ring, packets.len() as u32)?;
    let chain = Chain::new(alloc, &spec, &packets, &script)?;
    let enter = Job::Enter { packet: 0 };
    assert_eq!(rt; chain.next(), Some(enter));
    assert_eq!(rt; chain.other_job(), Some(enter));
    assert_eq!(rt; chain.free_visit(), None);
    assert!(rt; chain.legal(&enter));
    assert!(rt; !chain.legal(&Job::Enter { packet: 1 }));
    assert!(rt; !chain.legal(&Job::Propagate { origin: 1 }));
    assert!(rt; !chain.finished());
    assert!(rt; chain.journal().is_empty());
    assert_eq!(rt; chain.packets().len(), 1);
    assert_eq!(rt; chain.spec().failures(), 0);
    assert_eq!(rt; chain.script().steps(), 0);
    Ok(())
}

#[test]
fn a_packet_that_entered_is_to_be_visited(rt: HostRuntime) -> Result<(), Fail> {
    let alloc = rt.alloc();
    let spec = two_passes(alloc)?;
    let packets = one_packet(alloc)?;
    let ring = ring_of(&spec);
    let script = empty_script(alloc, &ring, packets.len() as u32)?;
    let mut chain = Chain::new(alloc, &spec, &packets, &script)?;
    let enter = Job::Enter { packet: 0 };
    if chain.legal(&enter) {
        chain.step(&enter)?;
    }
    let server = ServerId::new(0).unwrap();
    assert_eq!(rt; chain.free_visit(), Some(Job::Visit { server, packet: 0 }));
    assert_eq!(rt; chain.other_job(), None);
    Ok(())
}

#[test]
fn without_packets_nothing_is_to_be_done(rt: HostRuntime) -> Result<(), Fail> {
    let alloc = rt.alloc();
    let spec = two_passes(alloc)?;
    let packets = Packets::new(alloc);
    let ring = ring_of(&spec);
    let script = empty_script(alloc, &ring, packets.len() as u32)?;
    let chain = Chain::new(alloc, &spec, &packets, &script)?;
    assert_eq!(rt; chain.next(), None);
    assert!(rt; chain.finished());
    assert!(rt; !chain.legal(&Job::Enter { packet: 0 }));
    Ok(())
}
