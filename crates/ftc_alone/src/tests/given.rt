//! What the chains under test are made from.

ghost use Rattle.std.specs.Prelude.{◌≡◌, length, IfOk};

use ftc_base::limits::MOST_RECORDS;
use ftc_base::{Bytes, Items, Key, NoMemory, Refuse};
use ftc_chain::Chain;
use ftc_firewall::FirewallRule;
use ftc_mbox::{ChainSpec, Rule};
use ftc_pcap::{Packet, Packets};
use ftc_protocol::ring_of;
use ftc_ring::Ring;
use ftc_script::{Script, accepted, read_script};
use std::alloc::Global;

const A: [u8; 42] = [
    2, 0, 0, 0, 0, 1, 2, 0, 0, 0, 0, 2, 8, 0, 0x45, 0, 0, 28, 0, 1, 0, 0, 64, 17, 0x46, 0x91, 10,
    0, 0, 5, 198, 51, 100, 7, 0x13, 0x89, 0, 53, 0, 8, 0xb7, 0xe0,
];

const C: [u8; 42] = [
    2, 0, 0, 0, 0, 1, 2, 0, 0, 0, 0, 2, 8, 0, 0x45, 0, 0, 28, 0, 1, 0, 0, 64, 17, 0x46, 0x90, 10,
    0, 0, 6, 198, 51, 100, 7, 0x13, 0x89, 0, 53, 0, 8, 0xb7, 0xdf,
];

/// UDP datagrams without content: A from 10.0.0.5, and C from 10.0.0.6. A monitor of eight groups counts A in group 7,
/// since 10 + 0 + 0 + 5 is 7 modulo 8, and C in group 0.
#[derive(Clone, Copy, Debug, PartialEq, Eq)]
pub enum Frame {
    A,
    C,
}

impl Frame {
    /// Its bytes. (What they are is no clause, so that no proof carries them along.)
    pub fn bytes(self) -> [u8; 42] {
        match self {
            Frame::A => A,
            Frame::C => C,
        }
    }

    /// The key at which that monitor counts it.
    pub fn key(self) -> Option<Key> {
        let group = match self {
            Frame::A => 7,
            Frame::C => 0,
        };
        Key::new(&[b'm', 0, group])
    }

    /// The frame of these bytes.
    pub fn of(bytes: &[u8]) -> Option<Frame> {
        if bytes == A.as_slice() {
            Some(Frame::A)
        } else if bytes == C.as_slice() {
            Some(Frame::C)
        } else {
            None
        }
    }
}

/// Two middleboxes that pass everything, without replicas.
pub fn two_passes(alloc: Global) -> Result<ChainSpec, NoMemory> {
    let mut rules = Items::new(alloc);
    rules.push(Rule::Pass)?;
    rules.push(Rule::Pass)?;
    Ok(ChainSpec::new(0, 1, rules))
}

/// One monitor, without replicas.
pub fn one_monitor(alloc: Global) -> Result<ChainSpec, NoMemory> {
    let mut rules = Items::new(alloc);
    rules.push(Rule::Monitor { groups: 8 })?;
    Ok(ChainSpec::new(0, 4, rules))
}

/// Two monitors, of whose servers one may be down.
pub fn two_monitors(alloc: Global) -> Result<ChainSpec, NoMemory> {
    let mut rules = Items::new(alloc);
    rules.push(Rule::Monitor { groups: 8 })?;
    rules.push(Rule::Monitor { groups: 8 })?;
    Ok(ChainSpec::new(1, 4, rules))
}

/// A monitor and a firewall that lets nothing through, of whose servers one may be down.
pub fn monitor_and_firewall(alloc: Global) -> Result<ChainSpec, NoMemory> {
    let mut rules = Items::new(alloc);
    let lines = Items::new(alloc);
    rules.push(Rule::Monitor { groups: 8 })?;
    rules.push(Rule::Firewall(FirewallRule { lines }))?;
    Ok(ChainSpec::new(1, 4, rules))
}

/// Parts of which no chain can be made.
#[derive(Clone, Copy, Debug)]
pub struct Wrong;

/// The packets of these frames, which are few.
fn packets_of(alloc: Global, frames: &[Frame]) -> Result<Packets, NoMemory> {
    let mut packets = Packets::new(alloc);
    for frame in frames {
        if packets.len() >= MOST_RECORDS {
            return Err(NoMemory);
        }
        let mut bytes = Bytes::new(alloc);
        bytes.append(&frame.bytes())?;
        packets.push(Packet {
            seconds: 1,
            fraction: 0,
            original: 42,
            bytes,
        })?;
    }
    Ok(packets)
}

/// The script of a text, for that ring and so many packets.
fn script_of(alloc: Global, text: &[u8], ring: &Ring, packets: u32) -> Result<Script, Refuse<Wrong>>
    ensures ring { IfOk result (λ script. script.ring ≡ ring.now) }
    ensures packets { IfOk result (λ script. script.packets ≡ packets) }
{
    let _servers = ring.servers();
    accepted();
    match read_script(alloc, text, ring, packets) {
        Ok(script) => Ok(script),
        Err(Refuse::NoMemory) => Err(Refuse::NoMemory),
        Err(Refuse::Bad(_)) => Err(Refuse::Bad(Wrong)),
    }
}

/// A chain of middleboxes, packets and a script that was accepted for them.
#[derive(Drop)]
pub struct Parts {
    pub spec: ChainSpec,
    pub packets: Packets,
    pub script: Script,
    pub ghost ring: { script.ring ≡ record { servers = length spec.rules; failures = spec.failures } },
    pub ghost count: { script.packets ≡ length packets },
}

impl Parts {
    pub fn new(
        alloc: Global,
        spec: ChainSpec,
        frames: &[Frame],
        text: &[u8],
    ) -> Result<Parts, Refuse<Wrong>> {
        let packets = packets_of(alloc, frames)?;
        let script = script_of(alloc, text, &ring_of(&spec), packets.len() as u32)?;
        Ok(Parts {
            spec,
            packets,
            script,
        })
    }

    /// The chain of them before its first event.
    pub fn chain(&self, alloc: Global) -> Result<Chain<'_>, NoMemory> {
        Chain::new(alloc, &self.spec, &self.packets, &self.script)
    }
}
