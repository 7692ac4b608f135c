//! The packets of a capture.

ghost use Rattle.std.specs.Prelude.{◌≡◌, ◌≤◌, ◌<◌, ◌++◌, [], ◌∷◌, length, OnOk, OnErr, slice_get, Some};
ghost use Rattle.ftc_pcap.specs.Packets.{ArePackets};

use ftc_base::limits::{MOST_CAPTURED, MOST_RECORDS};
use ftc_base::{Bytes, NoMemory};
use std::alloc::Global;
use std::marker::Model;

/// A record of a capture.
#[derive(Drop)]
pub struct Packet {
    /// When it was captured, in seconds since the epoch.
    pub seconds: u32,
    /// The part of a second after that, in the unit that the capture's magic number tells.
    pub fraction: u32,
    /// How many bytes the packet had on the wire.
    pub original: u32,
    /// The bytes that were captured.
    pub bytes: Bytes,
}

/// Packets in file order, numbered from 0. A contract sees the list of them.
#[derive(Drop)]
pub struct Packets {
    list: Vec<Packet>,
}

impl Model for Packets {
    ghost use Rattle.std.specs.Prelude.{List};
    ghost use Rattle.ftc_pcap.specs.Packets.{ArePackets};
    ghost use Rattle.ftc_pcap.specs.declared.packets.Packet.{Packet};

    ghost Value = { List Packet };

    ghost view = { λ packets. packets.list.items };

    ghost invariant = { λ packets. ArePackets packets.list.items };
}

impl Packets {
    /// No packets yet.
    pub fn new(alloc: Global) -> Packets
        ensures { result ≡ [] }
    {
        Packets {
            list: Vec::new(alloc),
        }
    }

    /// How many packets there are.
    pub fn len(&self) -> usize
        ensures same { result ≡ length self.now }
        ensures few { result ≤ MOST_RECORDS }
        ensures bounds { ArePackets self.now }
    {
        self.list.len()
    }

    /// The packet at a place, from 0.
    pub fn at(&self, place: usize) -> &Packet
        requires { place < length self.now }
        ensures same { slice_get self.now place ≡ Some result.now }
        ensures short { length result.now.bytes ≤ MOST_CAPTURED }
    {
        &self.list[place]
    }

    /// Adds a packet at the end.
    pub fn push(&mut self, packet: Packet) -> Result<(), NoMemory>
        requires room { length self.old < MOST_RECORDS }
        requires short { length packet.bytes ≤ MOST_CAPTURED }
        ensures ok { OnOk result (self.new ≡ self.old ++ packet ∷ []) }
        ensures err { OnErr result (self.new ≡ self.old) }
    {
        self.list.push(packet)?;
        Ok(())
    }
}
