//! Events of the protocol.

use ftc_base::{Items, PacketNo, ServerId, WorkerId};

/// A visit: one packet's transaction at one middlebox.
#[derive(Clone, Copy, Debug, PartialEq, Eq)]
pub struct VisitName {
    pub server: ServerId,
    pub packet: PacketNo,
}

/// Visits in order.
pub type VisitNames = Items<VisitName>;

/// One step of a run. A link is named by the server that it leaves, a group by its head, and a message
/// by its origin: the number of the packet with which it began, or a number behind all packets.
#[derive(Drop)]
pub enum Event {
    /// A packet comes to server 0.
    Enter {
        packet: PacketNo,
    },
    /// The receiver of a link takes the message of that origin.
    Take {
        link: ServerId,
        origin: PacketNo,
    },
    /// A server applies the log of a group and a packet from a message that it holds.
    Apply {
        server: ServerId,
        origin: PacketNo,
        group: ServerId,
        packet: PacketNo,
    },
    /// The middlebox of a server takes a packet, in a worker's slot.
    Visit {
        server: ServerId,
        packet: PacketNo,
        worker: WorkerId,
    },
    /// A server sends a message on.
    Pass {
        server: ServerId,
        origin: PacketNo,
    },
    /// The same, but the link loses the message.
    Lose {
        server: ServerId,
        origin: PacketNo,
    },
    /// The forwarder takes a message from the ring.
    Carry {
        origin: PacketNo,
    },
    /// A server stops.
    Crash {
        server: ServerId,
    },
    /// A server is replaced, which undoes visits.
    Recover {
        server: ServerId,
        undone: VisitNames,
    },
    /// The receiver of a link pulls from its sender.
    Pull {
        link: ServerId,
    },
    /// Server 0 begins a message without a packet.
    Propagate {
        origin: PacketNo,
    },
    /// A packet leaves the chain.
    Release {
        packet: PacketNo,
    },
}
