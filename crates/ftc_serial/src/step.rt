//! Steps of the serial chain.

use ftc_base::{Items, PacketNo, ServerId};

/// One step of the serial chain.
#[derive(Clone, Copy, Debug, PartialEq, Eq)]
pub enum Step {
    /// A packet goes through the middlebox of a server.
    Visit { server: ServerId, packet: PacketNo },
    /// A packet that has passed all middleboxes leaves the chain.
    Release { packet: PacketNo },
}

/// Steps, one after another.
pub type Trace = Items<Step>;
