//! What a visit passes before its commit.

ghost use Rattle.std.specs.Prelude.{◌≡◌, true};

use ftc_base::{PacketNo, ServerId};

/// A worker passes it between the last read of a visit and its commit, while it holds no latch. It learns nothing of
/// the chain, and changes nothing there.
pub trait Gate: Sync {
    /// Holds the visit of a packet at a server for as long as it likes.
    fn pause(&self, server: ServerId, packet: PacketNo);

    /// Whether it holds nobody. Before such a gate one worker makes all visits, and the others sleep; before one that
    /// says false, since it may hold a visit, that worker prepares visits, and the others pass the gate with them.
    fn is_open(&self) -> bool {
        false
    }
}

/// It holds nobody.
#[derive(Clone, Copy)]
pub struct OpenGate;

impl Gate for OpenGate {
    fn pause(&self, _server: ServerId, _packet: PacketNo) {}

    fn is_open(&self) -> bool
        ensures { result ≡ true }
    {
        true
    }
}
