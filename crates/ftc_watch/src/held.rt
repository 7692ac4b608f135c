//! Servers that are silent and can't be spared.

use ftc_base::{PacketNo, ServerId};

/// A server was silent long enough when so many packets had entered, and wasn't fenced: without it that
/// group, the smallest of such, would have had no live server.
#[derive(Clone, Copy)]
pub struct Held {
    pub at: PacketNo,
    pub server: ServerId,
    pub group: ServerId,
}
