//! The ticks at which servers have beaten.

use ftc_base::{PacketNo, ServerSet};

/// The servers that have beaten since the tick before, when so many packets have entered.
#[derive(Clone, Copy)]
pub struct Tick {
    pub at: PacketNo,
    pub servers: ServerSet,
}
