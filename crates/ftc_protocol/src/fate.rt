//! What becomes of a packet.

use ftc_base::{Items, ServerId};

/// What became of a packet in a run. Events are numbered from 0 in the journal's order.
#[derive(Clone, Copy, Debug, PartialEq, Eq)]
pub enum Fate {
    /// It was released.
    Released,
    /// The middlebox of a server dropped it.
    Filtered { server: ServerId },
    /// What held it went away by that event.
    Lost { event: u64 },
    /// None of these as yet.
    Inside,
}

/// What became of each packet, from packet 0 on.
pub type Fates = Items<Fate>;
