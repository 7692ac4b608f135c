//! The names of servers, worker slots and packets.

ghost use Rattle.std.specs.Prelude.{◌≡◌, ◌<◌, ◌↔◌, IsSome, IfSome};

use crate::limits::{MOST_SERVERS, MOST_SLOTS};
use std::marker::Model;

/// The number of a packet, by its place in the capture, from 0.
pub type PacketNo = u32;

/// A server of a chain, from 0. It names the middlebox that the server runs, and the replication
/// group that it heads, too.
#[derive(Clone, Copy, Debug, PartialEq, Eq, PartialOrd, Ord)]
pub struct ServerId {
    place: u8,
}

impl Model for ServerId {
    ghost use Rattle.std.specs.Prelude.{ℕ, ◌<◌};
    ghost use Rattle.ftc_base.specs.declared.limits.TheConstants.{MOST_SERVERS};

    ghost Value = { ℕ };

    ghost view = { λ id. id.place };

    ghost invariant = { λ id. id.place < MOST_SERVERS };

    ghost inverse = { λ number. record { place = number } };
}

impl ServerId {
    /// The server of that number, where there may be one.
    pub fn new(number: u8) -> Option<ServerId>
        ensures within { IsSome result ↔ (number < MOST_SERVERS) }
        ensures same { IfSome result (λ id. id ≡ number) }
    {
        if number < MOST_SERVERS {
            Some(ServerId { place: number })
        } else {
            None
        }
    }

    /// Its number.
    pub fn number(self) -> u8
        ensures same { result ≡ self }
        ensures within { result < MOST_SERVERS }
    {
        self.place
    }
}

/// A slot in which a server runs one packet transaction, from 0.
#[derive(Clone, Copy, Debug, PartialEq, Eq, PartialOrd, Ord)]
pub struct WorkerId {
    slot: u8,
}

impl Model for WorkerId {
    ghost use Rattle.std.specs.Prelude.{ℕ, ◌<◌};
    ghost use Rattle.ftc_base.specs.declared.limits.TheConstants.{MOST_SLOTS};

    ghost Value = { ℕ };

    ghost view = { λ id. id.slot };

    ghost invariant = { λ id. id.slot < MOST_SLOTS };

    ghost inverse = { λ number. record { slot = number } };
}

impl WorkerId {
    /// The slot of that number, where there is one.
    pub fn new(number: u8) -> Option<WorkerId>
        ensures within { IsSome result ↔ (number < MOST_SLOTS) }
        ensures same { IfSome result (λ id. id ≡ number) }
    {
        if number < MOST_SLOTS {
            Some(WorkerId { slot: number })
        } else {
            None
        }
    }

    /// Its number.
    pub fn number(self) -> u8
        ensures same { result ≡ self }
        ensures within { result < MOST_SLOTS }
    {
        self.slot
    }
}
