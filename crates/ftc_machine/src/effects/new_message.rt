//! The message that server 0 begins.

ghost use Rattle.std.specs.Prelude.{List};
ghost use Rattle.ftc_serial.specs.Serial.{Entry};
ghost use Rattle.ftc_machine.specs.Frontier.{Numbers};
ghost use Rattle.ftc_protocol.specs.Next.{fresh_message};
ghost use Rattle.ftc_machine.specs.Represents.{IsMessage};
ghost use Rattle.std.specs.Prelude.{ℕ};

use crate::state::message::{Message, Place};
use ftc_base::{Bytes, ServerId, ServerSet};
use ftc_journal::VisitNames;
use std::alloc::Global;

/// A message that nobody has visited and that carries nothing but a packet, if one is given.
pub fn fresh(alloc: Global, now: u64, packet: Option<Bytes>) -> Message
    ensures { (partitions : ℕ) (trace : List Entry) (numbers : Numbers) →
        IsMessage partitions trace numbers (fresh_message now packet) result }
{
    Message {
        place: Place::Held {
            server: ServerId::new(0).unwrap(),
            visited: false,
            by_ring: false,
        },
        since: now,
        packet,
        logs: VisitNames::new(alloc),
        needs: ServerSet::new(),
    }
}
