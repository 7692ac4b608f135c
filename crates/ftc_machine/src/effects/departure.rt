//! What becomes of the parts of a message that leaves a server.

ghost use Rattle.std.specs.Prelude.{◌≡◌, ◌&&◌, ℕ, not, Some, None, is_some, if◌then◌else◌};
ghost use Rattle.ftc_base.specs.Sets.{has};

use crate::state::message::{Message, Place, Withheld};
use ftc_base::{PacketNo, ServerSet};
use ftc_journal::VisitNames;

/// What comes to the buffer, where the message has a packet.
pub fn withheld(message: &Message, packet: PacketNo, now: u64) -> Option<Withheld>
    ensures { result ≡ (if is_some message.now.packet then Some
        (record { packet = packet; since = now; needs = message.now.needs }) else None) }
{
    if message.packet.is_some() {
        Some(Withheld {
            packet,
            since: now,
            needs: message.needs,
        })
    } else {
        None
    }
}

/// The message behind the server, with these logs. Behind the last server it has no packet and no needs.
pub fn behind(message: Message, last: bool, place: Place, logs: VisitNames, now: u64) -> Message
    ensures place { result.place ≡ place }
    ensures since { result.since ≡ now }
    ensures packet { result.packet ≡ (if last then None else message.packet) }
    ensures logs { result.logs ≡ logs }
    ensures needs { (server : ℕ) → has result.needs server ≡ (not last && has message.needs server) }
{
    let (packet, needs) = if last {
        (None, ServerSet::new())
    } else {
        (message.packet, message.needs)
    };
    Message {
        place,
        since: now,
        packet,
        logs,
        needs,
    }
}
