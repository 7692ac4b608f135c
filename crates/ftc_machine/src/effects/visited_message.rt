//! What a visit leaves of the message with its packet.

ghost use Rattle.std.specs.Prelude.{ℕ, ◌≡◌, ◌<◌, ◌==◌, ◌&&◌, ◌||◌, nat_lt, not, length, List, Option};
ghost use Rattle.ftc_base.specs.Sets.{has};
ghost use Rattle.ftc_serial.specs.Serial.{Entry};
ghost use Rattle.ftc_serial.specs.Take.{Outcome};
ghost use Rattle.ftc_serial.specs.Trace.{names};
ghost use Rattle.ftc_serial.specs.Words.{with_at};
ghost use Rattle.ftc_protocol.specs.declared.fate.Fate.{Fate as AFate};
ghost use Rattle.ftc_protocol.specs.Changes.{is_touching};
ghost use Rattle.ftc_machine.specs.Represents.{IsPlace, IsMessageSlot, fate_in};
ghost use Rattle.ftc_protocol.specs.Next.{visited_at, visited_message, logs_of, fate_by};
ghost use Rattle.ftc_machine.specs.Frontier.{Numbers};
ghost use Rattle.ftc_protocol.specs.Setting.{Setting};
ghost use Rattle.ftc_machine.specs.Slots.{slot_at};
ghost use Rattle.ftc_protocol.specs.State.{Where, Message as AMessage};
ghost use Rattle.ftc_protocol.specs.Visits.{Visits, union, just};

use crate::state::message::{Message, Place};
use crate::state::slots::Slots;
use ftc_base::{Bytes, PacketNo, ServerId, ServerSet};
use ftc_journal::VisitNames;
use ftc_protocol::Fate;

/// The place of a visited message.
fn visited_at(place: Place) -> Place
    ensures { (partitions : ℕ) (trace : List Entry) (numbers : Numbers) (known : Visits) (at : Where) →
        IsPlace partitions trace numbers known at place
        → IsPlace partitions trace numbers known (visited_at at) result }
{
    match place {
        Place::Held {
            server,
            by_ring,
            ..
        } => Place::Held {
            server,
            visited: true,
            by_ring,
        },
        Place::Queued { link, known } => Place::Queued { link, known },
    }
}

/// The needs of a packet behind a visit. One that was dropped has none.
fn needs_behind(
    needs: ServerSet,
    server: ServerId,
    is_touching: bool,
    is_dropped: bool,
) -> ServerSet
    ensures { (group : ℕ) → has result group
        ≡ (not is_dropped && (has needs group || (group == server && is_touching))) }
{
    if is_dropped {
        ServerSet::new()
    } else if is_touching {
        needs.with(server.number())
    } else {
        needs
    }
}

/// The packet's message is visited, and has these bytes and logs.
pub fn visit_message(
    messages: &mut Slots<Message>,
    server: ServerId,
    packet: PacketNo,
    is_touched: bool,
    bytes: Option<Bytes>,
    logs: VisitNames,
)
    ensures { (setting : Setting) (trace : List Entry) (numbers : Numbers) (outcome : Outcome)
        (message : ℕ → Option AMessage) →
        outcome.packet ≡ bytes → is_touching outcome ≡ is_touched →
        ((group number : ℕ) → names logs group number
        ≡ union (logs_of (message packet)) (just server packet
        (is_touching outcome && nat_lt 0 setting.failures)) group number) →
        ((origin : ℕ) → IsMessageSlot setting.partitions trace numbers (message origin) (slot_at messages.old origin)) →
        (origin : ℕ) → IsMessageSlot setting.partitions trace numbers
        (with_at message packet (visited_message setting server packet outcome (message packet)) origin)
        (slot_at messages.new origin) }
{
    let Some(message) = messages.take_out(packet as usize) else {
        return;
    };
    let Message {
        place,
        since,
        packet: _,
        logs: _,
        needs,
    } = message;
    let needs = needs_behind(needs, server, is_touched, bytes.is_none());
    messages.put(
        packet as usize,
        Message {
            place: visited_at(place),
            since,
            packet: bytes,
            logs,
            needs,
        },
    );
}

/// A packet that the server's middlebox drops is filtered.
pub fn visit_fate(
    fates: &mut Slots<Fate>,
    server: ServerId,
    packet: PacketNo,
    bytes: &Option<Bytes>,
)
    requires { packet < length fates.old }
    ensures { (fate : ℕ → AFate) → ((number : ℕ) → fate_in fates.old number ≡ fate number) →
        (number : ℕ) → fate_in fates.new number ≡ with_at fate packet (fate_by server (fate packet) bytes.now) number }
{
    if bytes.is_none() {
        fates.put(packet as usize, Fate::Filtered { server });
    }
}
