//! A packet's next position.

ghost use Rattle.std.specs.Prelude.{List, ℕ, ◌≡◌, ◌<◌, ◌≤◌, slice_get, Some, true};
ghost use Rattle.ftc_store.specs.Store.{written};
ghost use Rattle.ftc_serial.specs.Take.{taken};
ghost use Rattle.ftc_serial.specs.Serial.{position_after};
ghost use Rattle.ftc_serial.specs.Waiting.{is_waiting, is_passed};
ghost use Rattle.ftc_serial.specs.declared.position.Position.TheVariants as position;

use crate::position::Position;
use crate::visit::visit;
use ftc_base::limits::{MOST_SERVERS, MOST_WRITES};
use ftc_base::{Bytes, ServerId};
use ftc_mbox::Rule;
use ftc_store::Store;

/// Whether the packet at a place waits for the middlebox of that server.
pub fn waits(positions: &[Position], place: usize, server: ServerId) -> bool
    ensures { result ≡ is_waiting (slice_get positions.now place) server }
{
    match positions.get(place) {
        Some(Position::Waiting { server: waited, .. }) => waited.number() == server.number(),
        _ => false,
    }
}

/// Whether the packet at a place has passed all middleboxes.
pub fn has_passed(positions: &[Position], place: usize) -> bool
    ensures { result ≡ is_passed (slice_get positions.now place) }
{
    match positions.get(place) {
        Some(Position::Passed { .. }) => true,
        _ => false,
    }
}

/// Where a packet is after its visit at a middlebox, of so many.
fn position_after(servers: usize, server: ServerId, packet: Option<Bytes>) -> Position
    requires known { server < servers }
    requires few { servers ≤ MOST_SERVERS }
    ensures { result ≡ position_after servers server packet }
{
    let Some(bytes) = packet else {
        return Position::Filtered { server };
    };
    let next = server.number() + 1;
    if usize::from(next) == servers {
        return Position::Passed { bytes };
    }
    Position::Waiting {
        server: ServerId::new(next).unwrap(),
        bytes,
    }
}

/// A packet that waits for a middlebox goes through it.
pub fn visited(
    from: Position,
    server: ServerId,
    servers: usize,
    rule: &Rule,
    store: &mut Store,
) -> Position
    requires known { server < servers }
    requires few { servers ≤ MOST_SERVERS }
    requires room { MOST_WRITES ≤ store.old.spare }
    ensures position { (bytes : List ℕ) → from ≡ position.Waiting server bytes →
        result ≡ position_after servers server (taken rule.now bytes store.old.content).packet }
    ensures content { (bytes : List ℕ) → from ≡ position.Waiting server bytes →
        store.new.content ≡ written (taken rule.now bytes store.old.content).writes store.old.content }
{
    match from {
        Position::Waiting { bytes, .. } => {
            let packet = visit(rule, bytes, store);
            position_after(servers, server, packet)
        }
        other => other,
    }
}

/// The bytes of a packet that has passed all middleboxes.
pub fn released_bytes(from: Position) -> Bytes
    requires { is_passed (Some from) ≡ true }
    ensures { from ≡ position.Passed result }
{
    match from {
        Position::Passed { bytes } => bytes,
        _ => unreachable!(),
    }
}
