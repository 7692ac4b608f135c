//! What goes away with messages and withheld packets.

ghost use Rattle.std.specs.Prelude.{ℕ, ◌≡◌, ◌<◌, ◌≤◌, ◌&&◌, not, length, Some, None, is_some, option_map, slice_set};
ghost use Rattle.std.specs.Prelude.{if◌then◌else◌};
ghost use Rattle.ftc_serial.specs.Trace.{names};
ghost use Rattle.ftc_protocol.specs.declared.fate.Fate.TheVariants as became;
ghost use Rattle.ftc_machine.specs.declared.state.message.Message.{Message as AMessage};
ghost use Rattle.ftc_machine.specs.Represents.{fate_in};
ghost use Rattle.ftc_machine.specs.LostPackets.{fate_lost, was_filtered};
ghost use Rattle.ftc_protocol.specs.Next.{is_undone_drop};
ghost use Rattle.ftc_machine.specs.Slots.{slot_at, has_such};

use crate::state::message::{Message, Withheld};
use crate::state::slots::Slots;
use ftc_base::ServerId;
use ftc_journal::{VisitName, VisitNames};
use ftc_protocol::Fate;
use std::alloc::Global;

/// Takes a message away. The packet that it carries is lost by that event.
pub fn lose(messages: &mut Slots<Message>, fates: &mut Slots<Fate>, place: usize, event: u64)
    requires { place < length fates.old }
    ensures messages { messages.new ≡ slice_set messages.old place None }
    ensures fates { fates.new
        ≡ (if has_such (λ (message : AMessage). is_some message.packet) (slot_at messages.old place)
        then slice_set fates.old place (Some (became.Lost event)) else fates.old) }
{
    let Some(message) = messages.take_out(place) else {
        return;
    };
    if message.packet.is_some() {
        fates.put(place, Fate::Lost { event });
    }
}

/// Takes all packets out of the buffer of the last server. They are lost by that event.
pub fn lose_withheld(
    is_last: bool,
    buffer: &mut Slots<Withheld>,
    fates: &mut Slots<Fate>,
    event: u64,
)
    requires { length buffer.old ≤ length fates.old }
    ensures buffer { (packet : ℕ) → slot_at buffer.new packet ≡ (if is_last then None else slot_at buffer.old packet) }
    ensures fates { (packet : ℕ) → slot_at fates.new packet ≡
        fate_lost (is_last && is_some (slot_at buffer.old packet)) event (slot_at fates.old packet) }
{
    if !is_last {
        return;
    }
    for place in 0..buffer.len() {
        if buffer.take_out(place).is_some() {
            fates.put(place, Fate::Lost { event });
        }
    }
}

/// Empties the forwarder, which the first server has.
pub fn lose_forwarder(alloc: Global, is_first: bool, forwarder: &mut VisitNames)
    ensures { (server packet : ℕ) → names forwarder.new server packet
        ≡ (not is_first && names forwarder.old server packet) }
{
    if is_first {
        *forwarder = VisitNames::new(alloc);
    }
}

/// Whether that server's middlebox dropped a packet, of which this became.
fn was_filtered(server: ServerId, fate: Option<&Fate>) -> bool
    ensures { result ≡ has_such (was_filtered server) (option_map (λ each. each.now) fate.entry) }
{
    let Some(fate) = fate else {
        return false;
    };
    match fate {
        Fate::Filtered { server: by } => server.number() == by.number(),
        Fate::Released | Fate::Lost { .. } | Fate::Inside => false,
    }
}

/// The packets that these visits dropped are lost by that event.
pub fn lose_filtered(undone: &[VisitName], fates: &mut Slots<Fate>, event: u64)
    ensures fates { (packet : ℕ) → fate_in fates.new packet ≡
        (if is_undone_drop undone.now packet
        (fate_in fates.old packet) then became.Lost event else fate_in fates.old packet) }
    ensures wide { length fates.new ≡ length fates.old }
{
    for name in undone {
        let place = name.packet as usize;
        if was_filtered(name.server, fates.get(place)) {
            fates.put(place, Fate::Lost { event });
        }
    }
}
