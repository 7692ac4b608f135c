//! A server goes down.

ghost use Rattle.std.specs.Prelude.{ℕ, ◌≡◌, ◌<◌, ◌≤◌, length, option_map, OnOk, OnErr};
ghost use Rattle.ftc_journal.specs.declared.event.Event.TheVariants as event;
ghost use Rattle.ftc_machine.specs.declared.state.message.Message.{Message as AMessage};
ghost use Rattle.ftc_machine.specs.Simulation.{SimulatesEvent};
ghost use Rattle.ftc_machine.specs.Represents.{RepresentsSame};
ghost use Rattle.ftc_machine.specs.LostPackets.{drop_kept, loses_kept, fate_lost, is_kept_at};
ghost use Rattle.ftc_protocol.specs.Setting.{Setting};
ghost use Rattle.ftc_machine.specs.Slots.{slot_at, has_such};
ghost use Rattle.ftc_protocol.specs.State.{ChainState};

use crate::effects::losses::{lose, lose_forwarder, lose_withheld};
use crate::state::MachineState;
use crate::state::message::{Message, Place};
use crate::state::slots::Slots;
use ftc_base::{NoMemory, ServerId};
use ftc_protocol::Fate;
use ftc_ring::next_of;
use ftc_vector::GroupVectors;
use std::alloc::Global;

/// Whether there is a message that the server holds, or that is queued to it.
fn is_at(servers: u8, server: ServerId, message: Option<&Message>) -> bool
    ensures { result ≡ has_such (λ (each : AMessage). is_kept_at servers server each.place)
        (option_map (λ each. each.now) message.entry) }
{
    let Some(message) = message else {
        return false;
    };
    match &message.place {
        Place::Held { server: holder, .. } => holder.number() == server.number(),
        Place::Queued { link, .. } => next_of(servers, *link) == server.number(),
    }
}

/// Takes away the messages that the server holds, and those that are queued to it. Their packets are lost
/// by that event.
fn lose_at(
    servers: u8,
    server: ServerId,
    messages: &mut Slots<Message>,
    fates: &mut Slots<Fate>,
    event: u64,
)
    requires { length messages.old ≤ length fates.old }
    ensures messages { (origin : ℕ) → slot_at messages.new origin ≡
        drop_kept (λ (each : AMessage). is_kept_at servers server each.place) (slot_at messages.old origin) }
    ensures fates { (packet : ℕ) → slot_at fates.new packet ≡
        fate_lost (loses_kept (λ (each : AMessage). is_kept_at servers server each.place)
        (slot_at messages.old packet)) event (slot_at fates.old packet) }
    ensures wide { length fates.new ≡ length fates.old }
{
    for place in 0..messages.len() {
        if is_at(servers, server, messages.get(place)) {
            lose(messages, fates, place, event);
        }
    }
}

impl MachineState {
    /// The server is down, and all that it held is gone, with the messages that were queued to it.
    pub fn crash(&mut self, alloc: Global, server: ServerId, now: u64) -> Result<(), NoMemory>
        requires within { server < self.old.ring.servers }
        requires more { self.old.done < usize.MAX }
        ensures ok { OnOk result ((setting : Setting) (state : ChainState) → now ≡ state.events →
            SimulatesEvent setting state (event.Crash server) self.old self.new) }
        ensures err { OnErr result (RepresentsSame self.old self.new) }
    {
        let most = self.messages.len().max(self.buffer.len());
        self.fates.make_room(most)?;
        let servers = self.ring.servers();
        let place = usize::from(server.number());
        self.down = self.down.with(server.number());
        self.lists[place] = GroupVectors::new();
        self.known[place] = GroupVectors::new();
        lose_at(servers, server, &mut self.messages, &mut self.fates, now);
        let is_last = server.number() + 1 == servers;
        lose_withheld(is_last, &mut self.buffer, &mut self.fates, now);
        lose_forwarder(alloc, server.number() == 0, &mut self.forwarder);
        self.done += 1;
        Ok(())
    }
}
