//! A packet comes to the chain, and a message begins without one.

ghost use Rattle.std.specs.Prelude.{◌≡◌, ◌<◌, ◌^◌, ℕ, IfOk, OnOk, OnErr, true, false, Option};
ghost use Rattle.ftc_journal.specs.declared.event.Event.TheVariants as event;
ghost use Rattle.ftc_protocol.specs.Setting.{Setting, packet_at};
ghost use Rattle.ftc_protocol.specs.State.{ChainState};
ghost use Rattle.ftc_server.specs.Holding.{is_held, arrived};
ghost use Rattle.ftc_server.specs.Slots.{is_open};
ghost use Rattle.ftc_server.specs.Steps.{HasTaken, HasRoomed};
ghost use Rattle.ftc_standing.specs.Stand.{IsBegun};
ghost use Rattle.ftc_network.specs.Events.{IsAllowed, IsAllowedAt, Follows, FollowsIn, SlotFollows, SlotFollowsIn};
ghost use Rattle.ftc_network.specs.Events.{StandsStill, SlotStandsStill};
ghost use Rattle.ftc_network.specs.Parts.{buffer_of, withheld_in};
ghost use Rattle.ftc_network.specs.Slots.{head_of, AreSameHeads};

use crate::laws::{servers_beside, slots_stay_ready};
use crate::network::Network;
use ftc_base::{Bytes, NoMemory, PacketNo};
use ftc_message::{Logs, Message, Needs};
use ftc_refinement::{what_stays, what_take_does, what_take_wants};
use ftc_server::Server;
use ftc_standing::links_stand_still;
use ftc_vector::Commits;
use ftc_visits::made_visits_stay;
use std::alloc::Global;

/// A message that begins.
fn begun(alloc: Global, origin: PacketNo, packet: Option<Bytes>) -> Result<Message, NoMemory>
    ensures { IfOk result (IsBegun origin packet) }
{
    let commits = Commits::new(alloc)?;
    Ok(Message {
        origin,
        packet,
        logs: Logs::new(alloc),
        needs: Needs::new(alloc),
        commits,
    })
}

/// A server holds a message that begins.
fn hold(server: &mut Server, message: Message) -> Result<(), NoMemory>
    requires new { is_held message.origin server.old.held.items ≡ false }
    requires open { is_open server.old.id (arrived message false) ≡ true }
    ensures ok { OnOk result (HasTaken server.old server.new message false) }
    ensures err { OnErr result (HasRoomed server.old server.new) }
{
    server.make_room(message.logs.len())?;
    server.take(message, false);
    Ok(())
}

/// Server 0, where it is up, holds a packet that enters, and drops the kept logs that it knows to be at the tails.
fn enter_at(
    slot: &mut Option<Server>,
    alloc: Global,
    packet: PacketNo,
    bytes: Bytes,
) -> Result<(), NoMemory>
    requires { ∥ IsAllowedAt (event.Enter packet) 0 slot.old ∥₁ }
    ensures ok { OnOk result ((setting : Setting) (state : ChainState) → bytes ≡ packet_at setting packet →
        SlotFollowsIn setting state (event.Enter packet) 0 slot.old slot.new) }
    ensures err { OnErr result (SlotStandsStill 0 slot.old slot.new) }
    ensures buffer { OnOk result (buffer_of slot.new ≡ buffer_of slot.old) }
    ensures heads { head_of slot.new ≡ head_of slot.old }
{
    what_take_wants();
    what_take_does();
    what_stays();
    slots_stay_ready();
    match slot {
        Some(server) => {
            let message = begun(alloc, packet, Some(bytes))?;
            hold(server, message)?;
            // Where no server may fail, no message comes round that would tell the first server what is known.
            server.prune();
            Ok(())
        }
        None => Ok(()),
    }
}

/// Server 0 holds a message that begins without a packet.
fn propagate_at(slot: &mut Option<Server>, alloc: Global, origin: PacketNo) -> Result<(), NoMemory>
    requires { ∥ IsAllowedAt (event.Propagate origin) 0 slot.old ∥₁ }
    ensures ok { OnOk result (SlotFollows (event.Propagate origin) 0 slot.old slot.new) }
    ensures err { OnErr result (SlotStandsStill 0 slot.old slot.new) }
    ensures buffer { OnOk result (buffer_of slot.new ≡ buffer_of slot.old) }
    ensures heads { head_of slot.new ≡ head_of slot.old }
{
    what_take_wants();
    what_take_does();
    what_stays();
    slots_stay_ready();
    match slot {
        Some(server) => {
            let message = begun(alloc, origin, None)?;
            hold(server, message)
        }
        None => Ok(()),
    }
}

impl Network {
    /// Server 0 holds the packet in a new message. Where that server is down, the packet is lost.
    pub fn enter(&mut self, alloc: Global, packet: PacketNo, bytes: Bytes) -> Result<(), NoMemory>
        requires allowed { ∥ IsAllowed (event.Enter packet) self.old ∥₁ }
        requires room { self.old.entered < u32.MAX }
        ensures ok { OnOk result ((setting : Setting) (state : ChainState) → bytes ≡ packet_at setting packet →
            FollowsIn setting state (event.Enter packet) self.old self.new) }
        ensures err { OnErr result (StandsStill self.old self.new) }
        ensures withheld { OnOk result (withheld_in self.new ≡ withheld_in self.old) }
        ensures heads { AreSameHeads self.old self.new }
    {
        servers_beside();
        links_stand_still();
        made_visits_stay();
        let _ = self.ring.servers();
        enter_at(&mut self.servers[0], alloc, packet, bytes)?;
        self.entered += 1;
        Ok(())
    }

    /// Server 0 holds a new message without a packet.
    pub fn propagate(&mut self, alloc: Global, origin: PacketNo) -> Result<(), NoMemory>
        requires allowed { ∥ IsAllowed (event.Propagate origin) self.old ∥₁ }
        requires room { self.old.propagates < u32.MAX }
        ensures ok { OnOk result (Follows (event.Propagate origin) self.old self.new) }
        ensures err { OnErr result (StandsStill self.old self.new) }
        ensures withheld { OnOk result (withheld_in self.new ≡ withheld_in self.old) }
        ensures heads { AreSameHeads self.old self.new }
    {
        servers_beside();
        links_stand_still();
        made_visits_stay();
        let _ = self.ring.servers();
        propagate_at(&mut self.servers[0], alloc, origin)?;
        self.propagates += 1;
        Ok(())
    }
}
