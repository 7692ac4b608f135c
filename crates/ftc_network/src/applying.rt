//! A server applies a log.

ghost use Rattle.std.specs.Prelude.{◌≡◌, OnOk, OnErr};
ghost use Rattle.ftc_journal.specs.declared.event.Event.TheVariants as event;
ghost use Rattle.ftc_network.specs.Events.{IsAllowed, IsAllowedAt, Follows, SlotFollows, StandsStill, SlotStandsStill};
ghost use Rattle.ftc_network.specs.Parts.{buffer_of, withheld_in};
ghost use Rattle.ftc_network.specs.Slots.{head_of, AreSameHeads};

use crate::laws::{servers_beside, slots_stay_ready};
use crate::network::Network;
use crate::places::place_of;
use ftc_base::{NoMemory, PacketNo, ServerId};
use ftc_refinement::{what_apply_does, what_apply_wants, what_stays, where_events_are};
use ftc_server::Server;
use ftc_standing::links_stand_still;
use ftc_visits::made_visits_stay;

/// A server applies a log of a message that it holds.
fn apply_at(
    slot: &mut Option<Server>,
    server: ServerId,
    origin: PacketNo,
    group: ServerId,
    packet: PacketNo,
) -> Result<(), NoMemory>
    requires { ∥ IsAllowedAt (event.Apply server origin group packet) server slot.old ∥₁ }
    ensures ok { OnOk result (SlotFollows (event.Apply server origin group packet) server slot.old slot.new) }
    ensures err { OnErr result (SlotStandsStill server slot.old slot.new) }
    ensures buffer { OnOk result (buffer_of slot.new ≡ buffer_of slot.old) }
    ensures heads { head_of slot.new ≡ head_of slot.old }
{
    what_apply_wants();
    what_apply_does();
    what_stays();
    slots_stay_ready();
    match slot {
        Some(live) => live.apply(origin, group, packet),
        None => Ok(()),
    }
}

impl Network {
    /// A server applies the log of a group and a packet from a message that it holds.
    pub fn apply(
        &mut self,
        server: ServerId,
        origin: PacketNo,
        group: ServerId,
        packet: PacketNo,
    ) -> Result<(), NoMemory>
        requires { ∥ IsAllowed (event.Apply server origin group packet) self.old ∥₁ }
        ensures ok { OnOk result (Follows (event.Apply server origin group packet) self.old self.new) }
        ensures err { OnErr result (StandsStill self.old self.new) }
        ensures withheld { OnOk result (withheld_in self.new ≡ withheld_in self.old) }
        ensures heads { AreSameHeads self.old self.new }
    {
        where_events_are();
        servers_beside();
        links_stand_still();
        made_visits_stay();
        apply_at(
            &mut self.servers[place_of(server)],
            server,
            origin,
            group,
            packet,
        )
    }
}
