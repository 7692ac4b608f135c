//! The forwarder takes a message from the ring.

ghost use Rattle.std.specs.Prelude.{◌≡◌, OnOk, OnErr};
ghost use Rattle.ftc_journal.specs.declared.event.Event.TheVariants as event;
ghost use Rattle.ftc_network.specs.Events.{IsAllowed, IsAllowedAt, Follows, SlotFollows, StandsStill, SlotStandsStill};
ghost use Rattle.ftc_network.specs.Parts.{buffer_of, withheld_in};
ghost use Rattle.ftc_network.specs.Slots.{head_of, AreSameHeads};

use crate::laws::{servers_beside, slots_stay_ready};
use crate::network::Network;
use ftc_base::{NoMemory, PacketNo};
use ftc_refinement::{what_carry_does, what_carry_wants, what_stays};
use ftc_server::Server;
use ftc_standing::links_stand_still;
use ftc_visits::made_visits_stay;

/// A message that came round the ring ends at server 0, and its logs that go on are with the forwarder.
fn carry_at(slot: &mut Option<Server>, origin: PacketNo) -> Result<(), NoMemory>
    requires { ∥ IsAllowedAt (event.Carry origin) 0 slot.old ∥₁ }
    ensures ok { OnOk result (SlotFollows (event.Carry origin) 0 slot.old slot.new) }
    ensures err { OnErr result (SlotStandsStill 0 slot.old slot.new) }
    ensures buffer { OnOk result (buffer_of slot.new ≡ buffer_of slot.old) }
    ensures heads { head_of slot.new ≡ head_of slot.old }
{
    what_carry_wants();
    what_carry_does();
    what_stays();
    slots_stay_ready();
    match slot {
        Some(server) => server.carry(origin),
        None => Ok(()),
    }
}

impl Network {
    /// A message that came round the ring ends at server 0.
    pub fn carry(&mut self, origin: PacketNo) -> Result<(), NoMemory>
        requires { ∥ IsAllowed (event.Carry origin) self.old ∥₁ }
        ensures ok { OnOk result (Follows (event.Carry origin) self.old self.new) }
        ensures err { OnErr result (StandsStill self.old self.new) }
        ensures withheld { OnOk result (withheld_in self.new ≡ withheld_in self.old) }
        ensures heads { AreSameHeads self.old self.new }
    {
        servers_beside();
        links_stand_still();
        made_visits_stay();
        let _ = self.ring.servers();
        carry_at(&mut self.servers[0], origin)
    }
}
