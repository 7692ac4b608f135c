//! A packet leaves the chain.

ghost use Rattle.std.specs.Prelude.{◌≡◌, ◌+◌, ◌-◌, ℕ, IsNone, IfSome, length};
ghost use Rattle.ftc_journal.specs.declared.event.Event.TheVariants as event;
ghost use Rattle.ftc_protocol.specs.Setting.{Setting, servers};
ghost use Rattle.ftc_protocol.specs.State.{ChainState};
ghost use Rattle.ftc_protocol.specs.Drive.{IsNoneDue};
ghost use Rattle.ftc_protocol.specs.Next.{next};
ghost use Rattle.ftc_protocol.specs.Run.{IsRunState};
ghost use Rattle.ftc_network.specs.Parts.{buffer_of, withheld_in};
ghost use Rattle.ftc_network.specs.Slots.{head_of, AreSameHeads};
ghost use Rattle.ftc_network.specs.Stand.{IsSlot, IsNetwork};
ghost use Rattle.ftc_network.specs.Released.{IsReleased};

use crate::laws::{servers_beside, slots_stay_ready};
use crate::network::Network;
use ftc_edge::{Freed, released_packets};
use ftc_protocol::order_of_a_state;
use ftc_refinement::{what_is_due, what_release_does, what_stays};
use ftc_server::Server;
use ftc_standing::links_stand_still;
use ftc_visits::made_visits_stay;

/// The first packet that is due leaves the last server.
fn release_at(slot: &mut Option<Server>) -> Option<Freed>
    ensures none { IsNone result → (setting : Setting) (state : ChainState) (server : ℕ) → IsRunState setting state →
        server + 1 ≡ servers setting → IsSlot setting state server slot.old →
        IsNoneDue setting state × IsSlot setting state server slot.new }
    ensures some { IfSome result (λ freed. (setting : Setting) (state : ChainState) (server : ℕ) →
        IsRunState setting state → server + 1 ≡ servers setting → IsSlot setting state server slot.old →
        IsReleased setting state freed
        × IsSlot setting (next setting state (event.Release freed.packet)) server slot.new) }
    ensures fewer { IfSome result (λ freed. length (buffer_of slot.new) + 1 ≡ length (buffer_of slot.old)) }
    ensures heads { head_of slot.new ≡ head_of slot.old }
{
    order_of_a_state();
    released_packets();
    what_is_due();
    what_release_does();
    what_stays();
    slots_stay_ready();
    match slot {
        Some(server) => server.release(),
        None => None,
    }
}

impl Network {
    /// The first packet that is due leaves the last server. None where none is due.
    pub fn release(&mut self) -> Option<Freed>
        ensures none { IsNone result → (setting : Setting) (state : ChainState) → IsRunState setting state →
            IsNetwork setting state self.old → IsNoneDue setting state × IsNetwork setting state self.new }
        ensures some { IfSome result (λ freed. (setting : Setting) (state : ChainState) → IsRunState setting state →
            IsNetwork setting state self.old → IsReleased setting state freed
            × IsNetwork setting (next setting state (event.Release freed.packet)) self.new) }
        ensures fewer { IfSome result (λ freed. withheld_in self.new + 1 ≡ withheld_in self.old) }
        ensures heads { AreSameHeads self.old self.new }
    {
        servers_beside();
        links_stand_still();
        made_visits_stay();
        let _ = self.ring.servers();
        let last = self.servers.len() - 1;
        release_at(&mut self.servers[last])
    }

    /// How many packets are withheld.
    pub fn withheld(&self) -> usize
        ensures { result ≡ withheld_in self.now }
    {
        let _ = self.ring.servers();
        let last = self.servers.len() - 1;
        match &self.servers[last] {
            Some(server) => server.withheld(),
            None => 0,
        }
    }
}
