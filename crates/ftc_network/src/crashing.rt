//! A server stops.

ghost use Rattle.std.specs.Prelude.{◌≡◌, ◌<◌, ◌≤◌, None};
ghost use Rattle.ftc_journal.specs.declared.event.Event.TheVariants as event;
ghost use Rattle.ftc_network.specs.Events.{IsAllowed, Follows};
ghost use Rattle.ftc_network.specs.Parts.{withheld_in};
ghost use Rattle.ftc_network.specs.Slots.{head_at, AreOtherHeads};

use crate::laws::servers_beside;
use crate::network::Network;
use crate::places::place_of;
use ftc_base::ServerId;
use ftc_refinement::where_events_are;
use ftc_ring::steps;
use ftc_standing::{a_receiver_stops, links_stand_still};
use ftc_visits::made_visits_stay;

impl Network {
    /// All that a server has is gone, and what is queued to it.
    pub fn crash(&mut self, server: ServerId)
        requires allowed { ∥ IsAllowed (event.Crash server) self.old ∥₁ }
        requires room { self.old.done < usize.MAX }
        ensures follows { Follows (event.Crash server) self.old self.new }
        ensures withheld { withheld_in self.new ≤ withheld_in self.old }
        ensures down { head_at self.new server ≡ None }
        ensures others { AreOtherHeads server self.old self.new }
    {
        where_events_are();
        servers_beside();
        links_stand_still();
        made_visits_stay();
        a_receiver_stops();
        steps();
        let before = self.ring.previous(server);
        self.servers[place_of(server)] = None;
        self.links[place_of(before)].clear();
        self.done += 1;
    }
}
