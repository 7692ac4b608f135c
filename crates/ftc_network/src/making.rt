//! A visit is made, and stands among those that were.

ghost use Rattle.std.specs.Prelude.{◌≡◌, ◌≢◌, ℕ, IfOk, OnOk, OnErr};
ghost use Rattle.ftc_journal.specs.declared.event.Event.TheVariants as event;
ghost use Rattle.ftc_network.specs.Events.{IsAllowed, IsAllowedAt, StandsStill, SlotStandsStill};
ghost use Rattle.ftc_network.specs.Parts.{buffer_of, server_in, withheld_in};
ghost use Rattle.ftc_network.specs.Slots.{head_of, head_at, IsIdleHead, RunNoMore};
ghost use Rattle.ftc_network.specs.Visiting.{FollowsVisit, SlotFollowsVisit};

use crate::laws::servers_beside;
use crate::network::Network;
use crate::places::place_of;
use crate::visiting::{quit_all, visit_whole};
use ftc_base::{NoMemory, PacketNo, ServerId, WorkerId};
use ftc_refinement::{what_a_commit_does, what_a_commit_wants, what_work_says, where_events_are};
use ftc_server::Server;
use ftc_standing::links_stand_still;
use ftc_visits::{MadeVisit, a_made_visit_is_added, made};

/// The middlebox of a server takes a packet. What its slots ran is given up first. The answer is the visit with what it
/// needs.
fn visit_at(
    slot: &mut Option<Server>,
    worker: WorkerId,
    server: ServerId,
    packet: PacketNo,
) -> Result<MadeVisit, NoMemory>
    requires { ∥ IsAllowedAt (event.Visit server packet worker) server slot.old ∥₁ }
    ensures ok { IfOk result (SlotFollowsVisit worker server packet slot.old slot.new) }
    ensures err { OnErr result (SlotStandsStill server slot.old slot.new) }
    ensures buffer { OnOk result (buffer_of slot.new ≡ buffer_of slot.old) }
    ensures idle { IsIdleHead (head_of slot.new) }
{
    where_events_are();
    what_work_says();
    what_a_commit_wants();
    what_a_commit_does();
    a_made_visit_is_added();
    match slot {
        Some(live) => {
            quit_all(live);
            let answers = visit_whole(live, worker, packet)?;
            Ok(made(
                &answers,
                live.partitions,
                live.id,
                packet,
                live.head.vector(),
            ))
        }
        None => unreachable!(),
    }
}

impl Network {
    /// The middlebox of a server takes a packet, in a worker's slot. What the server's slots ran is given up first.
    pub fn visit(
        &mut self,
        worker: WorkerId,
        server: ServerId,
        packet: PacketNo,
    ) -> Result<(), NoMemory>
        requires { ∥ IsAllowed (event.Visit server packet worker) self.old ∥₁ }
        ensures ok { OnOk result (FollowsVisit worker server packet self.old self.new) }
        ensures err { OnErr result (StandsStill self.old self.new) }
        ensures withheld { OnOk result (withheld_in self.new ≡ withheld_in self.old) }
        ensures idle { OnOk result (IsIdleHead (head_at self.new server)) }
        ensures fewer { RunNoMore (head_at self.old server) (head_at self.new server) }
        ensures others { (other : ℕ) → other ≢ server →
            server_in self.new.servers.items other ≡ server_in self.old.servers.items other }
    {
        where_events_are();
        servers_beside();
        links_stand_still();
        self.visits.reserve(1)?;
        let visit = visit_at(&mut self.servers[place_of(server)], worker, server, packet)?;
        self.visits.add(visit);
        Ok(())
    }
}
