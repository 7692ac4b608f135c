//! A slot begins a visit.

ghost use Rattle.std.specs.Prelude.{◌≡◌, ◌≢◌, ℕ, true, false, None, IfSome, option_map};
ghost use Rattle.ftc_journal.specs.declared.event.Event.TheVariants as event;
ghost use Rattle.ftc_server.specs.Slots.{is_running};
ghost use Rattle.ftc_txn.specs.Head.{ages_left, next_age};
ghost use Rattle.ftc_txn.specs.Steps.{begins};
ghost use Rattle.ftc_network.specs.Events.{StandsStill, SlotStandsStill};
ghost use Rattle.ftc_network.specs.Parts.{server_in};
ghost use Rattle.ftc_network.specs.Slots.{head_of, head_at, runs_in, IsLegalIn, IsLegalAt};

use crate::network::Network;
use crate::places::place_of;
use ftc_base::{PacketNo, ServerId, WorkerId};
use ftc_refinement::{what_stays, what_work_says, where_events_are};
use ftc_server::Server;

/// A slot that is idle at a server begins the visit of a packet there, which no slot runs. The answer is its age.
fn begin_at(slot: &mut Option<Server>, worker: WorkerId, server: ServerId, packet: PacketNo) -> u64
    requires legal { ∥ IsLegalAt (event.Visit server packet worker) server slot.old ∥₁ }
    requires idle { runs_in (head_of slot.old) worker ≡ None }
    requires age { IfSome (head_of slot.old) (λ head. ages_left u64.MAX head ≡ true) }
    requires once { IfSome (head_of slot.old) (λ head. is_running head packet ≡ false) }
    ensures age { IfSome (head_of slot.old) (λ head. result ≡ next_age head) }
    ensures head { head_of slot.new ≡ option_map (λ head. begins head worker packet) (head_of slot.old) }
    ensures stands { (number : ℕ) → SlotStandsStill number slot.old slot.new }
{
    what_stays();
    what_work_says();
    let _ = worker.number();
    match slot {
        Some(live) => live.begin(worker, packet),
        None => 0,
    }
}

impl Network {
    /// A slot that is idle at a server begins the visit of a packet there, which no slot runs. The answer is its age.
    pub fn begin(&mut self, worker: WorkerId, server: ServerId, packet: PacketNo) -> u64
        requires legal { ∥ IsLegalIn (event.Visit server packet worker) self.old ∥₁ }
        requires idle { runs_in (head_at self.old server) worker ≡ None }
        requires age { IfSome (head_at self.old server) (λ head. ages_left u64.MAX head ≡ true) }
        requires once { IfSome (head_at self.old server) (λ head. is_running head packet ≡ false) }
        ensures age { IfSome (head_at self.old server) (λ head. result ≡ next_age head) }
        ensures head { head_at self.new server
            ≡ option_map (λ head. begins head worker packet) (head_at self.old server) }
        ensures others { (other : ℕ) → other ≢ server →
            server_in self.new.servers.items other ≡ server_in self.old.servers.items other }
        ensures stands { StandsStill self.old self.new }
    {
        where_events_are();
        begin_at(&mut self.servers[place_of(server)], worker, server, packet)
    }
}
