//! A server begins anew.

ghost use Rattle.std.specs.Prelude.{◌≡◌, ◌≢◌, ◌<◌, ◌≤◌, ℕ, true, length, Some, IfSome, IsNone, IfOk, OnOk, OnErr};
ghost use Rattle.ftc_protocol.specs.Drive.{IsNoneDue};
ghost use Rattle.ftc_protocol.specs.Legal.{IsNextLine};
ghost use Rattle.ftc_protocol.specs.Recovery.{undone_visits};
ghost use Rattle.ftc_protocol.specs.Run.{IsRunState};
ghost use Rattle.ftc_protocol.specs.Setting.{Setting, rule_at};
ghost use Rattle.ftc_protocol.specs.State.{ChainState};
ghost use Rattle.ftc_ring.specs.Live.{is_live, IsAlone};
ghost use Rattle.ftc_script.specs.declared.line.ScriptLine.TheVariants.{Recover};
ghost use Rattle.ftc_server.specs.declared.server.Server.{Server as AServer};
ghost use Rattle.ftc_network.specs.Events.{StandsStill};
ghost use Rattle.ftc_network.specs.Parts.{server_in, link_in, withheld_in};
ghost use Rattle.ftc_network.specs.Slots.{head_at, AreSameHeads, AreOtherHeads, IsIdleHead};
ghost use Rattle.ftc_network.specs.Recovering.{IsRecovering, HasRecovered, is_up, AreNear, emptied, with_gaps, cut_off};
ghost use Rattle.ftc_network.specs.Recovering.{may_drop, SlotHasDropped, AreReplaced};
ghost use Rattle.ftc_network.specs.Reviving.{IsAnew};
ghost use Rattle.ftc_network.specs.Stand.{IsNetwork};

use crate::laws::{servers_beside, slots_stay_ready};
use crate::network::Network;
use crate::places::place_of;
use crate::reviving::revived;
use ftc_base::{NoMemory, ServerId, ServerSet};
use ftc_journal::VisitNames;
use ftc_link::Link;
use ftc_mbox::Rule;
use ftc_protocol::order_of_a_state;
use ftc_refinement::{what_drop_unready_does, what_revive_makes, where_events_are};
use ftc_ring::{Ring, recoveries, the_live};
use ftc_server::Server;
use ftc_standing::a_server_is_replaced;
use ftc_visits::undone_visits_are_dropped;
use std::alloc::Global;

/// The two live servers next to one that is down.
#[derive(Clone, Copy)]
struct Neighbours {
    previous: ServerId,
    following: ServerId,
}

/// What is queued to a server goes away.
fn empty(links: &mut Vec<Link>, ring: &Ring, server: ServerId)
    requires server { server < ring.now.servers }
    requires size { length links.old.items ≡ ring.now.servers }
    ensures size { length links.new.items ≡ length links.old.items }
    ensures each { (link : ℕ) → link < ring.now.servers →
        link_in links.new.items link ≡ emptied ring.now.servers server link (link_in links.old.items link) }
{
    let before = ring.previous(server);
    links[place_of(before)].clear();
}

/// The links into a server and out of it get gaps.
fn set_gaps(links: &mut Vec<Link>, ring: &Ring, server: ServerId)
    requires server { server < ring.now.servers }
    requires size { length links.old.items ≡ ring.now.servers }
    ensures size { length links.new.items ≡ length links.old.items }
    ensures each { (link : ℕ) → link < ring.now.servers →
        link_in links.new.items link ≡ with_gaps ring.now.servers server link (link_in links.old.items link) }
{
    let before = ring.previous(server);
    links[place_of(server)].set_gap(true);
    links[place_of(before)].set_gap(true);
}

/// What is queued to the live server after goes away, and the links of both servers get gaps.
fn cut_off(links: &mut Vec<Link>, ring: &Ring, server: ServerId, following: ServerId)
    requires server { server < ring.now.servers }
    requires following { following < ring.now.servers }
    requires size { length links.old.items ≡ ring.now.servers }
    ensures size { length links.new.items ≡ length links.old.items }
    ensures each { (link : ℕ) → link < ring.now.servers →
        link_in links.new.items link
        ≡ cut_off ring.now.servers server following link (link_in links.old.items link) }
{
    empty(links, ring, following);
    set_gaps(links, ring, server);
    set_gaps(links, ring, following);
}

/// A server drops the messages that lack a log.
fn drop_unready_at(slot: &mut Option<Server>)
    requires { may_drop slot.old ≡ true }
    ensures { SlotHasDropped slot.old slot.new }
{
    match slot {
        Some(server) => server.drop_unready(),
        None => {}
    }
}

/// The new server takes its place, and the live server after it drops the messages that lack a log.
fn replace(servers: &mut Vec<Option<Server>>, server: ServerId, following: ServerId, new: Server)
    requires server { server < length servers.old.items }
    requires following { following < length servers.old.items }
    requires ready { may_drop (server_in servers.old.items following) ≡ true }
    ensures { AreReplaced servers.old.items servers.new.items server following new }
{
    drop_unready_at(&mut servers[place_of(following)]);
    servers[place_of(server)] = Some(new);
}

impl Network {
    /// The servers that are down.
    fn down(&self) -> ServerSet
        ensures { (number : ℕ) → number < self.now.ring.servers →
            is_live result number ≡ is_up self.now.servers.items number }
    {
        let mut down = ServerSet::new();
        for number in 0..self.ring.servers() {
            if self.servers[usize::from(number)].is_none() {
                down = down.with(number);
            }
        }
        down
    }

    /// The two live servers next to one that is down.
    fn neighbours(&self, server: ServerId) -> Option<Neighbours>
        requires { server < self.now.ring.servers }
        ensures some { IfSome result (λ near.
            AreNear self.now.ring.servers self.now.servers.items server near.previous near.following) }
        ensures none { IsNone result → IsAlone self.now.ring.servers (is_up self.now.servers.items) server }
    {
        let down = self.down();
        Some(Neighbours {
            previous: self.ring.live_before(server, down)?,
            following: self.ring.live_after(server, down)?,
        })
    }

    /// The server of a number that is up.
    fn live(&self, server: ServerId) -> &Server
        requires within { server < self.now.ring.servers }
        requires up { is_up self.now.servers.items server ≡ true }
        ensures { server_in self.now.servers.items server ≡ Some result.now }
    {
        match &self.servers[place_of(server)] {
            Some(server) => server,
            None => unreachable!(),
        }
    }

    /// The visits that the recovery of a server undoes, and the server that begins anew.
    fn replaced(
        &self,
        alloc: Global,
        server: ServerId,
        rule: &Rule,
        near: &Neighbours,
    ) -> Result<(VisitNames, Server), NoMemory>
        requires allowed { ∥ IsRecovering server rule.now self.now ∥₁ }
        requires near { AreNear self.now.ring.servers self.now.servers.items server near.now.previous
            near.now.following }
        ensures undone { IfOk result (λ made. (setting : Setting) (state : ChainState) → IsRunState setting state →
            IsNextLine state.lines (Recover state.entered server) → IsNetwork setting state self.now →
            made.0 ≡ undone_visits setting state server) }
        ensures new { IfOk result (λ made. (previous following : AServer) →
            server_in self.now.servers.items near.now.previous ≡ Some previous →
            server_in self.now.servers.items near.now.following ≡ Some following →
            IsAnew self.now.ring server rule.now self.now.partitions previous following made.1) }
    {
        order_of_a_state();
        the_live();
        let previous = self.live(near.previous);
        let following = self.live(near.following);
        let undone = self.visits.undone(alloc, near.previous, following)?;
        let new = revived(
            alloc,
            &self.ring,
            server,
            rule,
            self.partitions,
            previous,
            following,
        )?;
        Ok((undone, new))
    }

    /// A server that is down begins anew with what its two live neighbours have. The answer is the visits that this
    /// undoes.
    // A recovery is rare and needs a large frame, for which each event would pay where it is inlined.
    #[inline(never)]
    pub fn recover(
        &mut self,
        alloc: Global,
        server: ServerId,
        rule: &Rule,
    ) -> Result<VisitNames, NoMemory>
        requires allowed { ∥ IsRecovering server rule.now self.old ∥₁ }
        requires room { self.old.done < usize.MAX }
        ensures ok { IfOk result (λ undone. (setting : Setting) (state : ChainState) → IsRunState setting state →
            IsNoneDue setting state → IsNextLine state.lines (Recover state.entered server) →
            rule.now ≡ rule_at setting server → IsNetwork setting state self.old →
            HasRecovered setting state server undone self.new) }
        ensures err { OnErr result (StandsStill self.old self.new) }
        ensures withheld { OnOk result (withheld_in self.new ≤ withheld_in self.old) }
        ensures anew { OnOk result (IsIdleHead (head_at self.new server)) }
        ensures others { AreOtherHeads server self.old self.new }
        ensures heads { OnErr result (AreSameHeads self.old self.new) }
    {
        order_of_a_state();
        where_events_are();
        the_live();
        recoveries();
        what_revive_makes();
        what_drop_unready_does();
        a_server_is_replaced();
        servers_beside();
        slots_stay_ready();
        undone_visits_are_dropped();
        let Some(near) = self.neighbours(server) else {
            return Ok(VisitNames::new(alloc));
        };
        let (undone, new) = self.replaced(alloc, server, rule, &near)?;
        let following = near.following;
        replace(&mut self.servers, server, following, new);
        cut_off(&mut self.links, &self.ring, server, following);
        self.visits.drop_undone(&undone);
        self.done += 1;
        Ok(undone)
    }
}
