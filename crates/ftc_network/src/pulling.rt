//! The receiver of a link pulls what it lacks from the sender.

ghost use Rattle.std.specs.Prelude.{◌≡◌, ◌<◌, ◌++◌, ◌==◌, ◌&&◌, ◌||◌, ℕ, not, length, OnOk, OnErr, IfOk};
ghost use Rattle.ftc_journal.specs.declared.event.Event.TheVariants as event;
ghost use Rattle.ftc_ring.specs.Ring.{tail_of};
ghost use Rattle.ftc_network.specs.Events.{IsAllowed, Follows, StandsStill, SlotStandsStill};
ghost use Rattle.ftc_network.specs.Parts.{buffer_of, link_in, withheld_in};
ghost use Rattle.ftc_network.specs.Slots.{head_of, AreSameHeads};
ghost use Rattle.ftc_network.specs.Pulling.{is_shared_by, lacking, new_of, news_of, news, is_gained, gains_some};
ghost use Rattle.ftc_network.specs.Pulling.{MayPullOne, MayPull, MayPullBetween, AreGains, IsOfLater, SlotHasInstalled};
ghost use Rattle.ftc_network.specs.Pulling.{marked};

use crate::laws::{servers_beside, slots_stay_ready};
use crate::network::Network;
use crate::places::place_of;
use ftc_base::{NoMemory, ServerId};
use ftc_link::Link;
use ftc_protocol::{losses, needs_of_packets, withheld_packets};
use ftc_recover::{fetch_one, in_turn, pull_one};
use ftc_refinement::{what_install_does, what_stays, where_events_are};
use ftc_ring::{Ring, ends};
use ftc_server::{GroupReplica, GroupReplicas, Server};
use ftc_standing::a_server_has_pulled;
use ftc_ties::{every_state_tied, trace_short};
use ftc_visits::made_visits_stay;
use std::alloc::Global;

/// What a receiver gets.
#[derive(Drop)]
struct Gains {
    replicas: GroupReplicas,
    /// It got a visit of a group whose last member it isn't.
    gained: bool,
}

/// Whether both ends of a link belong to a group, and the receiver isn't its head.
fn is_shared(ring: &Ring, group: ServerId, sender: ServerId, receiver: ServerId) -> bool
    requires group { group < ring.now.servers }
    requires sender { sender < ring.now.servers }
    requires receiver { receiver < ring.now.servers }
    ensures { result ≡ is_shared_by ring.now group sender receiver }
{
    ring.belongs(sender, group) && ring.belongs(receiver, group) && group != receiver
}

/// The receiver's replica of a group with the logs that it lacks and the sender keeps, and how many these are.
fn pulled_one(
    alloc: Global,
    group: ServerId,
    sender: &Server,
    receiver: &Server,
) -> Result<(GroupReplica, u64), NoMemory>
    requires { MayPullOne sender.now receiver.now group }
    ensures replica { IfOk result (λ got. got.0 ≡ new_of sender.now receiver.now group) }
    ensures count { IfOk result (λ got. got.1 ≡ length (lacking sender.now receiver.now group)) }
{
    let mut replica = fetch_one(
        alloc,
        receiver.store_of(group),
        receiver.vector_of(group),
        receiver.kept_of(group),
    )?;
    let count = pull_one(
        alloc,
        sender.vector_of(group),
        sender.kept_of(group),
        &mut replica,
    )?;
    Ok((GroupReplica { group, replica }, count))
}

/// Whether some visit is got of a group whose last member the receiver isn't.
fn is_gain(count: u64, ring: &Ring, group: ServerId, receiver: ServerId) -> bool
    requires { group < ring.now.servers }
    ensures { result ≡ (not (count == 0) && not (tail_of ring.now group == receiver)) }
{
    count != 0 && ring.tail(group) != receiver
}

/// What a receiver gets of one more group.
fn add_group(
    gains: &mut Gains,
    alloc: Global,
    ring: &Ring,
    group: ServerId,
    sender: &Server,
    receiver: &Server,
) -> Result<(), NoMemory>
    requires group { group < ring.now.servers }
    requires may { MayPull ring.now sender.now receiver.now }
    ensures replicas { OnOk result (gains.new.replicas
        ≡ gains.old.replicas ++ news_of ring.now sender.now receiver.now group) }
    ensures gained { OnOk result (gains.new.gained
        ≡ (gains.old.gained || is_gained ring.now sender.now receiver.now group)) }
{
    if is_shared(ring, group, sender.id, receiver.id) {
        let (one, count) = pulled_one(alloc, group, sender, receiver)?;
        let is_gain = is_gain(count, ring, group, receiver.id);
        gains.gained = gains.gained || is_gain;
        gains.replicas.push(one)?;
    }
    Ok(())
}

/// What a receiver gets of all groups that both ends share.
fn gains_of(
    alloc: Global,
    ring: &Ring,
    sender: &Server,
    receiver: &Server,
) -> Result<Gains, NoMemory>
    requires { MayPull ring.now sender.now receiver.now }
    ensures replicas { IfOk result (λ gains. gains.replicas ≡ news ring.now sender.now receiver.now) }
    ensures gained { IfOk result (λ gains. gains.gained ≡ gains_some ring.now sender.now receiver.now) }
{
    let mut gains = Gains {
        replicas: GroupReplicas::new(alloc),
        gained: false,
    };
    for number in 0..ring.servers() {
        let group = ServerId::new(number).unwrap();
        add_group(&mut gains, alloc, ring, group, sender, receiver)?;
    }
    Ok(gains)
}

/// What the receiver of a link gets.
fn gains_between(
    alloc: Global,
    ring: &Ring,
    sender: &Option<Server>,
    receiver: &Option<Server>,
) -> Result<Gains, NoMemory>
    requires { MayPullBetween ring.now sender.now receiver.now }
    ensures { IfOk result (λ gains. AreGains ring.now sender.now receiver.now gains.replicas gains.gained) }
{
    match (sender, receiver) {
        (Some(sender), Some(receiver)) => gains_of(alloc, ring, sender, receiver),
        _ => Ok(Gains {
            replicas: GroupReplicas::new(alloc),
            gained: false,
        }),
    }
}

/// A server puts in place what it pulled.
fn install_at(slot: &mut Option<Server>, replicas: GroupReplicas) -> Result<(), NoMemory>
    requires { IsOfLater slot.old replicas }
    ensures ok { OnOk result (SlotHasInstalled slot.old slot.new replicas) }
    ensures err { OnErr result ((number : ℕ) → SlotStandsStill number slot.old slot.new) }
    ensures withheld { OnOk result (buffer_of slot.new ≡ buffer_of slot.old) }
    ensures heads { head_of slot.new ≡ head_of slot.old }
{
    what_stays();
    match slot {
        Some(server) => server.install(replicas),
        None => Ok(()),
    }
}

/// A link that was pulled has no gap any more. That which leaves the receiver gets one, where the receiver gained
/// something.
fn mark_links(links: &mut Vec<Link>, link: ServerId, receiver: ServerId, gained: bool)
    requires link { link < length links.old.items }
    requires receiver { receiver < length links.old.items }
    ensures size { length links.new.items ≡ length links.old.items }
    ensures each { (number : ℕ) → link_in links.new.items number
        ≡ marked link receiver gained number (link_in links.old.items number) }
{
    links[place_of(link)].set_gap(false);
    if gained {
        links[place_of(receiver)].set_gap(true);
    }
}

impl Network {
    /// The receiver of a link pulls, which ends the link's gap. Where it got a visit of a group whose last member it
    /// isn't, the link that leaves it gets a gap.
    pub fn pull(&mut self, alloc: Global, link: ServerId) -> Result<(), NoMemory>
        requires { ∥ IsAllowed (event.Pull link) self.old ∥₁ }
        ensures ok { OnOk result (Follows (event.Pull link) self.old self.new) }
        ensures err { OnErr result (StandsStill self.old self.new) }
        ensures withheld { OnOk result (withheld_in self.new ≡ withheld_in self.old) }
        ensures heads { AreSameHeads self.old self.new }
    {
        every_state_tied();
        needs_of_packets();
        withheld_packets();
        losses();
        trace_short();
        in_turn();
        ends();
        where_events_are();
        servers_beside();
        slots_stay_ready();
        what_install_does();
        what_stays();
        a_server_has_pulled();
        made_visits_stay();
        let receiver = self.ring.next(link);
        let Gains { replicas, gained } = gains_between(
            alloc,
            &self.ring,
            &self.servers[place_of(link)],
            &self.servers[place_of(receiver)],
        )?;
        install_at(&mut self.servers[place_of(receiver)], replicas)?;
        mark_links(&mut self.links, link, receiver, gained);
        Ok(())
    }
}
