//! Which visits a recovery undoes.

ghost use Rattle.std.specs.Prelude.{◌≡◌, ◌≤◌, ◌<◌, ◌+◌, ◌||◌, ℕ, true, false, length, drop, IfOk};
ghost use Rattle.std.specs.BTreeSet.{contains};
ghost use Rattle.std.specs.List.{list_all};
ghost use Rattle.std.specs.Ordering.{nat_cmp};
ghost use Rattle.std.specs.VecDeque.{deque_capacity};
ghost use Rattle.ftc_script.specs.declared.line.ScriptLine.TheVariants.{Recover};
ghost use Rattle.ftc_protocol.specs.Setting.{Setting};
ghost use Rattle.ftc_protocol.specs.State.{ChainState};
ghost use Rattle.ftc_protocol.specs.Legal.{IsNextLine};
ghost use Rattle.ftc_protocol.specs.Recovery.{previous_live, following_live, undone_visits};
ghost use Rattle.ftc_protocol.specs.Run.{IsRunState};
ghost use Rattle.ftc_refinement.specs.Contents.{IsServerAt};
ghost use Rattle.ftc_visits.specs.Made.{AreMade};
ghost use Rattle.ftc_visits.specs.Undoing.{is_between, is_reached, is_undone_alone, undone_from, is_of, is_first};
ghost use Rattle.ftc_visits.specs.Undoing.{without};

use crate::visit::{MadeVisit, Mark};
use crate::visits::MadeVisits;
use ftc_base::limits::MOST_PARTITIONS;
use ftc_base::{NoMemory, PacketNo, ServerId};
use ftc_journal::{VisitName, VisitNames};
use ftc_protocol::{order_of_a_state, what_is_undone};
use ftc_ring::{recoveries, the_live};
use ftc_server::Server;
use ftc_ties::{every_state_tied, what_vectors_say};
use ftc_vector::{Vector, order_tests};
use std::alloc::Global;
use std::collections::{BTreeSet, VecDeque};

/// Whether a server lies strictly between two others on the ring. Where they are one, every other does.
fn is_between(previous: ServerId, following: ServerId, server: ServerId) -> bool
    ensures { result ≡ is_between previous following server }
{
    let (first, last) = (previous.number(), following.number());
    let number = server.number();
    if first == last {
        number != first
    } else if first < last {
        first < number && number < last
    } else {
        first < number || number < last
    }
}

/// Whether the vector has reached the mark.
fn is_reached(vector: &Vector, mark: &Mark) -> bool
    ensures { result ≡ is_reached vector.now mark.now }
{
    mark.partition < MOST_PARTITIONS && mark.number <= vector.at(mark.partition)
}

/// Whether the vector has reached all marks.
fn are_reached(vector: &Vector, needed: &[Mark]) -> bool
    ensures { result ≡ list_all (is_reached vector.now) needed.now }
{
    needed.iter().all(|mark| is_reached(vector, mark))
}

/// Whether a visit is undone by itself: it read something, its head lies between, and the server after lacks it.
fn is_undone_alone(previous: ServerId, following: &Server, visit: &MadeVisit) -> bool
    ensures { result ≡ is_undone_alone previous following.now visit.now }
{
    !visit.needed.is_empty()
        && is_between(previous, following.id, visit.server)
        && !are_reached(following.vector_of(visit.server), visit.needed.as_slice())
}

/// Whether a visit is undone, by itself or with an earlier one of its packet, where these are the packets of which an
/// earlier visit is undone.
fn is_undone(
    packets: &BTreeSet<PacketNo>,
    previous: ServerId,
    following: &Server,
    visit: &MadeVisit,
) -> bool
    ensures { result
        ≡ (contains nat_cmp packets.now visit.now.packet || is_undone_alone previous following.now visit.now) }
{
    packets.contains(&visit.packet) || is_undone_alone(previous, following, visit)
}

/// Whether the name is that of the visit.
fn is_of(name: &VisitName, visit: &MadeVisit) -> bool
    ensures { result ≡ is_of name.now visit.now }
{
    name.server.number() == visit.server.number() && name.packet == visit.packet
}

/// Whether the first of the names from a place on is that of the visit.
fn is_next(names: &VisitNames, place: usize, visit: &MadeVisit) -> bool
    ensures first { result ≡ is_first (drop place names.now) visit.now }
    ensures within { result ≡ true → place < length names.now }
    ensures more { result ≡ true → place < usize.MAX }
{
    place < names.len() && is_of(names.at(place), visit)
}

/// Drops the visits of these names. Each visit is taken from the front, and put behind the others where it stays.
fn drop_named(visits: &mut VecDeque<MadeVisit>, names: &VisitNames)
    ensures items { visits.new.items ≡ without names.now visits.old.items }
    ensures capacity { deque_capacity visits.new ≡ deque_capacity visits.old }
{
    let mut next = 0;
    for place in 0..visits.len() {
        let Some(visit) = visits.pop_front() else {
            unreachable!()
        };
        if is_next(names, next, &visit) {
            next += 1;
        } else {
            visits.push_back_reserved(visit);
        }
    }
}

impl MadeVisits {
    /// The visits that a recovery undoes, in the order in which they were made, where these are the two live servers
    /// next to the one that is replaced: each that is undone by itself, and the later ones of its packet.
    fn undone_between(
        &self,
        alloc: Global,
        previous: ServerId,
        following: &Server,
    ) -> Result<VisitNames, NoMemory>
        ensures { IfOk result (λ names.
            names ≡ undone_from (is_undone_alone previous following.now) (λ packet. false) self.now.items) }
    {
        let mut names = VisitNames::new(alloc);
        let mut packets = BTreeSet::new(alloc);
        for place in 0..self.visits.len() {
            let visit = &self.visits[place];
            if is_undone(&packets, previous, following, visit) {
                packets.insert(visit.packet)?;
                names.push(VisitName {
                    server: visit.server,
                    packet: visit.packet,
                })?;
            }
        }
        Ok(names)
    }

    /// The visits that the recovery of a server undoes, in the order in which they were made, where these are the two
    /// live servers next to it.
    pub fn undone(
        &self,
        alloc: Global,
        previous: ServerId,
        following: &Server,
    ) -> Result<VisitNames, NoMemory>
        ensures { IfOk result (λ names. (setting : Setting) (state : ChainState) (server : ℕ) →
            IsRunState setting state → IsNextLine state.lines (Recover state.entered server) →
            previous ≡ previous_live setting state server →
            IsServerAt setting state (following_live setting state server) following.now →
            AreMade setting state self.now.items → names ≡ undone_visits setting state server) }
    {
        order_of_a_state();
        what_is_undone();
        every_state_tied();
        what_vectors_say();
        order_tests();
        the_live();
        recoveries();
        self.undone_between(alloc, previous, following)
    }

    /// Drops the visits of these names, which stand in the order of the visits. The others stay in their order.
    pub fn drop_undone(&mut self, names: &VisitNames)
        ensures items { self.new.items ≡ without names.now self.old.items }
        ensures spare { self.new.spare + length self.new.items ≡ self.old.spare + length self.old.items }
    {
        if !names.is_empty() {
            drop_named(&mut self.visits, names);
        }
    }
}
