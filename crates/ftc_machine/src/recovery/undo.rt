//! Which visits a recovery undoes.

ghost use Rattle.std.specs.Prelude.{ℕ, ◌≡◌, ◌<◌, ◌≤◌, filter, IfOk};
ghost use Rattle.ftc_base.specs.declared.limits.TheConstants.{MOST_SERVERS};
ghost use Rattle.ftc_vector.specs.Commits.{vector_of};
ghost use Rattle.ftc_journal.specs.declared.event.VisitName.{VisitName as AName};
ghost use Rattle.ftc_machine.specs.Represents.{Represents};
ghost use Rattle.ftc_protocol.specs.Recovery.{is_between, undone_visits};
ghost use Rattle.ftc_machine.specs.RecoveryEffect.{IsLawfulRun, kept_previous, kept_following, is_lacked};
ghost use Rattle.ftc_machine.specs.RecoveryEffect.{is_undone_alone, is_undone_kept};
ghost use Rattle.ftc_protocol.specs.Setting.{Setting};
ghost use Rattle.ftc_machine.specs.Slots.{has_such};
ghost use Rattle.ftc_protocol.specs.State.{ChainState};
ghost use Rattle.ftc_machine.specs.LegalityTests.{footprints_of, list_of};

use crate::recovery::distance::span;
use crate::state::MachineState;
use ftc_base::{NoMemory, PacketNo, ServerId};
use ftc_journal::{VisitName, VisitNames};
use ftc_ring::apart;
use std::alloc::Global;

impl MachineState {
    /// The nearest other live server before a server, or that server itself where there is none.
    pub fn previous_live(&self, server: ServerId) -> ServerId
        requires { server < self.now.ring.servers }
        ensures same { result ≡ kept_previous self.now server }
        ensures within { result < self.now.ring.servers }
    {
        match self.ring.live_before(server, self.down) {
            Some(previous) => previous,
            None => server,
        }
    }

    /// The nearest other live server after a server, or that server itself where there is none.
    pub fn following_live(&self, server: ServerId) -> ServerId
        requires { server < self.now.ring.servers }
        ensures same { result ≡ kept_following self.now server }
        ensures within { result < self.now.ring.servers }
    {
        match self.ring.live_after(server, self.down) {
            Some(following) => following,
            None => server,
        }
    }

    /// Whether a head lies strictly between two live servers. Where they are one, every other head does.
    fn is_between(&self, previous: ServerId, following: ServerId, head: ServerId) -> bool
        requires { previous < self.now.ring.servers }
        ensures { result ≡ is_between self.now.ring.servers previous following head }
    {
        let servers = self.ring.servers();
        let behind = apart(servers, previous, head);
        behind > 0 && behind < span(servers, previous, following)
    }

    /// Whether the visit touched something, and the server's list lacks it.
    fn is_lacked(&self, server: ServerId, name: &VisitName) -> bool
        requires { server < self.now.ring.servers }
        ensures { result ≡ has_such (is_lacked (vector_of (list_of self.now server) name.now.server))
            (footprints_of self.now name.now.server name.now.packet) }
    {
        let vector = self.lists[usize::from(server.number())].of(name.server);
        match self.footprint(name) {
            Some(footprint) => footprint.has_touched() && !footprint.is_had_by(vector),
            None => false,
        }
    }

    /// Whether a visit is undone by itself.
    fn is_undone_alone(
        &self,
        previous: ServerId,
        following: ServerId,
        packet: PacketNo,
        group: u8,
    ) -> bool
        requires previous { previous < self.now.ring.servers }
        requires following { following < self.now.ring.servers }
        requires group { group < MOST_SERVERS }
        ensures { result ≡ is_undone_alone self.now previous following packet group }
    {
        let server = ServerId::new(group).unwrap();
        self.is_between(previous, following, server)
            && self.is_lacked(following, &VisitName { server, packet })
    }

    /// Whether a visit is undone, with an earlier one of its packet or by itself.
    fn is_undone(&self, previous: ServerId, following: ServerId, name: &VisitName) -> bool
        requires previous { previous < self.now.ring.servers }
        requires following { following < self.now.ring.servers }
        ensures { result ≡ is_undone_kept self.now previous following name.now }
    {
        let count = name.server.number() + 1;
        (0..count).any(|group| self.is_undone_alone(previous, following, name.packet, group))
    }

    /// The visits that count and are undone where these are the live servers before and after.
    fn undone_between(
        &self,
        alloc: Global,
        previous: ServerId,
        following: ServerId,
    ) -> Result<VisitNames, NoMemory>
        requires previous { previous < self.now.ring.servers }
        requires following { following < self.now.ring.servers }
        ensures { IfOk result (λ undone. undone ≡ filter (is_undone_kept self.now previous following) self.now.order) }
    {
        let mut undone = VisitNames::new(alloc);
        for name in self.order.as_slice() {
            if self.is_undone(previous, following, name) {
                undone.push(*name)?;
            }
        }
        Ok(undone)
    }

    /// The visits that the recovery of a server undoes, in the order of their events.
    pub fn undone(&self, alloc: Global, server: ServerId) -> Result<VisitNames, NoMemory>
        requires { server < self.now.ring.servers }
        ensures { IfOk result (λ undone. (setting : Setting) (state : ChainState) → IsLawfulRun setting state
            → Represents setting state self.now → undone ≡ undone_visits setting state server) }
    {
        let previous = self.previous_live(server);
        let following = self.following_live(server);
        self.undone_between(alloc, previous, following)
    }
}
