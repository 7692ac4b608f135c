//! Whether the protocol allows an event, by what is kept.

ghost use Rattle.std.specs.Prelude.{◌≡◌, ◌<◌, ◌↔◌, true, IfOk, length};
ghost use Rattle.ftc_protocol.specs.Setting.{Setting};
ghost use Rattle.ftc_protocol.specs.State.{ChainState};
ghost use Rattle.ftc_protocol.specs.Legal.{IsLegal, is_release};
ghost use Rattle.ftc_protocol.specs.Recovery.{undone_visits};
ghost use Rattle.ftc_machine.specs.Represents.{AreInputs, RepresentsRun};
ghost use Rattle.ftc_machine.specs.Legality.{is_placed, is_in_order, may_happen};

pub mod due;
pub mod ending;
pub mod messages;
pub mod script_and_links;

use crate::state::MachineState;
use ftc_base::{NoMemory, ServerId};
use ftc_journal::{Event, VisitName};
use ftc_pcap::Packets;
use ftc_script::Script;
use std::alloc::Global;

/// Whether the event is a release.
fn is_release(event: &Event) -> bool
    ensures { result ≡ is_release event.now }
{
    match event {
        Event::Release { .. } => true,
        _ => false,
    }
}

/// Whether the event's server, or its link, is one of so many.
fn is_placed(servers: u8, event: &Event) -> bool
    ensures { result ≡ is_placed servers event.now }
{
    match event {
        Event::Take { link, .. } => link.number() < servers,
        Event::Apply { server, .. } => server.number() < servers,
        Event::Visit { server, .. } => server.number() < servers,
        Event::Pass { server, .. } => server.number() < servers,
        Event::Lose { server, .. } => server.number() < servers,
        Event::Crash { server } => server.number() < servers,
        Event::Recover { server, .. } => server.number() < servers,
        _ => true,
    }
}

impl MachineState {
    /// Whether the event is in order for its kind. Its server or link is one of the chain's.
    fn is_in_order(&self, script: &Script, count: u32, event: &Event) -> bool
        requires { is_placed self.now.ring.servers event.now ≡ true }
        ensures { result ≡ is_in_order self.now script.now count event.now }
    {
        match event {
            Event::Enter { packet } => self.may_enter(script, count, *packet),
            Event::Take { link, origin } => self.may_take(*link, *origin),
            Event::Apply {
                server,
                origin,
                group,
                packet,
            } => {
                let log = VisitName {
                    server: *group,
                    packet: *packet,
                };
                self.may_apply(*server, *origin, &log)
            }
            Event::Visit { server, packet, .. } => self.may_visit(*server, *packet),
            Event::Pass { server, origin } => self.may_pass(script, *server, *origin),
            Event::Lose { server, origin } => self.may_lose(script, *server, *origin),
            Event::Carry { origin } => self.may_carry(*origin),
            Event::Crash { server } => self.may_crash(script, *server),
            Event::Recover { server, .. } => self.may_recover(script, *server),
            Event::Pull { link } => self.may_pull(*link),
            Event::Propagate { origin } => self.may_propagate(count, *origin),
            Event::Release { packet } => self.may_release(*packet),
        }
    }

    /// Whether these are the visits that the recovery of a server undoes.
    fn are_undone(
        &self,
        alloc: Global,
        server: ServerId,
        visits: &[VisitName],
    ) -> Result<bool, NoMemory>
        requires { server < self.now.ring.servers }
        ensures { IfOk result (λ same. (setting : Setting) (state : ChainState) → RepresentsRun setting state self.now →
            (same ≡ true) ↔ (visits.now ≡ undone_visits setting state server)) }
    {
        let undone = self.undone(alloc, server)?;
        Ok(undone.as_slice() == visits)
    }

    /// Whether the event may happen where no release is due. Of a recovery, what it lists is left aside.
    fn may_happen(&self, script: &Script, count: u32, event: &Event) -> bool
        ensures { result ≡ may_happen self.now script.now count event.now }
    {
        is_placed(self.ring.servers(), event) && self.is_in_order(script, count, event)
    }

    /// Whether the protocol allows the event.
    pub fn is_legal(
        &self,
        alloc: Global,
        packets: &Packets,
        script: &Script,
        event: &Event,
    ) -> Result<bool, NoMemory>
        ensures legal { IfOk result (λ legal. (setting : Setting) (state : ChainState)
            → RepresentsRun setting state self.now →
            AreInputs setting script.now (length packets.now) → (legal ≡ true) ↔ IsLegal setting state event.now) }
        ensures tested { IfOk result (λ legal. legal ≡ true → may_happen self.now script.now
            (length packets.now) event.now ≡ true) }
    {
        if !is_release(event) && self.is_some_due() {
            return Ok(false);
        }
        if !self.may_happen(script, packets.len() as u32, event) {
            return Ok(false);
        }
        match event {
            Event::Recover { server, undone } => self.are_undone(alloc, *server, undone.as_slice()),
            _ => Ok(true),
        }
    }
}
