//! Whether a job is legal.

ghost use Rattle.std.specs.Prelude.{◌≡◌, ◌↔◌, ℕ, true, Some};
ghost use Rattle.ftc_journal.specs.declared.job.Job.TheVariants as job;
ghost use Rattle.ftc_protocol.specs.Setting.{Setting};
ghost use Rattle.ftc_protocol.specs.State.{ChainState};
ghost use Rattle.ftc_protocol.specs.Jobs.{IsLegalJob};
ghost use Rattle.ftc_script.specs.declared.line.ScriptLine.TheVariants as said;
ghost use Rattle.ftc_script.specs.Script.{ScriptShape};
ghost use Rattle.ftc_jobs.specs.Rest.{IsResting, IsAtRest};

use crate::applies::may_apply;
use crate::lines::{entering, next_line};
use crate::links::{may_pull, oldest_at};
use crate::quiet::propagating;
use crate::tasks::{may_carry, may_lose, may_pass, may_visit};
use ftc_base::{PacketNo, ServerId};
use ftc_journal::Job;
use ftc_network::Network;
use ftc_refinement::{what_a_link_offers, which_pulls};
use ftc_script::{Script, ScriptLine};

/// Whether a packet may enter.
fn may_enter(network: &Network, script: &Script, packets: u32, packet: PacketNo) -> bool
    ensures { (setting : Setting) (state : ChainState) → IsAtRest setting state script.now packets network.now →
        (result ≡ true) ↔ IsLegalJob setting state (job.Enter packet) }
{
    match entering(network, script, packets) {
        Some(next) => next == packet,
        None => false,
    }
}

/// Whether a message may be taken from a link.
fn may_take(network: &Network, link: ServerId, origin: PacketNo) -> bool
    ensures { (setting : Setting) (state : ChainState) → IsResting setting state network.now →
        (result ≡ true) ↔ IsLegalJob setting state (job.Take link origin) }
{
    what_a_link_offers();
    if link.number() >= network.ring.servers() {
        return false;
    }
    match oldest_at(network, link) {
        Some(oldest) => oldest == origin,
        None => false,
    }
}

/// Whether a link may be pulled, which the chain need not have.
fn may_pull_any(network: &Network, link: ServerId) -> bool
    ensures { (setting : Setting) (state : ChainState) → IsResting setting state network.now →
        (result ≡ true) ↔ IsLegalJob setting state (job.Pull link) }
{
    which_pulls();
    link.number() < network.ring.servers() && may_pull(network, link)
}

/// Whether a line is the crash of that server.
fn is_crash(line: ScriptLine, server: ServerId) -> bool
    ensures { (result ≡ true) ↔ ((at : ℕ) × (line ≡ said.Crash at server)) }
{
    match line {
        ScriptLine::Crash { server: other, .. } => other == server,
        ScriptLine::Recover { .. } => false,
    }
}

/// Whether a line is the recovery of that server.
fn is_recover(line: ScriptLine, server: ServerId) -> bool
    ensures { (result ≡ true) ↔ ((at : ℕ) × (line ≡ said.Recover at server)) }
{
    match line {
        ScriptLine::Crash { .. } => false,
        ScriptLine::Recover { server: other, .. } => other == server,
    }
}

/// Whether the script's next line, where it is due, is the crash of that server.
pub fn may_crash(network: &Network, script: &Script, server: ServerId) -> bool
    ensures { (setting : Setting) (state : ChainState) (packets : ℕ) →
        IsAtRest setting state script.now packets network.now →
        (result ≡ true) ↔ IsLegalJob setting state (job.Crash server) }
{
    match next_line(network, script) {
        Some(line) => is_crash(line, server),
        None => false,
    }
}

/// Whether the script's next line, where it is due, is the recovery of that server.
pub fn may_recover(network: &Network, script: &Script, server: ServerId) -> bool
    ensures { (setting : Setting) (state : ChainState) (packets : ℕ) →
        IsAtRest setting state script.now packets network.now →
        (result ≡ true) ↔ IsLegalJob setting state (job.Recover server) }
{
    match next_line(network, script) {
        Some(line) => is_recover(line, server),
        None => false,
    }
}

/// Whether a message may begin without a packet.
fn may_propagate(network: &Network, packets: u32, origin: PacketNo) -> bool
    ensures { (setting : Setting) (state : ChainState) (script : ScriptShape) →
        IsAtRest setting state script packets network.now →
        (result ≡ true) ↔ IsLegalJob setting state (job.Propagate origin) }
{
    match propagating(network, packets) {
        Some(next) => next == origin,
        None => false,
    }
}

/// Whether a job is legal.
pub fn is_legal(network: &Network, script: &Script, packets: u32, job: &Job) -> bool
    ensures legal { (setting : Setting) (state : ChainState) → IsAtRest setting state script.now packets network.now →
        (result ≡ true) ↔ IsLegalJob setting state job.now }
{
    match *job {
        Job::Enter { packet } => may_enter(network, script, packets, packet),
        Job::Take { link, origin } => may_take(network, link, origin),
        Job::Apply {
            server,
            origin,
            group,
            packet,
        } => may_apply(network, server, origin, group, packet),
        Job::Visit { server, packet } => may_visit(network, server, packet),
        Job::Pass { server, origin } => may_pass(network, script, server, origin),
        Job::Lose { server, origin } => may_lose(network, script, server, origin),
        Job::Carry { origin } => may_carry(network, origin),
        Job::Crash { server } => may_crash(network, script, server),
        Job::Recover { server } => may_recover(network, script, server),
        Job::Pull { link } => may_pull_any(network, link),
        Job::Propagate { origin } => may_propagate(network, packets, origin),
    }
}
