//! Jobs beside what slots run: a visit that none runs, and a job that is no visit.

ghost use Rattle.std.specs.Prelude.{◌≡◌, ◌<◌, ℕ, Bool, true, false, Some, IsNone, IfSome};
ghost use Rattle.ftc_protocol.specs.Setting.{Setting};
ghost use Rattle.ftc_protocol.specs.State.{ChainState, Message};
ghost use Rattle.ftc_protocol.specs.Legal.{IsHeld};
ghost use Rattle.ftc_server.specs.declared.held.HeldMessage.{HeldMessage as AHeldMessage};
ghost use Rattle.ftc_server.specs.Holding.{found};
ghost use Rattle.ftc_refinement.specs.Contents.{IsServerAt};
ghost use Rattle.ftc_jobs.specs.All.{is_running_by, IsUntaken};
ghost use Rattle.ftc_jobs.specs.Beside.{is_sought, IsWanted, IsNoneWanted, IsOtherJob, IsUnwanted, IsNoneOutside};
ghost use Rattle.ftc_jobs.specs.Rest.{IsAtRest};
ghost use Rattle.ftc_jobs.specs.Turn.{IsRising};

use crate::lines::{first_enter, first_line};
use crate::links::{first_pull, first_take};
use crate::places::server_at;
use crate::quiet::first_propagate;
use crate::works::{are_rising, job_of_work};
use ftc_base::{PacketNo, ServerId};
use ftc_journal::Job;
use ftc_network::{Network, what_runs_may_be_visited};
use ftc_protocol::work as work_of_messages;
use ftc_refinement::{held_in_turn, what_work_is};
use ftc_ring::server_of;
use ftc_script::Script;
use ftc_server::Server;

/// Whether a job is wanted that is no visit that a slot runs: where visits are, each visit, and else what is no visit.
fn is_sought(visits: bool, job: &Job) -> bool
    ensures { (runs : ℕ → ℕ → Bool) → IsUntaken runs job.now → result ≡ is_sought visits runs job.now }
{
    match *job {
        Job::Visit { .. } => visits,
        _ => !visits,
    }
}

/// The job of a held message's work, where it is wanted. None at once where a slot runs the message's packet: its work
/// is that visit.
fn wanted_of(
    network: &Network,
    script: &Script,
    visits: bool,
    server: ServerId,
    live: &Server,
    origin: PacketNo,
) -> Option<Job>
    requires { server < network.now.ring.servers }
    ensures some { IfSome result (λ job. (setting : Setting) (state : ChainState) (packets : ℕ) (held : AHeldMessage) →
        IsAtRest setting state script.now packets network.now → IsServerAt setting state server live.now →
        found origin live.now.held.items ≡ Some held → IsRising held →
        IsWanted visits (is_running_by network.now) setting state job) }
    ensures none { IsNone result → (setting : Setting) (state : ChainState) (packets : ℕ) (held : AHeldMessage) →
        IsAtRest setting state script.now packets network.now → IsServerAt setting state server live.now →
        found origin live.now.held.items ≡ Some held → IsRising held →
        IsUnwanted visits (is_running_by network.now) setting state server origin }
{
    what_work_is();
    work_of_messages();
    what_runs_may_be_visited();
    if network.is_running(server, origin) {
        return None;
    }
    let work = live.work_of(origin)?;
    let job = job_of_work(network, script, server, origin, work);
    if is_sought(visits, &job) {
        Some(job)
    } else {
        None
    }
}

/// The first wanted job of the messages that a server holds, in the order of taking.
fn wanted_at(network: &Network, script: &Script, visits: bool, server: ServerId) -> Option<Job>
    requires { server < network.now.ring.servers }
    ensures some { IfSome result (λ job. (setting : Setting) (state : ChainState) (packets : ℕ) →
        IsAtRest setting state script.now packets network.now →
        IsWanted visits (is_running_by network.now) setting state job) }
    ensures none { IsNone result → (setting : Setting) (state : ChainState) (packets : ℕ) →
        IsAtRest setting state script.now packets network.now → (origin : ℕ) (message : Message) →
        IsHeld state server origin message →
        IsUnwanted visits (is_running_by network.now) setting state server origin }
{
    held_in_turn();
    let live = server_at(network, server)?;
    are_rising(live);
    for held in live.held.iter() {
        let wanted = wanted_of(network, script, visits, server, live, held.message.origin);
        if wanted.is_some() {
            return wanted;
        }
    }
    None
}

/// The first wanted job of held messages, by rising server and in the order of taking.
fn wanted_work(network: &Network, script: &Script, visits: bool) -> Option<Job>
    ensures some { IfSome result (λ job. (setting : Setting) (state : ChainState) (packets : ℕ) →
        IsAtRest setting state script.now packets network.now →
        IsWanted visits (is_running_by network.now) setting state job) }
    ensures none { IsNone result → (setting : Setting) (state : ChainState) (packets : ℕ) →
        IsAtRest setting state script.now packets network.now → (server origin : ℕ) (message : Message) →
        IsHeld state server origin message →
        IsUnwanted visits (is_running_by network.now) setting state server origin }
{
    held_in_turn();
    for number in 0..network.ring.servers() {
        let wanted = wanted_at(network, script, visits, server_of(number));
        if wanted.is_some() {
            return wanted;
        }
    }
    None
}

/// What comes from outside: the script's next line, a packet that enters, or a message that begins without one.
fn from_outside(network: &Network, script: &Script, packets: u32) -> Option<Job>
    ensures other { IfSome result (λ job. (setting : Setting) (state : ChainState) →
        IsAtRest setting state script.now packets network.now → IsOtherJob setting state job) }
    ensures none { IsNone result → (setting : Setting) (state : ChainState) →
        IsAtRest setting state script.now packets network.now → IsNoneOutside setting state }
{
    if let Some(job) = first_line(network, script) {
        return Some(job);
    }
    if let Some(job) = first_enter(network, script, packets) {
        return Some(job);
    }
    first_propagate(network, packets)
}

/// A legal visit that no slot runs.
pub fn free_visit(network: &Network, script: &Script) -> Option<Job>
    ensures some { IfSome result (λ job. (setting : Setting) (state : ChainState) (packets : ℕ) →
        IsAtRest setting state script.now packets network.now →
        IsWanted true (is_running_by network.now) setting state job) }
    ensures none { IsNone result → (setting : Setting) (state : ChainState) (packets : ℕ) →
        IsAtRest setting state script.now packets network.now →
        IsNoneWanted true (is_running_by network.now) setting state }
{
    work_of_messages();
    wanted_work(network, script, true)
}

/// A legal job that is no visit: pulls come first, then takes, then the work of held messages, then the script's next
/// line, then a packet that enters, then a message that begins without one.
pub fn other_job(network: &Network, script: &Script, packets: u32) -> Option<Job>
    ensures some { IfSome result (λ job. (setting : Setting) (state : ChainState) →
        IsAtRest setting state script.now packets network.now →
        IsWanted false (is_running_by network.now) setting state job) }
    ensures none { IsNone result → (setting : Setting) (state : ChainState) →
        IsAtRest setting state script.now packets network.now →
        IsNoneWanted false (is_running_by network.now) setting state }
{
    work_of_messages();
    if let Some(job) = first_pull(network) {
        return Some(job);
    }
    if let Some(job) = first_take(network) {
        return Some(job);
    }
    if let Some(job) = wanted_work(network, script, false) {
        return Some(job);
    }
    from_outside(network, script, packets)
}
