//! The work of held messages.

ghost use Rattle.std.specs.Prelude.{◌≡◌, ◌<◌, ◌&&◌, ℕ, Some, IsNone, IfSome};
ghost use Rattle.std.specs.List.{AllByRecursion};
ghost use Rattle.ftc_protocol.specs.Setting.{Setting};
ghost use Rattle.ftc_protocol.specs.State.{ChainState};
ghost use Rattle.ftc_protocol.specs.Legal.{is_sent};
ghost use Rattle.ftc_protocol.specs.Jobs.{IsWork, IsInTurn, IsNoPull, AreIdle};
ghost use Rattle.ftc_server.specs.declared.held.HeldMessage.{HeldMessage as AHeldMessage};
ghost use Rattle.ftc_server.specs.declared.server.Server.{Server as AServer};
ghost use Rattle.ftc_server.specs.declared.work.Work.TheVariants.{Send as ToSend};
ghost use Rattle.ftc_server.specs.Holding.{found};
ghost use Rattle.ftc_server.specs.Looks.{work_in};
ghost use Rattle.ftc_refinement.specs.Contents.{IsServerAt};
ghost use Rattle.ftc_jobs.specs.Rest.{IsAtRest};
ghost use Rattle.ftc_jobs.specs.Turn.{IsRising, IsIdleAt, IsFirstWork};

use crate::places::server_at;
use ftc_base::{PacketNo, ServerId};
use ftc_journal::Job;
use ftc_network::Network;
use ftc_refinement::{held_in_turn, what_work_is};
use ftc_ring::server_of;
use ftc_script::Script;
use ftc_server::{Server, Work};

/// Whether a link loses the message of that origin: a line of the script says so, and something would be sent.
pub fn is_lost(network: &Network, script: &Script, server: ServerId, origin: PacketNo) -> bool
    ensures { (setting : Setting) (state : ChainState) (packets : ℕ) →
        IsAtRest setting state script.now packets network.now →
        result ≡ is_sent setting server && setting.loses server origin }
{
    let sent = server.number() + 1 != network.ring.servers() || network.ring.failures() > 0;
    sent && script.loses(server, origin).is_some()
}

/// A held message leaves, and is lost where the script says so.
fn leave_job(network: &Network, script: &Script, server: ServerId, origin: PacketNo) -> Job
    ensures { (setting : Setting) (state : ChainState) (packets : ℕ) (old : AServer) →
        IsAtRest setting state script.now packets network.now → IsServerAt setting state server old →
        work_in old origin ≡ Some ToSend → IsWork setting state server origin result }
{
    what_work_is();
    if is_lost(network, script, server, origin) {
        Job::Lose { server, origin }
    } else {
        Job::Pass { server, origin }
    }
}

/// The job of a held message's work.
pub fn job_of_work(
    network: &Network,
    script: &Script,
    server: ServerId,
    origin: PacketNo,
    work: Work,
) -> Job
    ensures { (setting : Setting) (state : ChainState) (packets : ℕ) (held : AHeldMessage) (old : AServer) →
        IsAtRest setting state script.now packets network.now → IsServerAt setting state server old →
        found origin old.held.items ≡ Some held → IsRising held → work_in old origin ≡ Some work →
        IsWork setting state server origin result }
{
    what_work_is();
    match work {
        Work::Apply { group, packet } => Job::Apply {
            server,
            origin,
            group,
            packet,
        },
        Work::Visit => Job::Visit {
            server,
            packet: origin,
        },
        Work::Send => leave_job(network, script, server, origin),
        Work::Carry => Job::Carry { origin },
    }
}

/// The logs of each held message rise: the type of a server says so.
pub fn are_rising(_server: &Server)
    ensures { AllByRecursion IsRising _server.now.held.items }
{}

/// The job of the first message with work that a server holds, in the order of taking.
fn first_at(network: &Network, script: &Script, server: ServerId) -> Option<Job>
    requires { server < network.now.ring.servers }
    ensures some { IfSome result (λ job. (setting : Setting) (state : ChainState) (packets : ℕ) →
        IsAtRest setting state script.now packets network.now → IsFirstWork setting state server job) }
    ensures none { IsNone result → (setting : Setting) (state : ChainState) (packets : ℕ) →
        IsAtRest setting state script.now packets network.now → IsIdleAt setting state server }
{
    held_in_turn();
    what_work_is();
    let live = server_at(network, server)?;
    are_rising(live);
    let origin = live.first_work()?;
    let work = live.work_of(origin)?;
    Some(job_of_work(network, script, server, origin, work))
}

/// The job of the first held message that has work, by rising server and in the order of taking.
pub fn first_work(network: &Network, script: &Script) -> Option<Job>
    ensures some { IfSome result (λ job. (setting : Setting) (state : ChainState) (packets : ℕ) →
        IsAtRest setting state script.now packets network.now → IsNoPull setting state → IsInTurn setting state job) }
    ensures none { IsNone result → (setting : Setting) (state : ChainState) (packets : ℕ) →
        IsAtRest setting state script.now packets network.now → AreIdle setting state }
{
    held_in_turn();
    for number in 0..network.ring.servers() {
        if let Some(job) = first_at(network, script, server_of(number)) {
            return Some(job);
        }
    }
    None
}
