//! All legal jobs but the visits that slots run.

ghost use Rattle.std.specs.Prelude.{◌≡◌, ◌↔◌, ◌<◌, ◌++◌, ◌∷◌, [], ℕ, true, false, Some, None, OnOk, IfOk};
ghost use Rattle.std.specs.Prelude.{if◌then◌else◌};
ghost use Rattle.ftc_journal.specs.declared.job.Job.TheVariants as kind;
ghost use Rattle.ftc_message.specs.Logged.{logs_rise};
ghost use Rattle.ftc_protocol.specs.Setting.{Setting};
ghost use Rattle.ftc_protocol.specs.State.{ChainState};
ghost use Rattle.ftc_protocol.specs.Jobs.{IsLegalJob};
ghost use Rattle.ftc_server.specs.declared.server.Server.{Server as AServer};
ghost use Rattle.ftc_server.specs.Looks.{message_in};
ghost use Rattle.ftc_network.specs.Parts.{server_in};
ghost use Rattle.ftc_jobs.specs.Rest.{IsResting, IsAtRest};
ghost use Rattle.ftc_jobs.specs.All.{is_running_by, AreJobs, HasJobsOf, IsOfLink, IsOfLinks, IsOfLogs, IsOfMessage};
ghost use Rattle.ftc_jobs.specs.All.{IsOfMessages, IsOfServer, IsOfServers, IsEnter, IsPropagate};

use crate::applies::{may_apply, which_applies};
use crate::legal::{may_crash, may_recover};
use crate::lines::entering;
use crate::links::{may_pull, oldest_at};
use crate::places::server_at;
use crate::quiet::propagating;
use crate::tasks::{may_carry, may_lose, may_pass, may_visit};
use ftc_base::{Items, NoMemory, PacketNo, ServerId};
use ftc_journal::Job;
use ftc_message::{Log, Message};
use ftc_network::Network;
use ftc_protocol::order_of_a_state;
use ftc_refinement::{held_in_turn, what_a_link_offers, which_pulls};
use ftc_ring::server_of;
use ftc_script::Script;
use ftc_server::Server;
use std::alloc::Global;

/// Jobs in no order.
pub type Jobs = Items<Job>;

/// Adds a job, where it is legal.
fn add_if(jobs: &mut Jobs, legal: bool, job: Job) -> Result<(), NoMemory>
    ensures { OnOk result (jobs.new ≡ jobs.old ++ (if legal then job ∷ [] else [])) }
{
    if legal {
        jobs.push(job)?;
    }
    Ok(())
}

/// Adds the pull of a link and the take from it.
fn add_link(jobs: &mut Jobs, network: &Network, link: ServerId) -> Result<(), NoMemory>
    requires { link < network.now.ring.servers }
    ensures { OnOk result ((setting : Setting) (state : ChainState) → IsResting setting state network.now →
        HasJobsOf (IsOfLink link) (is_running_by network.now) setting state jobs.old jobs.new) }
{
    add_if(jobs, may_pull(network, link), Job::Pull { link })?;
    match oldest_at(network, link) {
        Some(origin) => jobs.push(Job::Take { link, origin }),
        None => Ok(()),
    }
}

/// Adds the pulls and takes of all links.
fn add_links(jobs: &mut Jobs, network: &Network) -> Result<(), NoMemory>
    ensures { OnOk result ((setting : Setting) (state : ChainState) → IsResting setting state network.now →
        HasJobsOf IsOfLinks (is_running_by network.now) setting state jobs.old jobs.new) }
{
    what_a_link_offers();
    which_pulls();
    for number in 0..network.ring.servers() {
        add_link(jobs, network, server_of(number))?;
    }
    Ok(())
}

/// Adds the applies of logs from a held message. The logs rise.
fn add_applies(
    jobs: &mut Jobs,
    network: &Network,
    server: ServerId,
    origin: PacketNo,
    logs: &[Log],
) -> Result<(), NoMemory>
    requires { logs_rise None logs.now ≡ true }
    ensures { OnOk result ((setting : Setting) (state : ChainState) → IsResting setting state network.now →
        HasJobsOf (IsOfLogs server origin logs.now) (is_running_by network.now) setting state jobs.old jobs.new) }
{
    for log in logs {
        let (group, packet) = (log.group(), log.origin());
        let legal = may_apply(network, server, origin, group, packet);
        let job = Job::Apply {
            server,
            origin,
            group,
            packet,
        };
        add_if(jobs, legal, job)?;
    }
    Ok(())
}

/// Whether a message may be carried by that server, which only the first one does.
fn may_carry_at(network: &Network, server: ServerId, origin: PacketNo) -> bool
    ensures { (setting : Setting) (state : ChainState) → IsResting setting state network.now →
        (result ≡ true) ↔ ((server ≡ 0) × IsLegalJob setting state (kind.Carry origin)) }
{
    if server.number() != 0 {
        return false;
    }
    may_carry(network, origin)
}

/// Whether a packet may be visited at that server, and no slot runs it there.
fn may_begin_visit(network: &Network, server: ServerId, packet: PacketNo) -> bool
    requires { server < network.now.ring.servers }
    ensures { (setting : Setting) (state : ChainState) → IsResting setting state network.now → (result ≡ true)
        ↔ (IsLegalJob setting state (kind.Visit server packet) × (is_running_by network.now server packet ≡ false)) }
{
    if network.is_running(server, packet) {
        return false;
    }
    may_visit(network, server, packet)
}

/// Adds what a server may do with a message that it holds.
fn add_message(
    jobs: &mut Jobs,
    network: &Network,
    script: &Script,
    server: ServerId,
    message: &Message,
) -> Result<(), NoMemory>
    requires { server < network.now.ring.servers }
    ensures { OnOk result ((setting : Setting) (state : ChainState) (packets : ℕ) (live : AServer) →
        IsAtRest setting state script.now packets network.now →
        server_in network.now.servers.items server ≡ Some live →
        message_in live message.now.origin ≡ Some message.now →
        HasJobsOf (IsOfMessage server message.now.origin) (is_running_by network.now) setting state jobs.old jobs.new) }
{
    which_applies();
    let origin = message.origin;
    let _ = message.logs.len();
    add_applies(jobs, network, server, origin, message.logs.as_slice())?;
    let visit = Job::Visit {
        server,
        packet: origin,
    };
    add_if(jobs, may_begin_visit(network, server, origin), visit)?;
    let pass = may_pass(network, script, server, origin);
    add_if(jobs, pass, Job::Pass { server, origin })?;
    let lose = may_lose(network, script, server, origin);
    add_if(jobs, lose, Job::Lose { server, origin })?;
    let carry = may_carry_at(network, server, origin);
    add_if(jobs, carry, Job::Carry { origin })
}

/// Adds what a server may do with the messages that it holds.
fn add_messages(
    jobs: &mut Jobs,
    network: &Network,
    script: &Script,
    server: ServerId,
    live: &Server,
) -> Result<(), NoMemory>
    requires { server < network.now.ring.servers }
    ensures { OnOk result ((setting : Setting) (state : ChainState) (packets : ℕ) →
        IsAtRest setting state script.now packets network.now →
        server_in network.now.servers.items server ≡ Some live.now →
        HasJobsOf (IsOfMessages server) (is_running_by network.now) setting state jobs.old jobs.new) }
{
    held_in_turn();
    for held in live.held.iter() {
        add_message(jobs, network, script, server, &held.message)?;
    }
    Ok(())
}

/// Adds what a server may do, its crash and its recovery.
fn add_server(
    jobs: &mut Jobs,
    network: &Network,
    script: &Script,
    server: ServerId,
) -> Result<(), NoMemory>
    requires { server < network.now.ring.servers }
    ensures { OnOk result ((setting : Setting) (state : ChainState) (packets : ℕ) →
        IsAtRest setting state script.now packets network.now →
        HasJobsOf (IsOfServer server) (is_running_by network.now) setting state jobs.old jobs.new) }
{
    held_in_turn();
    let crash = may_crash(network, script, server);
    add_if(jobs, crash, Job::Crash { server })?;
    let recover = may_recover(network, script, server);
    add_if(jobs, recover, Job::Recover { server })?;
    match server_at(network, server) {
        Some(live) => add_messages(jobs, network, script, server, live),
        None => Ok(()),
    }
}

/// Adds what all servers may do, their crashes and their recoveries.
fn add_servers(jobs: &mut Jobs, network: &Network, script: &Script) -> Result<(), NoMemory>
    ensures { OnOk result ((setting : Setting) (state : ChainState) (packets : ℕ) →
        IsAtRest setting state script.now packets network.now →
        HasJobsOf IsOfServers (is_running_by network.now) setting state jobs.old jobs.new) }
{
    held_in_turn();
    order_of_a_state();
    for number in 0..network.ring.servers() {
        add_server(jobs, network, script, server_of(number))?;
    }
    Ok(())
}

/// Adds the entering of the next packet.
fn add_enter(
    jobs: &mut Jobs,
    network: &Network,
    script: &Script,
    packets: u32,
) -> Result<(), NoMemory>
    ensures { OnOk result ((setting : Setting) (state : ChainState) →
        IsAtRest setting state script.now packets network.now →
        HasJobsOf IsEnter (is_running_by network.now) setting state jobs.old jobs.new) }
{
    match entering(network, script, packets) {
        Some(packet) => jobs.push(Job::Enter { packet }),
        None => Ok(()),
    }
}

/// Adds the beginning of a message without a packet.
fn add_propagate(
    jobs: &mut Jobs,
    network: &Network,
    script: &Script,
    packets: u32,
) -> Result<(), NoMemory>
    ensures { OnOk result ((setting : Setting) (state : ChainState) →
        IsAtRest setting state script.now packets network.now →
        HasJobsOf IsPropagate (is_running_by network.now) setting state jobs.old jobs.new) }
{
    match propagating(network, packets) {
        Some(origin) => jobs.push(Job::Propagate { origin }),
        None => Ok(()),
    }
}

/// All legal jobs but the visits that slots run, each once.
pub fn all_jobs(
    alloc: Global,
    network: &Network,
    script: &Script,
    packets: u32,
) -> Result<Jobs, NoMemory>
    ensures { IfOk result (λ jobs. (setting : Setting) (state : ChainState) →
        IsAtRest setting state script.now packets network.now →
        AreJobs (is_running_by network.now) setting state jobs) }
{
    let mut jobs = Jobs::new(alloc);
    add_links(&mut jobs, network)?;
    add_servers(&mut jobs, network, script)?;
    add_enter(&mut jobs, network, script, packets)?;
    add_propagate(&mut jobs, network, script, packets)?;
    Ok(jobs)
}
