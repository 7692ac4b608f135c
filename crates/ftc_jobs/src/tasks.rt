//! Whether a visit, a pass, a lose or a carry of a held message is legal.

ghost use Rattle.std.specs.Prelude.{◌≡◌, ◌↔◌, ℕ, true, Some};
ghost use Rattle.ftc_journal.specs.declared.job.Job.TheVariants as job;
ghost use Rattle.ftc_protocol.specs.Setting.{Setting};
ghost use Rattle.ftc_protocol.specs.State.{ChainState, Message as AMessage};
ghost use Rattle.ftc_protocol.specs.Legal.{MayLeave};
ghost use Rattle.ftc_protocol.specs.Jobs.{IsLegalJob};
ghost use Rattle.ftc_server.specs.declared.work.Work.TheVariants as kind;
ghost use Rattle.ftc_network.specs.declared.network.Network.{Network as ANetwork};
ghost use Rattle.ftc_network.specs.Parts.{server_in};
ghost use Rattle.ftc_jobs.specs.Rest.{IsResting, IsAtRest};
ghost use Rattle.ftc_jobs.specs.Works.{work_at};

use crate::places::server_at;
use crate::works::is_lost;
use ftc_base::{PacketNo, ServerId};
use ftc_network::Network;
use ftc_protocol::work as work_of_messages;
use ftc_refinement::{held_in_turn, what_is_ready, what_work_is, what_work_says};
use ftc_ring::server_of;
use ftc_script::Script;
use ftc_server::Work;

/// The work of a message that a server holds. None where it has none, isn't held, or the server is down.
fn work_at(network: &Network, server: ServerId, origin: PacketNo) -> Option<Work>
    ensures { result ≡ work_at (server_in network.now.servers.items server) origin }
{
    match server_at(network, server) {
        Some(live) => live.work_of(origin),
        None => None,
    }
}

/// Whether a packet is to be visited.
fn is_visit(work: Work) -> bool
    ensures { (result ≡ true) ↔ (work ≡ kind.Visit) }
{
    match work {
        Work::Visit => true,
        _ => false,
    }
}

/// Whether a message is to be sent.
fn is_send(work: Work) -> bool
    ensures { (result ≡ true) ↔ (work ≡ kind.Send) }
{
    match work {
        Work::Send => true,
        _ => false,
    }
}

/// Whether a message is to be carried.
fn is_carry(work: Work) -> bool
    ensures { (result ≡ true) ↔ (work ≡ kind.Carry) }
{
    match work {
        Work::Carry => true,
        _ => false,
    }
}

/// Which work of a message makes which job of it legal.
fn which_tasks()
    ensures visit { (setting : Setting) (state : ChainState) (network : ANetwork) (server packet : ℕ) →
        IsResting setting state network → (work_at (server_in network.servers.items server) packet ≡ Some kind.Visit)
        ↔ IsLegalJob setting state (job.Visit server packet) }
    ensures send { (setting : Setting) (state : ChainState) (network : ANetwork) (server origin : ℕ) →
        IsResting setting state network → (work_at (server_in network.servers.items server) origin ≡ Some kind.Send)
        ↔ ((message : AMessage) × MayLeave setting state server origin message) }
    ensures carry { (setting : Setting) (state : ChainState) (network : ANetwork) (origin : ℕ) →
        IsResting setting state network → (work_at (server_in network.servers.items 0) origin ≡ Some kind.Carry)
        ↔ IsLegalJob setting state (job.Carry origin) }
{
    held_in_turn();
    what_is_ready();
    what_work_is();
    what_work_says();
    work_of_messages();
}

/// Whether the packet of a message that a server holds may be visited there.
pub fn may_visit(network: &Network, server: ServerId, packet: PacketNo) -> bool
    ensures { (setting : Setting) (state : ChainState) → IsResting setting state network.now →
        (result ≡ true) ↔ IsLegalJob setting state (job.Visit server packet) }
{
    which_tasks();
    match work_at(network, server, packet) {
        Some(work) => is_visit(work),
        None => false,
    }
}

/// Whether a message that a server holds may leave it.
fn may_leave(network: &Network, server: ServerId, origin: PacketNo) -> bool
    ensures { (setting : Setting) (state : ChainState) → IsResting setting state network.now →
        (result ≡ true) ↔ ((message : AMessage) × MayLeave setting state server origin message) }
{
    which_tasks();
    match work_at(network, server, origin) {
        Some(work) => is_send(work),
        None => false,
    }
}

/// Whether a message that a server holds may be passed on.
pub fn may_pass(network: &Network, script: &Script, server: ServerId, origin: PacketNo) -> bool
    ensures { (setting : Setting) (state : ChainState) (packets : ℕ) →
        IsAtRest setting state script.now packets network.now →
        (result ≡ true) ↔ IsLegalJob setting state (job.Pass server origin) }
{
    may_leave(network, server, origin) && !is_lost(network, script, server, origin)
}

/// Whether the link loses a message that a server holds.
pub fn may_lose(network: &Network, script: &Script, server: ServerId, origin: PacketNo) -> bool
    ensures { (setting : Setting) (state : ChainState) (packets : ℕ) →
        IsAtRest setting state script.now packets network.now →
        (result ≡ true) ↔ IsLegalJob setting state (job.Lose server origin) }
{
    may_leave(network, server, origin) && is_lost(network, script, server, origin)
}

/// Whether a message that came by the ring link may be carried.
pub fn may_carry(network: &Network, origin: PacketNo) -> bool
    ensures { (setting : Setting) (state : ChainState) → IsResting setting state network.now →
        (result ≡ true) ↔ IsLegalJob setting state (job.Carry origin) }
{
    which_tasks();
    match work_at(network, server_of(0), origin) {
        Some(work) => is_carry(work),
        None => false,
    }
}
