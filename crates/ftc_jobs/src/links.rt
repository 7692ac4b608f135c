//! Pulls and takes.

ghost use Rattle.std.specs.Prelude.{◌≡◌, ◌<◌, ◌↔◌, ℕ, true, Some, IsNone, IfSome};
ghost use Rattle.ftc_journal.specs.declared.job.Job.TheVariants as job;
ghost use Rattle.ftc_protocol.specs.Setting.{Setting};
ghost use Rattle.ftc_protocol.specs.State.{ChainState};
ghost use Rattle.ftc_protocol.specs.Jobs.{IsLegalJob, IsInTurn, IsNoPull, IsNoTake, AreIdle};
ghost use Rattle.ftc_network.specs.Stand.{IsNetwork};
ghost use Rattle.ftc_jobs.specs.Rest.{IsResting};
ghost use Rattle.ftc_jobs.specs.Beside.{IsOtherJob};

use crate::places::{link_at, server_at};
use ftc_base::{PacketNo, ServerId};
use ftc_journal::Job;
use ftc_network::Network;
use ftc_refinement::{what_a_link_offers, which_pulls};
use ftc_ring::server_of;

/// Whether a server is up.
fn is_up(network: &Network, server: ServerId) -> bool
    requires { server < network.now.ring.servers }
    ensures { (setting : Setting) (state : ChainState) → IsNetwork setting state network.now →
        result ≡ state.up server }
{
    server_at(network, server).is_some()
}

/// Whether the receiver of a link may pull.
pub fn may_pull(network: &Network, link: ServerId) -> bool
    requires { link < network.now.ring.servers }
    ensures { (setting : Setting) (state : ChainState) → IsResting setting state network.now →
        (result ≡ true) ↔ IsLegalJob setting state (job.Pull link) }
{
    which_pulls();
    let receiver = network.ring.next(link);
    is_up(network, link) && is_up(network, receiver) && link_at(network, link).gap()
}

/// The pull of the first link that may be made.
pub fn first_pull(network: &Network) -> Option<Job>
    ensures some { IfSome result (λ job. (setting : Setting) (state : ChainState) →
        IsResting setting state network.now →
        IsInTurn setting state job) }
    ensures other { IfSome result (λ job. (setting : Setting) (state : ChainState) →
        IsResting setting state network.now → IsOtherJob setting state job) }
    ensures none { IsNone result → (setting : Setting) (state : ChainState) → IsResting setting state network.now →
        IsNoPull setting state }
{
    which_pulls();
    for number in 0..network.ring.servers() {
        let link = server_of(number);
        if may_pull(network, link) {
            return Some(Job::Pull { link });
        }
    }
    None
}

/// The origin of the message that may be taken from a link.
pub fn oldest_at(network: &Network, link: ServerId) -> Option<PacketNo>
    requires { link < network.now.ring.servers }
    ensures { (setting : Setting) (state : ChainState) (origin : ℕ) → IsResting setting state network.now →
        (result ≡ Some origin) ↔ IsLegalJob setting state (job.Take link origin) }
{
    what_a_link_offers();
    link_at(network, link).oldest()
}

/// The take of the first link on which something is queued.
pub fn first_take(network: &Network) -> Option<Job>
    ensures some { IfSome result (λ job. (setting : Setting) (state : ChainState) →
        IsResting setting state network.now →
        IsNoPull setting state → AreIdle setting state → IsInTurn setting state job) }
    ensures other { IfSome result (λ job. (setting : Setting) (state : ChainState) →
        IsResting setting state network.now → IsOtherJob setting state job) }
    ensures none { IsNone result → (setting : Setting) (state : ChainState) → IsResting setting state network.now →
        IsNoTake setting state }
{
    what_a_link_offers();
    for number in 0..network.ring.servers() {
        let link = server_of(number);
        if let Some(origin) = oldest_at(network, link) {
            return Some(Job::Take { link, origin });
        }
    }
    None
}
