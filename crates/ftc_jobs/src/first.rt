//! The first job.

ghost use Rattle.std.specs.Prelude.{IsNone, IfSome};
ghost use Rattle.ftc_protocol.specs.Setting.{Setting};
ghost use Rattle.ftc_protocol.specs.State.{ChainState};
ghost use Rattle.ftc_protocol.specs.Run.{IsFinished};
ghost use Rattle.ftc_protocol.specs.Jobs.{IsFirstJob, IsInTurn, IsNoPull, AreIdle, IsNoTake, IsNoLine, IsNoEnter};
ghost use Rattle.ftc_jobs.specs.Rest.{IsAtRest};
ghost use Rattle.ftc_jobs.specs.Turn.{IsNothingLegal};

use crate::lines::{first_enter, first_line};
use crate::links::{first_pull, first_take};
use crate::quiet::first_propagate;
use crate::works::first_work;
use ftc_journal::Job;
use ftc_network::Network;
use ftc_protocol::first_job as order_of_jobs;
use ftc_script::Script;

/// The first job behind pulls and the work of held messages and takes: the script's next line, then a packet that
/// enters, then a message that begins without one.
fn first_outside(network: &Network, script: &Script, packets: u32) -> Option<Job>
    ensures some { IfSome result (λ job. (setting : Setting) (state : ChainState) →
        IsAtRest setting state script.now packets network.now → IsNoPull setting state → AreIdle setting state →
        IsNoTake setting state → IsInTurn setting state job) }
    ensures none { IsNone result → (setting : Setting) (state : ChainState) →
        IsAtRest setting state script.now packets network.now → IsNoPull setting state → AreIdle setting state →
        IsNoTake setting state → IsNothingLegal setting state }
{
    order_of_jobs();
    if let Some(job) = first_line(network, script) {
        return Some(job);
    }
    if let Some(job) = first_enter(network, script, packets) {
        return Some(job);
    }
    first_propagate(network, packets)
}

/// The first job behind pulls.
fn first_unpulled(network: &Network, script: &Script, packets: u32) -> Option<Job>
    ensures some { IfSome result (λ job. (setting : Setting) (state : ChainState) →
        IsAtRest setting state script.now packets network.now → IsNoPull setting state → IsInTurn setting state job) }
    ensures none { IsNone result → (setting : Setting) (state : ChainState) →
        IsAtRest setting state script.now packets network.now → IsNoPull setting state → IsNothingLegal setting state }
{
    if let Some(job) = first_work(network, script) {
        return Some(job);
    }
    if let Some(job) = first_take(network) {
        return Some(job);
    }
    first_outside(network, script, packets)
}

/// The job that is the first in its turn.
fn first_in_turn(network: &Network, script: &Script, packets: u32) -> Option<Job>
    ensures some { IfSome result (λ job. (setting : Setting) (state : ChainState) →
        IsAtRest setting state script.now packets network.now → IsInTurn setting state job) }
    ensures none { IsNone result → (setting : Setting) (state : ChainState) →
        IsAtRest setting state script.now packets network.now → IsNothingLegal setting state }
{
    if let Some(job) = first_pull(network) {
        return Some(job);
    }
    first_unpulled(network, script, packets)
}

/// The first legal job: pulls come first, then the work of held messages, then takes, then the script's next line, then
/// a packet that enters, then a message that begins without one. None where no job is legal, and the run is finished.
pub fn first_job(network: &Network, script: &Script, packets: u32) -> Option<Job>
    ensures first { IfSome result (λ job. (setting : Setting) (state : ChainState) →
        IsAtRest setting state script.now packets network.now → IsFirstJob setting state job) }
    ensures none { IsNone result → (setting : Setting) (state : ChainState) →
        IsAtRest setting state script.now packets network.now → IsFinished setting state }
{
    order_of_jobs();
    first_in_turn(network, script, packets)
}
