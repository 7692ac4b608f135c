//! The script's next line, and packets that enter.

ghost use Rattle.std.specs.Prelude.{◌≡◌, ◌↔◌, ℕ, Some, IsNone, IfSome};
ghost use Rattle.ftc_journal.specs.declared.job.Job.TheVariants as job;
ghost use Rattle.ftc_protocol.specs.Setting.{Setting};
ghost use Rattle.ftc_protocol.specs.State.{ChainState};
ghost use Rattle.ftc_protocol.specs.Legal.{IsNextLine};
ghost use Rattle.ftc_protocol.specs.Jobs.{IsLegalJob, IsInTurn, IsNoPull, AreIdle, IsNoTake, IsNoLine, IsNoEnter};
ghost use Rattle.ftc_script.specs.declared.line.ScriptLine.{ScriptLine as ALine};
ghost use Rattle.ftc_script.specs.Steps.{at_of};
ghost use Rattle.ftc_jobs.specs.Rest.{IsAtRest};
ghost use Rattle.ftc_jobs.specs.Lines.{job_of_line};
ghost use Rattle.ftc_jobs.specs.Beside.{IsOtherJob};

use ftc_base::PacketNo;
use ftc_journal::Job;
use ftc_network::Network;
use ftc_script::{Script, ScriptLine};

/// The script's next line, where it is due.
pub fn next_line(network: &Network, script: &Script) -> Option<ScriptLine>
    ensures { (setting : Setting) (state : ChainState) (packets : ℕ) →
        IsAtRest setting state script.now packets network.now → (line : ALine) →
        (result ≡ Some line) ↔ (IsNextLine state.lines line × (at_of line ≡ state.entered)) }
{
    if network.done >= script.steps() {
        return None;
    }
    let line = script.step(network.done);
    if line.at() == network.entered {
        Some(line)
    } else {
        None
    }
}

/// The job of a line.
fn job_of_line(line: ScriptLine) -> Job
    ensures { result ≡ job_of_line line }
{
    match line {
        ScriptLine::Crash { server, .. } => Job::Crash { server },
        ScriptLine::Recover { server, .. } => Job::Recover { server },
    }
}

/// The job of the script's next line, where it is due.
pub fn first_line(network: &Network, script: &Script) -> Option<Job>
    ensures some { IfSome result (λ job. (setting : Setting) (state : ChainState) (packets : ℕ) →
        IsAtRest setting state script.now packets network.now → IsNoPull setting state → AreIdle setting state →
        IsNoTake setting state → IsInTurn setting state job) }
    ensures other { IfSome result (λ job. (setting : Setting) (state : ChainState) (packets : ℕ) →
        IsAtRest setting state script.now packets network.now → IsOtherJob setting state job) }
    ensures none { IsNone result → (setting : Setting) (state : ChainState) (packets : ℕ) →
        IsAtRest setting state script.now packets network.now → IsNoLine setting state }
{
    match next_line(network, script) {
        Some(line) => Some(job_of_line(line)),
        None => None,
    }
}

/// The packet that may enter, where no line is to be done before it.
pub fn entering(network: &Network, script: &Script, packets: u32) -> Option<PacketNo>
    ensures { (setting : Setting) (state : ChainState) → IsAtRest setting state script.now packets network.now →
        (packet : ℕ) → (result ≡ Some packet) ↔ IsLegalJob setting state (job.Enter packet) }
{
    if network.entered >= packets {
        return None;
    }
    match next_line(network, script) {
        Some(_) => None,
        None => Some(network.entered),
    }
}

/// The entering of the next packet, where it may enter.
pub fn first_enter(network: &Network, script: &Script, packets: u32) -> Option<Job>
    ensures some { IfSome result (λ job. (setting : Setting) (state : ChainState) →
        IsAtRest setting state script.now packets network.now → IsNoPull setting state → AreIdle setting state →
        IsNoTake setting state → IsNoLine setting state → IsInTurn setting state job) }
    ensures other { IfSome result (λ job. (setting : Setting) (state : ChainState) →
        IsAtRest setting state script.now packets network.now → IsOtherJob setting state job) }
    ensures none { IsNone result → (setting : Setting) (state : ChainState) →
        IsAtRest setting state script.now packets network.now → IsNoEnter setting state }
{
    match entering(network, script, packets) {
        Some(packet) => Some(Job::Enter { packet }),
        None => None,
    }
}
