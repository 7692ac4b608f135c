//! Which job a worker does next.

ghost use Rattle.std.specs.Prelude.{◌≡◌};
ghost use Rattle.ftc_chain.specs.Slots.{is_running_at};
ghost use Rattle.ftc_workers.specs.Choices.{is_run, IsChoice, IsOther};

use ftc_chain::Chain;
use ftc_journal::Job;

/// While fewer messages are held or queued, a packet is let in beside other work.
const MOST_UNDER_WAY: u64 = 256;

/// What a worker does next.
#[derive(Clone, Copy, Debug, PartialEq, Eq)]
pub enum Choice {
    /// This job.
    Do(Job),
    /// Nothing now: what could be done is visits, or nothing until other workers have done theirs.
    Wait,
    /// Nothing more: the run is finished.
    Finished,
}

/// Whether a job is an enter.
fn is_enter(job: &Job) -> bool {
    match job {
        Job::Enter { .. } => true,
        _ => false,
    }
}

/// A visit that no slot runs.
pub fn choose_visit(chain: &Chain<'_>) -> Choice
    ensures { IsChoice chain.now result }
{
    match chain.free_visit() {
        Some(job) => Choice::Do(job),
        None => Choice::Wait,
    }
}

/// Whether a packet is let in: few messages are under way, and no visit waits for a worker, as may be known before; or
/// no other job is legal, so that its enter is the first.
fn lets_in(chain: &Chain<'_>, enter: &Job, none_waits: bool) -> bool {
    let few = chain.messages() < MOST_UNDER_WAY;
    few && (none_waits || chain.free_visit().is_none()) || chain.next() == Some(*enter)
}

/// A job that is no visit.
pub fn choose_other(chain: &Chain<'_>, none_waits: bool) -> Choice
    ensures may { IsChoice chain.now result }
    ensures other { IsOther result }
{
    match chain.other_job() {
        Some(job) => {
            if is_enter(&job) && !lets_in(chain, &job, none_waits) {
                return Choice::Wait;
            }
            Choice::Do(job)
        }
        None => {
            if chain.finished() {
                return Choice::Finished;
            }
            Choice::Wait
        }
    }
}

/// A visit that no slot runs, or else another job.
fn choose_beside(chain: &Chain<'_>) -> Choice
    ensures { IsChoice chain.now result }
{
    match choose_visit(chain) {
        Choice::Do(job) => Choice::Do(job),
        _ => choose_other(chain, true),
    }
}

/// Whether a job is a visit that some slot runs.
fn is_run(chain: &Chain<'_>, job: &Job) -> bool
    ensures { result ≡ is_run (is_running_at chain.now) job.now }
{
    match *job {
        Job::Visit { server, packet } => chain.is_running(server, packet),
        _ => false,
    }
}

/// The first job, where no slot runs it: it is found soonest. Where a slot runs the visit that it is, a job beside it.
pub fn choose(chain: &Chain<'_>) -> Choice
    ensures { IsChoice chain.now result }
{
    let Some(job) = chain.next() else {
        return Choice::Finished;
    };
    if is_run(chain, &job) {
        return choose_beside(chain);
    }
    Choice::Do(job)
}
