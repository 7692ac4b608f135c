//! The events of jobs.

ghost use Rattle.std.specs.Prelude.{◌≡◌, ℕ, false, IfSome, IsNone};
ghost use Rattle.ftc_journal.specs.declared.job.Job.TheVariants as job;
ghost use Rattle.ftc_protocol.specs.Jobs.{event_of};
ghost use Rattle.ftc_protocol.specs.Setting.{Setting};
ghost use Rattle.ftc_protocol.specs.State.{ChainState};
ghost use Rattle.ftc_chain.specs.Doing.{is_plain};

use ftc_journal::{Event, Job};

/// The event that does a job, where that takes neither a slot nor a list.
pub fn plain_event(job: &Job) -> Option<Event>
    ensures event { IfSome result (λ event. (setting : Setting) (state : ChainState) (slot : ℕ) →
        event ≡ event_of setting state slot job.now) }
    ensures none { IsNone result → is_plain job.now ≡ false }
{
    match *job {
        Job::Enter { packet } => Some(Event::Enter { packet }),
        Job::Take { link, origin } => Some(Event::Take { link, origin }),
        Job::Apply {
            server,
            origin,
            group,
            packet,
        } => Some(Event::Apply {
            server,
            origin,
            group,
            packet,
        }),
        Job::Pass { server, origin } => Some(Event::Pass { server, origin }),
        Job::Lose { server, origin } => Some(Event::Lose { server, origin }),
        Job::Carry { origin } => Some(Event::Carry { origin }),
        Job::Crash { server } => Some(Event::Crash { server }),
        Job::Pull { link } => Some(Event::Pull { link }),
        Job::Propagate { origin } => Some(Event::Propagate { origin }),
        Job::Visit { .. } | Job::Recover { .. } => None,
    }
}
