//! A copy of an event.

ghost use Rattle.std.specs.Prelude.{◌≡◌, IfOk};

use ftc_base::NoMemory;
use ftc_journal::Event;
use std::alloc::Global;

/// The same event once more.
pub fn copy_event(alloc: Global, event: &Event) -> Result<Event, NoMemory>
    ensures { IfOk result (λ copy. copy ≡ event.now) }
{
    Ok(match *event {
        Event::Enter { packet } => Event::Enter { packet },
        Event::Take { link, origin } => Event::Take { link, origin },
        Event::Apply {
            server,
            origin,
            group,
            packet,
        } => Event::Apply {
            server,
            origin,
            group,
            packet,
        },
        Event::Visit {
            server,
            packet,
            worker,
        } => Event::Visit {
            server,
            packet,
            worker,
        },
        Event::Pass { server, origin } => Event::Pass { server, origin },
        Event::Lose { server, origin } => Event::Lose { server, origin },
        Event::Carry { origin } => Event::Carry { origin },
        Event::Crash { server } => Event::Crash { server },
        Event::Recover { server, ref undone } => Event::Recover {
            server,
            undone: undone.copy(alloc)?,
        },
        Event::Pull { link } => Event::Pull { link },
        Event::Propagate { origin } => Event::Propagate { origin },
        Event::Release { packet } => Event::Release { packet },
    })
}
