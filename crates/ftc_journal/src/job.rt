//! What a chain may do next.

ghost use Rattle.std.specs.Prelude.{◌≡◌};
ghost use Rattle.ftc_journal.specs.Job.{job_of};

use crate::event::Event;
use ftc_base::{PacketNo, ServerId};

/// An event to come: without a release, which comes by itself, without the slot of a visit, and without
/// the list of a recovery.
#[derive(Clone, Copy, Debug, PartialEq, Eq)]
pub enum Job {
    Enter {
        packet: PacketNo,
    },
    Take {
        link: ServerId,
        origin: PacketNo,
    },
    Apply {
        server: ServerId,
        origin: PacketNo,
        group: ServerId,
        packet: PacketNo,
    },
    Visit {
        server: ServerId,
        packet: PacketNo,
    },
    Pass {
        server: ServerId,
        origin: PacketNo,
    },
    Lose {
        server: ServerId,
        origin: PacketNo,
    },
    Carry {
        origin: PacketNo,
    },
    Crash {
        server: ServerId,
    },
    Recover {
        server: ServerId,
    },
    Pull {
        link: ServerId,
    },
    Propagate {
        origin: PacketNo,
    },
}

/// The job that an event does. None for a release.
pub fn job_of(event: &Event) -> Option<Job>
    ensures { result ≡ job_of event.now }
{
    match event {
        Event::Enter { packet } => Some(Job::Enter { packet: *packet }),
        Event::Take { link, origin } => Some(Job::Take {
            link: *link,
            origin: *origin,
        }),
        Event::Apply {
            server,
            origin,
            group,
            packet,
        } => Some(Job::Apply {
            server: *server,
            origin: *origin,
            group: *group,
            packet: *packet,
        }),
        Event::Visit { server, packet, .. } => Some(Job::Visit {
            server: *server,
            packet: *packet,
        }),
        Event::Pass { server, origin } => Some(Job::Pass {
            server: *server,
            origin: *origin,
        }),
        Event::Lose { server, origin } => Some(Job::Lose {
            server: *server,
            origin: *origin,
        }),
        Event::Carry { origin } => Some(Job::Carry { origin: *origin }),
        Event::Crash { server } => Some(Job::Crash { server: *server }),
        Event::Recover { server, .. } => Some(Job::Recover { server: *server }),
        Event::Pull { link } => Some(Job::Pull { link: *link }),
        Event::Propagate { origin } => Some(Job::Propagate { origin: *origin }),
        Event::Release { .. } => None,
    }
}
