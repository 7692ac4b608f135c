//! The numbers of a journal's events.

ghost use Rattle.std.specs.Prelude.{◌≤◌, ◌<◌};
ghost use Rattle.std.specs.List.{AllByRecursion};
ghost use Rattle.ftc_base.specs.declared.limits.TheConstants.{MOST_SERVERS, MOST_SLOTS, MOST_NUMBER};
ghost use Rattle.ftc_journal.specs.declared.form.Version.TheVariants as version;
ghost use Rattle.ftc_journal.specs.Spelling.{IsEvent, IsVisitName};

use ftc_base::{PacketNo, ServerId, WorkerId};
use ftc_journal::{Event, Journal, VisitName};

/// The number of a packet or of a message is one of a text.
fn number_fits(number: PacketNo)
    ensures { number ≤ MOST_NUMBER }
{
    let _ = number;
}

/// So is that of a server, or of a link.
fn server_fits(server: ServerId)
    ensures { server < MOST_SERVERS }
{
    let _ = server.number();
}

/// So is that of a slot.
fn slot_fits(slot: WorkerId)
    ensures { slot < MOST_SLOTS }
{
    let _ = slot.number();
}

/// So are those of a visit's name.
fn name_fits(name: &VisitName)
    ensures { IsVisitName version.Second name.now }
{
    server_fits(name.server);
    number_fits(name.packet);
}

/// So are those of names.
fn names_fit(names: &[VisitName])
    ensures { AllByRecursion (IsVisitName version.Second) names.now }
{
    for name in names {
        name_fits(name);
    }
}

/// So are those of an event.
fn event_fits(event: &Event)
    ensures { IsEvent version.Second event.now }
{
    match event {
        Event::Enter { packet } | Event::Release { packet } => number_fits(*packet),
        Event::Carry { origin } | Event::Propagate { origin } => number_fits(*origin),
        Event::Crash { server } => server_fits(*server),
        Event::Pull { link } => server_fits(*link),
        Event::Take { link, origin } => {
            server_fits(*link);
            number_fits(*origin);
        }
        Event::Pass { server, origin } | Event::Lose { server, origin } => {
            server_fits(*server);
            number_fits(*origin);
        }
        Event::Apply {
            server,
            origin,
            group,
            packet,
        } => {
            server_fits(*server);
            number_fits(*origin);
            server_fits(*group);
            number_fits(*packet);
        }
        Event::Visit {
            server,
            packet,
            worker,
        } => {
            server_fits(*server);
            number_fits(*packet);
            slot_fits(*worker);
        }
        Event::Recover { server, undone } => {
            server_fits(*server);
            names_fit(undone.as_slice());
        }
    }
}

/// The numbers of a journal's events are those of a text, by the types of what they name.
pub fn numbers_fit(journal: &Journal)
    ensures { AllByRecursion (IsEvent version.Second) journal.now.items }
{
    for event in journal.as_slice() {
        event_fits(event);
    }
}
