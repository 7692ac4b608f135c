//! The event of a line.

ghost use Rattle.std.specs.Prelude.{◌≡◌};
ghost use Rattle.ftc_base.specs.Refused.{IsReading};
ghost use Rattle.ftc_base.specs.Endpoint.{parts_of};
ghost use Rattle.ftc_journal.specs.Reading.{single_in, double_event, single_of, double_of, visit_of, apply_of};
ghost use Rattle.ftc_journal.specs.Reading.{recovery, recover_of, said_in, event_of};

use crate::bounds::{number_in, server_in, slot_in, undone_in};
use crate::event::Event;
use crate::fault::JournalCause;
use crate::form::{Double, Form, Single, Version, form_of};
use crate::numerals::{NameFigures, figure_of, figures_of, names_of};
use ftc_base::{Items, PacketNo, Refuse, ServerId, split_part};
use std::alloc::Global;

fn single_in(version: Version, kind: Single, figure: Option<u32>) -> Result<Event, JournalCause>
    ensures { result ≡ single_in version kind figure }
{
    match kind {
        Single::Enter => Ok(Event::Enter {
            packet: number_in(figure)?,
        }),
        Single::Carry => Ok(Event::Carry {
            origin: number_in(figure)?,
        }),
        Single::Crash => Ok(Event::Crash {
            server: server_in(version, figure)?,
        }),
        Single::Pull => Ok(Event::Pull {
            link: server_in(version, figure)?,
        }),
        Single::Propagate => Ok(Event::Propagate {
            origin: number_in(figure)?,
        }),
        Single::Release => Ok(Event::Release {
            packet: number_in(figure)?,
        }),
    }
}

fn single_of(version: Version, kind: Single, figures: &[Option<u32>]) -> Result<Event, JournalCause>
    ensures { result ≡ single_of version kind figures.now }
{
    match figures {
        [figure] => single_in(version, kind, *figure),
        _ => Err(JournalCause::Word),
    }
}

fn double_event(kind: Double, server: ServerId, origin: PacketNo) -> Event
    ensures { result ≡ double_event kind server origin }
{
    match kind {
        Double::Take => Event::Take {
            link: server,
            origin,
        },
        Double::Pass => Event::Pass { server, origin },
        Double::Lose => Event::Lose { server, origin },
    }
}

fn double_of(version: Version, kind: Double, figures: &[Option<u32>]) -> Result<Event, JournalCause>
    ensures { result ≡ double_of version kind figures.now }
{
    match figures {
        [server, origin] => {
            let server = server_in(version, *server)?;
            let origin = number_in(*origin)?;
            Ok(double_event(kind, server, origin))
        }
        _ => Err(JournalCause::Word),
    }
}

fn visit_of(version: Version, figures: &[Option<u32>]) -> Result<Event, JournalCause>
    ensures { result ≡ visit_of version figures.now }
{
    match figures {
        [server, packet, worker] => {
            let server = server_in(version, *server)?;
            let packet = number_in(*packet)?;
            let worker = slot_in(*worker)?;
            Ok(Event::Visit {
                server,
                packet,
                worker,
            })
        }
        _ => Err(JournalCause::Word),
    }
}

fn apply_of(version: Version, figures: &[Option<u32>]) -> Result<Event, JournalCause>
    ensures { result ≡ apply_of version figures.now }
{
    match figures {
        [server, origin, group, packet] => {
            let server = server_in(version, *server)?;
            let origin = number_in(*origin)?;
            let group = server_in(version, *group)?;
            let packet = number_in(*packet)?;
            Ok(Event::Apply {
                server,
                origin,
                group,
                packet,
            })
        }
        _ => Err(JournalCause::Word),
    }
}

fn recovery(
    alloc: Global,
    version: Version,
    server: Option<u32>,
    names: &[NameFigures],
) -> Result<Event, Refuse<JournalCause>>
    ensures { IsReading result (recovery version server names.now) }
{
    let server = server_in(version, server)?;
    let undone = undone_in(alloc, version, names)?;
    Ok(Event::Recover { server, undone })
}

fn recover_of(alloc: Global, version: Version, words: &[u8]) -> Result<Event, Refuse<JournalCause>>
    ensures { IsReading result (recover_of version (parts_of 32 words.now)) }
{
    match split_part(words, b' ') {
        Some((word, behind)) => {
            let server = figure_of(word)?;
            let names = names_of(alloc, behind)?;
            recovery(alloc, version, server, names.as_slice())
        }
        None => {
            let server = figure_of(words)?;
            let names = Items::new(alloc);
            recovery(alloc, version, server, names.as_slice())
        }
    }
}

fn said_in(
    alloc: Global,
    version: Version,
    form: Form,
    words: &[u8],
) -> Result<Event, Refuse<JournalCause>>
    ensures { IsReading result (said_in version form (parts_of 32 words.now)) }
{
    match form {
        Form::Single(kind) => {
            let figures = figures_of(alloc, words)?;
            Ok(single_of(version, kind, figures.as_slice())?)
        }
        Form::Double(kind) => {
            let figures = figures_of(alloc, words)?;
            Ok(double_of(version, kind, figures.as_slice())?)
        }
        Form::Visit => {
            let figures = figures_of(alloc, words)?;
            Ok(visit_of(version, figures.as_slice())?)
        }
        Form::Apply => {
            let figures = figures_of(alloc, words)?;
            Ok(apply_of(version, figures.as_slice())?)
        }
        Form::Recover => recover_of(alloc, version, words),
    }
}

/// The event of a line, without its line feed.
pub fn event_of(alloc: Global, version: Version, line: &[u8]) -> Result<Event, Refuse<JournalCause>>
    ensures { IsReading result (event_of version (parts_of 32 line.now)) }
{
    let Some((first, words)) = split_part(line, b' ') else {
        return Err(Refuse::Bad(JournalCause::Word));
    };
    let Some(form) = form_of(first) else {
        return Err(Refuse::Bad(JournalCause::Word));
    };
    said_in(alloc, version, form, words)
}
