//! The journal of a text.

ghost use Rattle.std.specs.Prelude.{◌≡◌, IfOk};
ghost use Rattle.ftc_base.specs.declared.refusal.Refuse.TheVariants as refuse;
ghost use Rattle.ftc_base.specs.Refused.{IsReading, IfBad};
ghost use Rattle.ftc_base.specs.Endpoint.{parts_of};
ghost use Rattle.ftc_journal.specs.Reading.{event_of, placed};
ghost use Rattle.ftc_journal.specs.Spelling.{IsSpelling};
ghost use Rattle.ftc_journal.specs.Faulty.{IsFirstFault};

use crate::event::Event;
use crate::fault::{JournalCause, JournalFault};
use crate::form::{Version, version_of};
use crate::journal::Journal;
use crate::parsing::event_of;
use ftc_base::{Refuse, split_part};
use std::alloc::Global;

/// A fault at that line.
fn fault_at(line: u64, cause: JournalCause) -> Refuse<JournalFault>
    ensures { result ≡ refuse.Bad (record { line = line; cause = cause }) }
{
    Refuse::Bad(JournalFault { line, cause })
}

/// The event of the line at that place.
fn event_at(
    alloc: Global,
    version: Version,
    place: u64,
    line: &[u8],
) -> Result<Event, Refuse<JournalFault>>
    ensures { IsReading result (placed place (event_of version (parts_of 32 line.now))) }
{
    match event_of(alloc, version, line) {
        Ok(event) => Ok(event),
        Err(Refuse::Bad(cause)) => Err(fault_at(place, cause)),
        Err(Refuse::NoMemory) => Err(Refuse::NoMemory),
    }
}

/// Reads a journal's text, of either version. The first faulty line wins, and in it a fault of its words before
/// one of a bound.
pub fn read(alloc: Global, text: &[u8]) -> Result<Journal, Refuse<JournalFault>>
    ensures ok { IfOk result (λ journal. IsSpelling journal.items text.now) }
    ensures bad { IfBad result (λ fault. IsFirstFault text.now fault) }
{
    let Some((header, lines)) = split_part(text, b'\n') else {
        return Err(fault_at(1, JournalCause::Header));
    };
    let Some(version) = version_of(header) else {
        return Err(fault_at(1, JournalCause::Header));
    };
    let mut journal = Journal::new(alloc);
    let mut place = 2u64;
    let mut rest = lines;
    while let Some((line, behind)) = split_part(rest, b'\n') {
        let event = event_at(alloc, version, place, line)?;
        journal.push(event)?;
        rest = behind;
        place += 1;
    }
    if rest.is_empty() {
        Ok(journal)
    } else {
        Err(fault_at(place, JournalCause::Cut))
    }
}
