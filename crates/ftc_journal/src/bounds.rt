//! Numbers in their bounds.

ghost use Rattle.std.specs.Prelude.{◌≡◌};
ghost use Rattle.ftc_base.specs.Refused.{IsReading};
ghost use Rattle.ftc_journal.specs.Reading.{number_in, server_in, slot_in, name_in, undone_in};

use crate::event::{VisitName, VisitNames};
use crate::fault::JournalCause;
use crate::form::{Version, servers_of};
use crate::numerals::NameFigures;
use ftc_base::limits::MOST_SLOTS;
use ftc_base::{Refuse, ServerId, WorkerId};
use std::alloc::Global;

/// A packet or an origin.
pub fn number_in(figure: Option<u32>) -> Result<u32, JournalCause>
    ensures { result ≡ number_in figure }
{
    figure.ok_or(JournalCause::Range)
}

/// A server, a group or a link.
pub fn server_in(version: Version, figure: Option<u32>) -> Result<ServerId, JournalCause>
    ensures { result ≡ server_in version figure }
{
    let number = number_in(figure)?;
    if number >= u32::from(servers_of(version)) {
        return Err(JournalCause::Range);
    }
    match ServerId::new(number as u8) {
        Some(server) => Ok(server),
        None => unreachable!(),
    }
}

/// A worker's slot.
pub fn slot_in(figure: Option<u32>) -> Result<WorkerId, JournalCause>
    ensures { result ≡ slot_in figure }
{
    let number = number_in(figure)?;
    if number >= u32::from(MOST_SLOTS) {
        return Err(JournalCause::Range);
    }
    match WorkerId::new(number as u8) {
        Some(slot) => Ok(slot),
        None => unreachable!(),
    }
}

fn name_in(version: Version, name: NameFigures) -> Result<VisitName, JournalCause>
    ensures { result ≡ name_in version name }
{
    let server = server_in(version, name.server)?;
    let packet = number_in(name.packet)?;
    Ok(VisitName { server, packet })
}

/// The undone visits.
pub fn undone_in(
    alloc: Global,
    version: Version,
    names: &[NameFigures],
) -> Result<VisitNames, Refuse<JournalCause>>
    ensures { IsReading result (undone_in version names.now) }
{
    let mut undone = VisitNames::new(alloc);
    for name in names {
        let visit = name_in(version, *name)?;
        undone.push(visit)?;
    }
    Ok(undone)
}
