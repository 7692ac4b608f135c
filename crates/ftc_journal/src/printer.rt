//! The text of a journal.

ghost use Rattle.std.specs.Prelude.{◌≡◌, ◌++◌, OnOk, OnErr, IfOk};
ghost use Rattle.ftc_journal.specs.Text.{line_of, spelling};

use crate::event::Event;
use crate::journal::Journal;
use crate::line::append_words;
use ftc_base::{Bytes, NoMemory};
use std::alloc::Global;

/// Adds the line of an event.
fn append_line(event: &Event, out: &mut Bytes) -> Result<(), NoMemory>
    ensures { OnOk result (out.new ≡ out.old ++ line_of event.now) }
{
    append_words(event, out)?;
    out.append(b"\n")
}

/// The text of a journal: the header line `ftc-journal 2`, and a line for each event. Each line ends
/// with a line feed, and one space stands between words.
pub fn print(alloc: Global, journal: &Journal) -> Result<Bytes, NoMemory>
    ensures { IfOk result (λ text. text ≡ spelling journal.now.items) }
{
    let mut out = Bytes::new(alloc);
    out.append(b"ftc-journal 2\n")?;
    for event in journal.as_slice() {
        append_line(event, &mut out)?;
    }
    Ok(out)
}
