//! The script of a text.

ghost use Rattle.std.specs.Prelude.{◌≡◌, IfOk};
ghost use Rattle.ftc_base.specs.declared.refusal.Refuse.TheVariants as refuse;
ghost use Rattle.ftc_base.specs.Refused.{IsReading};
ghost use Rattle.ftc_ring.specs.Ring.{IsRing};
ghost use Rattle.ftc_script.specs.Script.{ScriptShape, IsScript};
ghost use Rattle.ftc_script.specs.Grammar.{line_step, placed, finish, script_of, IsDraft};

use crate::adding::add;
use crate::draft::Draft;
use crate::fault::{ScriptCause, ScriptFault};
use crate::script::Script;
use crate::words::statement_of;
use ftc_base::limits::MOST_SCRIPT_BYTES;
use ftc_base::{Refuse, split_line};
use ftc_ring::Ring;
use std::alloc::Global;

/// A fault at that line.
fn fault_at(line: u32, cause: ScriptCause) -> Refuse<ScriptFault>
    ensures { result ≡ refuse.Bad (record { line = line; cause = cause }) }
{
    Refuse::Bad(ScriptFault { line, cause })
}

/// The draft with one more line, which stands at that place.
fn step(
    ring: &Ring,
    packets: u32,
    draft: Draft,
    place: u32,
    line: &[u8],
) -> Result<Draft, Refuse<ScriptFault>>
    requires { IsDraft ring.now packets draft }
    ensures value { IsReading result (placed place (line_step ring.now packets draft place line.now)) }
    ensures bounds { IfOk result (IsDraft ring.now packets) }
{
    let statement = match statement_of(line) {
        Ok(statement) => statement,
        Err(cause) => return Err(fault_at(place, cause)),
    };
    match add(ring, packets, draft, place, statement) {
        Ok(next) => Ok(next),
        Err(Refuse::Bad(cause)) => Err(fault_at(place, cause)),
        Err(Refuse::NoMemory) => Err(Refuse::NoMemory),
    }
}

/// The script where no line is left, if it is one. The place is behind the last line.
fn finish(
    ring: &Ring,
    packets: u32,
    draft: Draft,
    place: u32,
) -> Result<Script, Refuse<ScriptFault>>
    requires { (script : ScriptShape) → IsRing ring.now → finish ring.now packets draft place ≡ Ok script →
        IsScript script }
    ensures { IsReading result (finish ring.now packets draft place) }
{
    match draft.first_down(ring.servers()) {
        Some(server) => Err(fault_at(place, ScriptCause::LeftDown { server })),
        None => {
            let (steps, loses) = draft.into_parts();
            Ok(Script::new(*ring, packets, steps, loses))
        }
    }
}

/// Reads a script for a ring and a count of packets. A text without lines is a script. The first faulty
/// line wins, and in it the cause that is tested first.
pub fn read_script(
    alloc: Global,
    text: &[u8],
    ring: &Ring,
    packets: u32,
) -> Result<Script, Refuse<ScriptFault>>
    ensures { IsReading result (script_of ring.now packets text.now) }
{
    if text.len() > MOST_SCRIPT_BYTES {
        return Err(fault_at(1, ScriptCause::TooLong));
    }
    let mut draft = Draft::new(alloc);
    let mut place = 1u32;
    let mut rest = text;
    while let Some((line, behind)) = split_line(rest) {
        draft = step(ring, packets, draft, place, line)?;
        rest = behind;
        place += 1;
    }
    finish(ring, packets, draft, place)
}
