//! The chain of a text.

ghost use Rattle.std.specs.Prelude.{◌≡◌, Ok, Err, IfOk};
ghost use Rattle.ftc_base.specs.Refused.{IsReading, IfBad};
ghost use Rattle.ftc_conf.specs.Draft.{IsDraft};
ghost use Rattle.ftc_conf.specs.Grammar.{line_step, placed, chain_within, chain_of};

use crate::adding::{add, no_lines};
use crate::draft::Draft;
use crate::fault::ChainFault;
use crate::finish::{fault_at, finish};
use crate::limits::MOST_FAILURES;
use crate::lines::statement_of;
use ftc_base::{Refuse, split_line};
use ftc_mbox::ChainSpec;
use std::alloc::Global;

/// The draft with one more line, which stands at that place.
fn step(alloc: Global, draft: Draft, place: u64, line: &[u8]) -> Result<Draft, Refuse<ChainFault>>
    requires { IsDraft draft }
    ensures value { IsReading result (placed place (line_step draft place line.now)) }
    ensures bounds { IfOk result IsDraft }
{
    match statement_of(alloc, &draft, line) {
        Ok(statement) => Ok(add(alloc, draft, place, statement)?),
        Err(Refuse::Bad(cause)) => Err(fault_at(place, cause)),
        Err(Refuse::NoMemory) => Err(Refuse::NoMemory),
    }
}

/// Reads a chain text. The first faulty line wins, and in it the cause that is tested first.
pub fn read_chain(alloc: Global, text: &[u8]) -> Result<ChainSpec, Refuse<ChainFault>>
    ensures ok { IfOk result (λ spec. chain_of text.now ≡ Ok spec) }
    ensures bad { IfBad result (λ fault. chain_of text.now ≡ Err fault) }
{
    read_chain_within(alloc, text, MOST_FAILURES)
}

/// Reads a chain text as `read_chain` does, but refuses a chain of which more than `most` servers may
/// be down at once.
pub fn read_chain_within(
    alloc: Global,
    text: &[u8],
    most: u8,
) -> Result<ChainSpec, Refuse<ChainFault>>
    ensures ok { IfOk result (λ spec. chain_within most text.now ≡ Ok spec) }
    ensures bad { IfBad result (λ fault. chain_within most text.now ≡ Err fault) }
{
    let mut draft = no_lines(alloc);
    let mut place = 1u64;
    let mut rest = text;
    while let Some((line, behind)) = split_line(rest) {
        draft = step(alloc, draft, place, line)?;
        rest = behind;
        place += 1;
    }
    finish(most, draft, place)
}
