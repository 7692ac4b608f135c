//! What one line says.

ghost use Rattle.std.specs.Prelude.{◌≡◌, ◌≤◌, ◌<◌, length, IfOk};
ghost use Rattle.ftc_base.specs.Text.{words_of};
ghost use Rattle.ftc_base.specs.declared.limits.TheConstants.{MOST_SERVERS, MOST_PARTITIONS, MOST_MONITOR_GROUPS};
ghost use Rattle.ftc_conf.specs.Forms.{failures_of, partitions_of, monitor_of};
ghost use Rattle.ftc_conf.specs.Draft.{servers, IsStatement, HasRoom};
ghost use Rattle.ftc_base.specs.Refused.{IsReading};
ghost use Rattle.ftc_conf.specs.Grammar.{said_in, middlebox_line, failures_line, partitions_line, statement_of};

use crate::balance::balance;
use crate::draft::Draft;
use crate::fault::ChainCause;
use crate::firewall::fire_line;
use crate::forms::{form_of, room_for};
use crate::limits::MOST_FAILURES;
use crate::nat::nat;
use crate::statement::{Form, Statement};
use crate::values::number_from_to;
use crate::words::{is_same, is_text, next_word, no_words};
use ftc_base::limits::{MOST_MONITOR_GROUPS, MOST_PARTITIONS};
use ftc_base::{Refuse, is_comment, split_word};
use ftc_mbox::Rule;
use std::alloc::Global;

fn failures(line: &[u8]) -> Result<u8, ChainCause>
    ensures { result ≡ failures_of (words_of line.now) }
{
    let (word, rest) = next_word(line)?;
    no_words(rest)?;
    let number = number_from_to(0, u32::from(MOST_FAILURES), word)?;
    Ok(number as u8)
}

fn partitions(line: &[u8]) -> Result<u8, ChainCause>
    ensures value { result ≡ partitions_of (words_of line.now) }
    ensures some { IfOk result (λ number. 1 ≤ number) }
    ensures most { IfOk result (λ number. number ≤ MOST_PARTITIONS) }
{
    let (word, rest) = next_word(line)?;
    no_words(rest)?;
    let number = number_from_to(1, u32::from(MOST_PARTITIONS), word)?;
    Ok(number as u8)
}

fn monitor(line: &[u8]) -> Result<u16, ChainCause>
    ensures value { result ≡ monitor_of (words_of line.now) }
    ensures some { IfOk result (λ groups. 1 ≤ groups) }
    ensures most { IfOk result (λ groups. groups ≤ MOST_MONITOR_GROUPS) }
{
    let (word, rest) = next_word(line)?;
    no_words(rest)?;
    let groups = number_from_to(1, u32::from(MOST_MONITOR_GROUPS), word)?;
    Ok(groups as u16)
}

/// What a line of that form says, by the words behind the first.
fn said_in(alloc: Global, form: Form, line: &[u8]) -> Result<Statement, Refuse<ChainCause>>
    ensures value { IsReading result (said_in form (words_of line.now)) }
    ensures bounds { IfOk result IsStatement }
{
    match form {
        Form::Pass => {
            no_words(line)?;
            Ok(Statement::Middlebox(Rule::Pass))
        }
        Form::Monitor => {
            let groups = monitor(line)?;
            Ok(Statement::Middlebox(Rule::Monitor { groups }))
        }
        Form::Nat => Ok(Statement::Middlebox(Rule::Nat(nat(line)?))),
        Form::Firewall => {
            no_words(line)?;
            Ok(Statement::Firewall)
        }
        Form::FireLine { allow } => Ok(Statement::FireLine(fire_line(allow, line)?)),
        Form::Balance => Ok(Statement::Middlebox(Rule::Balance(balance(alloc, line)?))),
        Form::Spare => {
            no_words(line)?;
            Ok(Statement::Spare)
        }
    }
}

fn failures_line(first: &[u8], line: &[u8]) -> Result<Statement, ChainCause>
    ensures { result ≡ failures_line first.now (words_of line.now) }
{
    if !is_same(first, b"f") {
        return Err(ChainCause::NoFailures);
    }
    Ok(Statement::Failures(failures(line)?))
}

fn partitions_line(first: &[u8], line: &[u8]) -> Result<Statement, ChainCause>
    ensures value { result ≡ partitions_line first.now (words_of line.now) }
    ensures bounds { IfOk result IsStatement }
{
    if !is_same(first, b"partitions") {
        return Err(ChainCause::NoPartitions);
    }
    Ok(Statement::Partitions(partitions(line)?))
}

/// What the words of a middlebox line say, of which `first` is the first.
fn middlebox_line(
    alloc: Global,
    draft: &Draft,
    first: &[u8],
    line: &[u8],
) -> Result<Statement, Refuse<ChainCause>>
    requires { length (servers draft.now) ≤ MOST_SERVERS }
    ensures value { IsReading result (middlebox_line draft.now first.now (words_of line.now)) }
    ensures bounds { IfOk result IsStatement }
    ensures room { IfOk result (HasRoom draft.now) }
{
    let form = form_of(draft, first)?;
    room_for(draft, form)?;
    said_in(alloc, form, line)
}

/// What the next line says.
pub fn statement_of(
    alloc: Global,
    draft: &Draft,
    line: &[u8],
) -> Result<Statement, Refuse<ChainCause>>
    requires { length (servers draft.now) ≤ MOST_SERVERS }
    ensures value { IsReading result (statement_of draft.now line.now) }
    ensures bounds { IfOk result IsStatement }
    ensures room { IfOk result (HasRoom draft.now) }
{
    let Some((first, words)) = split_word(line) else {
        return Ok(Statement::Nothing);
    };
    if is_comment(first) {
        return Ok(Statement::Nothing);
    }
    if !is_text(line) {
        return Err(Refuse::Bad(ChainCause::NotText));
    }
    if draft.failures.is_none() {
        return Ok(failures_line(first, words)?);
    }
    if draft.partitions.is_none() {
        return Ok(partitions_line(first, words)?);
    }
    middlebox_line(alloc, draft, first, words)
}
