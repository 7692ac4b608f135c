//! The bytes of a log.

ghost use Rattle.std.specs.Prelude.{◌≡◌, ◌++◌, true, length, Option, OnOk, OnErr, IfOk};
ghost use Rattle.ftc_message.specs.Logged.{log_follows};
ghost use Rattle.ftc_message.specs.Spelling.{log_bytes};
ghost use Rattle.ftc_message.specs.Reading.{head_at, log_at};
ghost use Rattle.ftc_message.specs.Front.{IsField};

use crate::bytes::append_word;
use crate::fault::{FieldFault, FrameCause};
use crate::field::{fault_at, group_at, word_at};
use crate::log::Log;
use crate::part_bytes::append_parts;
use crate::parts::{Parts, parts_at};
use crate::writes::{append_writes, writes_at};
use ftc_base::{Bytes, NoMemory, PacketNo, ServerId};

/// The origin and the group of a log.
pub type LogPlace = (PacketNo, ServerId);

/// Whether a log of that origin and group is greater than the one before it.
fn log_follows(last: &Option<LogPlace>, origin: PacketNo, group: ServerId) -> bool
    ensures { result ≡ log_follows last.now origin group }
{
    match last {
        None => true,
        Some((last_origin, last_group)) => {
            *last_origin < origin
                || (*last_origin == origin && last_group.number() < group.number())
        }
    }
}

/// The origin and the group of a log, which is greater than the last one.
#[tactic(auto, unfolding(crate::specs::Reading::head_at))]
fn head_at<'a>(last: &Option<LogPlace>, bytes: &'a [u8]) -> Result<(LogPlace, &'a [u8]), FieldFault>
    ensures { IsField result (head_at last.now bytes.now) }
{
    let (group, rest) = match group_at(bytes) {
        Ok(found) => found,
        Err(fault) => return Err(fault),
    };
    let (origin, rest) = word_at(rest)?;
    if !log_follows(last, origin, group) {
        return Err(fault_at(bytes, FrameCause::Order));
    }
    Ok(((origin, group), rest))
}

/// The log at the front, which is greater than the last one, and the bytes behind it.
#[tactic(auto, unfolding(crate::specs::Reading::log_at))]
pub fn log_at<'a>(last: &Option<LogPlace>, bytes: &'a [u8]) -> Result<(Log, &'a [u8]), FieldFault>
    ensures value { IsField result (log_at last.now bytes.now) }
    ensures spelled { IfOk result (λ found. bytes.now ≡ log_bytes found.0 ++ found.1.now) }
    ensures follows { IfOk result (λ found. log_follows last.now found.0.origin found.0.group ≡ true) }
{
    let ((origin, group), rest) = match head_at(last, bytes) {
        Ok(found) => found,
        Err(fault) => return Err(fault),
    };
    let mut parts = Parts::new();
    let rest = parts_at(rest, &mut parts)?;
    match writes_at(rest) {
        Ok((writes, rest)) => Ok((
            Log::new(group, origin, parts.before, parts.changed, writes),
            rest,
        )),
        Err(fault) => Err(fault),
    }
}

/// Adds a log's bytes at the end. Where memory is refused, some of them may have been added.
pub(crate) fn add_log(log: &Log, out: &mut Bytes) -> Result<(), NoMemory>
    ensures { OnOk result (out.new ≡ out.old ++ log_bytes log.now) }
{
    out.append(&[log.group().number()])?;
    append_word(log.origin(), out)?;
    append_parts(log.before(), log.changed(), out)?;
    append_writes(log.writes(), out)
}

/// Adds a log's bytes at the end.
pub fn append_log(log: &Log, out: &mut Bytes) -> Result<(), NoMemory>
    ensures ok { OnOk result (out.new ≡ out.old ++ log_bytes log.now) }
    ensures err { OnErr result (out.new ≡ out.old) }
{
    let mut piece = out.none_alike();
    add_log(log, &mut piece)?;
    out.append(piece.as_slice())
}
