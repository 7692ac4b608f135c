//! The message of a frame.

ghost use Rattle.std.specs.Prelude.{◌≡◌, IfOk};
ghost use Rattle.ftc_base.specs.Refused.{IsReading};
ghost use Rattle.ftc_message.specs.Spelling.{spelling};
ghost use Rattle.ftc_message.specs.WellFormed.{IsTyped, IsWellFormed};
ghost use Rattle.ftc_message.specs.Reading.{magic_at, packet_at, front_at, message_at, whole_of, message_of};
ghost use Rattle.ftc_message.specs.Front.{IsRest, IsFront};

use crate::commits_bytes::commits_at;
use crate::encoding::MAGIC;
use crate::fault::{FieldFault, FrameCause, FrameFault};
use crate::field::{fault_at, taken_at, within_at, word_at};
use crate::logs_bytes::logs_at;
use crate::message::Message;
use crate::need_bytes::needs_at;
use ftc_base::limits::{MOST_CAPTURED, MOST_SERVERS};
use ftc_base::{Bytes, PacketNo, Refuse};
use std::alloc::Global;

/// The bytes behind the magic.
#[tactic(auto, unfolding(crate::specs::Reading::magic_at))]
fn magic_at(bytes: &[u8]) -> Result<&[u8], FieldFault>
    ensures { IsRest result (magic_at bytes.now) }
{
    let (front, rest) = taken_at(4, bytes)?;
    if front != MAGIC.as_slice() {
        return Err(fault_at(bytes, FrameCause::Magic));
    }
    Ok(rest)
}

/// The packet, where there is one.
#[tactic(auto, unfolding(crate::specs::Reading::packet_at))]
fn packet_at(
    alloc: Global,
    is_there: bool,
    bytes: &[u8],
) -> Result<(Option<Bytes>, &[u8]), Refuse<FieldFault>>
    ensures { IsFront result (packet_at is_there bytes.now) }
{
    let (size, rest) = word_at(bytes)?;
    let most = if is_there { MOST_CAPTURED } else { 0 };
    if size as usize > most {
        return Err(Refuse::Bad(fault_at(bytes, FrameCause::Range)));
    }
    let (packet, rest) = taken_at(size as usize, rest)?;
    if !is_there {
        return Ok((None, rest));
    }
    let mut copy = Bytes::new(alloc);
    copy.append(packet)?;
    Ok((Some(copy), rest))
}

/// What stands before the logs: the origin and the packet.
#[tactic(auto, unfolding(crate::specs::Reading::front_at))]
fn front_at(
    alloc: Global,
    bytes: &[u8],
) -> Result<((PacketNo, Option<Bytes>), &[u8]), Refuse<FieldFault>>
    ensures { IsFront result (front_at bytes.now) }
{
    let rest = magic_at(bytes)?;
    let (kind, rest) = within_at(0, 1, rest)?;
    let (origin, rest) = word_at(rest)?;
    let (packet, rest) = packet_at(alloc, kind == 0, rest)?;
    Ok(((origin, packet), rest))
}

/// The message at the front, and the bytes behind it.
#[tactic(auto, unfolding(crate::specs::Reading::message_at))]
fn message_at(alloc: Global, bytes: &[u8]) -> Result<(Message, &[u8]), Refuse<FieldFault>>
    ensures { IsFront result (message_at bytes.now) }
{
    let ((origin, packet), rest) = front_at(alloc, bytes)?;
    let (logs, rest) = match logs_at(alloc, rest) {
        Ok(found) => found,
        Err(refused) => return Err(refused),
    };
    let most = if packet.is_some() { MOST_SERVERS } else { 0 };
    let (needs, rest) = match needs_at(alloc, most, 0, rest) {
        Ok(found) => found,
        Err(refused) => return Err(refused),
    };
    let (commits, rest) = match commits_at(alloc, rest) {
        Ok(found) => found,
        Err(refused) => return Err(refused),
    };
    let message = Message {
        origin,
        packet,
        logs,
        needs,
        commits,
    };
    Ok((message, rest))
}

/// The message of all bytes.
#[tactic(auto, unfolding(crate::specs::Reading::whole_of))]
fn whole_of(alloc: Global, frame: &[u8]) -> Result<Message, Refuse<FieldFault>>
    ensures { IsReading result (whole_of frame.now) }
{
    match message_at(alloc, frame) {
        Ok((message, rest)) => {
            if !rest.is_empty() {
                return Err(Refuse::Bad(fault_at(rest, FrameCause::Trailing)));
            }
            Ok(message)
        }
        Err(refused) => Err(refused),
    }
}

/// The message that a frame spells, or the frame's first fault.
pub fn decode(alloc: Global, frame: &[u8]) -> Result<Message, Refuse<FrameFault>>
    ensures told { IsReading result (message_of frame.now) }
    ensures spelled { IfOk result (λ message. frame.now ≡ spelling message) }
    ensures right { IfOk result IsWellFormed }
    ensures typed { IfOk result IsTyped }
{
    match whole_of(alloc, frame) {
        Ok(message) => Ok(message),
        Err(Refuse::Bad(fault)) => Err(Refuse::Bad(FrameFault {
            at: frame.len().saturating_sub(fault.left) as u64,
            cause: fault.cause,
        })),
        Err(Refuse::NoMemory) => Err(Refuse::NoMemory),
    }
}
