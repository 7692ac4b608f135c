//! Reading one field from the front of bytes: its value, and the bytes behind it.

ghost use Rattle.std.specs.Prelude.{◌≡◌, ◌≤◌, length, IfOk};
ghost use Rattle.ftc_message.specs.Fields.{byte_at, within_at, taken_at, integer_at, group_at};
ghost use Rattle.ftc_message.specs.Front.{IsField, IsTaken};

use crate::bytes::{number_of, word_of};
use crate::fault::{FieldFault, FrameCause};
use ftc_base::ServerId;

/// A fault of the field that stands at the front.
pub fn fault_at(bytes: &[u8], cause: FrameCause) -> FieldFault
    ensures { result ≡ record { left = length bytes.now; cause = cause } }
{
    FieldFault {
        left: bytes.len(),
        cause,
    }
}

/// The next byte.
#[tactic(auto, unfolding(crate::specs::Fields::byte_at))]
fn byte_at(bytes: &[u8]) -> Result<(u8, &[u8]), FieldFault>
    ensures { IsField result (byte_at bytes.now) }
{
    match bytes {
        [] => Err(fault_at(bytes, FrameCause::Cut)),
        [byte, rest @ ..] => Ok((*byte, rest)),
    }
}

/// A byte from `least` to `most`.
#[tactic(auto, unfolding(crate::specs::Fields::within_at))]
pub fn within_at(least: u8, most: u8, bytes: &[u8]) -> Result<(u8, &[u8]), FieldFault>
    ensures value { IsField result (within_at least most bytes.now) }
    ensures least { IfOk result (λ found. least ≤ found.0) }
    ensures most { IfOk result (λ found. found.0 ≤ most) }
{
    let (byte, rest) = byte_at(bytes)?;
    if byte < least || byte > most {
        return Err(fault_at(bytes, FrameCause::Range));
    }
    Ok((byte, rest))
}

/// A group.
#[tactic(auto, unfolding(crate::specs::Fields::group_at))]
pub fn group_at(bytes: &[u8]) -> Result<(ServerId, &[u8]), FieldFault>
    ensures { IsField result (group_at bytes.now) }
{
    let (byte, rest) = byte_at(bytes)?;
    match ServerId::new(byte) {
        Some(group) => Ok((group, rest)),
        None => Err(fault_at(bytes, FrameCause::Range)),
    }
}

/// So many bytes.
#[tactic(auto, unfolding(crate::specs::Fields::taken_at))]
pub fn taken_at(count: usize, bytes: &[u8]) -> Result<(&[u8], &[u8]), FieldFault>
    ensures value { IsTaken result (taken_at count bytes.now) }
    ensures size { IfOk result (λ found. length found.0.now ≡ count) }
{
    if bytes.len() < count {
        return Err(fault_at(bytes, FrameCause::Cut));
    }
    Ok(bytes.split_at(count))
}

/// A number of four bytes.
#[tactic(auto, unfolding(crate::specs::Fields::integer_at))]
pub fn word_at(bytes: &[u8]) -> Result<(u32, &[u8]), FieldFault>
    ensures { IsField result (integer_at 4 bytes.now) }
{
    let (front, rest) = taken_at(4, bytes)?;
    Ok((word_of(front), rest))
}

/// A number of eight bytes.
#[tactic(auto, unfolding(crate::specs::Fields::integer_at))]
pub fn integer_at(bytes: &[u8]) -> Result<(u64, &[u8]), FieldFault>
    ensures { IsField result (integer_at 8 bytes.now) }
{
    let (front, rest) = taken_at(8, bytes)?;
    Ok((number_of(front), rest))
}
