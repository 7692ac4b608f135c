//! The bytes of needs.

ghost use Rattle.std.specs.Prelude.{◌≡◌, ◌≤◌, ◌++◌, true, length, OnOk, OnErr, IfOk, nat_le};
ghost use Rattle.ftc_message.specs.Bounds.{AreNeeds};
ghost use Rattle.ftc_message.specs.Spelling.{need_bytes, needs_bytes};
ghost use Rattle.ftc_message.specs.Reading.{later_group_at, needs_at};
ghost use Rattle.ftc_message.specs.Front.{IsField, IsFront};

use crate::fault::{FieldFault, FrameCause};
use crate::field::{fault_at, group_at, within_at};
use crate::need::{Need, Needs};
use crate::part_bytes::append_marks;
use crate::parts::marks_at;
use ftc_base::{Bytes, NoMemory, Refuse, ServerId};
use ftc_vector::Marks;
use std::alloc::Global;

/// A group, which is at least `from`.
#[tactic(auto, unfolding(crate::specs::Reading::later_group_at))]
pub(crate) fn later_group_at(from: u8, bytes: &[u8]) -> Result<(ServerId, &[u8]), FieldFault>
    ensures value { IsField result (later_group_at from bytes.now) }
    ensures follows { IfOk result (λ found. nat_le from found.0 ≡ true) }
{
    let (group, rest) = match group_at(bytes) {
        Ok(found) => found,
        Err(fault) => return Err(fault),
    };
    if group.number() < from {
        return Err(fault_at(bytes, FrameCause::Order));
    }
    Ok((group, rest))
}

/// The needs at the front and the bytes behind them: at most so many, with numbers that are at least
/// `least`.
#[tactic(auto, unfolding(crate::specs::Reading::needs_at))]
pub fn needs_at(
    alloc: Global,
    most: u8,
    least: u64,
    bytes: &[u8],
) -> Result<(Needs, &[u8]), Refuse<FieldFault>>
    ensures value { IsFront result (needs_at most least bytes.now) }
    ensures spelled { IfOk result (λ found. bytes.now ≡ needs_bytes found.0 ++ found.1.now) }
{
    let (count, after) = within_at(0, most, bytes)?;
    let mut rest = after;
    let mut from = 0;
    let mut needs = Needs::new(alloc);
    needs.make_room(usize::from(count))?;
    for _ in 0..count {
        let (group, behind) = match later_group_at(from, rest) {
            Ok(found) => found,
            Err(fault) => return Err(Refuse::Bad(fault)),
        };
        let mut need = Need {
            group,
            marks: Marks::new(),
        };
        rest = marks_at(least, behind, &mut need.marks)?;
        from = group.number() + 1;
        needs.push(need)?;
    }
    Ok((needs, rest))
}

/// Adds a need's bytes at the end.
pub fn append_need(need: &Need, out: &mut Bytes) -> Result<(), NoMemory>
    ensures { OnOk result (out.new ≡ out.old ++ need_bytes need.now) }
{
    out.append(&[need.group.number()])?;
    append_marks(&need.marks, out)
}

/// Adds the needs' bytes at the end. Where memory is refused, some of them may have been added.
pub(crate) fn add_needs(needs: &Needs, out: &mut Bytes) -> Result<(), NoMemory>
    ensures added { OnOk result (out.new ≡ out.old ++ needs_bytes needs.now) }
    ensures bounds { AreNeeds needs.now }
{
    out.append(&[needs.len() as u8])?;
    for need in needs.as_slice() {
        append_need(need, out)?;
    }
    Ok(())
}

/// Adds the needs' bytes at the end.
pub fn append_needs(needs: &Needs, out: &mut Bytes) -> Result<(), NoMemory>
    ensures ok { OnOk result (out.new ≡ out.old ++ needs_bytes needs.now) }
    ensures err { OnErr result (out.new ≡ out.old) }
    ensures bounds { AreNeeds needs.now }
{
    let mut piece = out.none_alike();
    add_needs(needs, &mut piece)?;
    out.append(piece.as_slice())
}
