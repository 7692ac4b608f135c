//! The partitions of a log, of a need, and of what is known of a group.

ghost use Rattle.std.specs.Prelude.{◌≡◌, ◌<◌, ◌≤◌, IfOk};
ghost use Rattle.ftc_vector.specs.Vector.{by_partition};
ghost use Rattle.ftc_message.specs.Reading.{partition_at, least_at, need_mark_at, no_marks, marks_at, known_at};
ghost use Rattle.ftc_message.specs.Reading.{part_at, no_parts, plus_part, parts_at};
ghost use Rattle.ftc_message.specs.Front.{IsField, IsPlaced};

use crate::fault::{FieldFault, FrameCause};
use crate::field::{fault_at, integer_at, within_at};
use ftc_base::PartSet;
use ftc_base::limits::MOST_PARTITIONS;
use ftc_vector::{Marks, Vector};

/// A partition of a log, and its number before.
#[derive(Clone, Copy, Debug, PartialEq, Eq)]
pub struct Part {
    pub partition: u8,
    pub is_changed: bool,
    pub number: u64,
}

/// The numbers that the partitions of a log had before, and which of them are changed.
#[derive(Clone, Copy, Debug, PartialEq, Eq)]
pub struct Parts {
    pub before: Marks,
    pub changed: PartSet,
}

impl Parts {
    /// No partition yet.
    pub fn new() -> Parts
        ensures { result ≡ no_parts }
    {
        Parts {
            before: Marks::new(),
            changed: PartSet::new(),
        }
    }

    /// Adds a partition.
    fn add(&mut self, part: Part)
        requires { part.partition < MOST_PARTITIONS }
        ensures { self.new ≡ plus_part part self.old }
    {
        self.before.set(part.partition, part.number);
        if part.is_changed {
            self.changed = self.changed.with(part.partition);
        }
    }
}

/// A partition, which is at least `from`.
#[tactic(auto, unfolding(crate::specs::Reading::partition_at))]
fn partition_at(from: u8, bytes: &[u8]) -> Result<(u8, &[u8]), FieldFault>
    ensures value { IsField result (partition_at from bytes.now) }
    ensures within { IfOk result (λ found. found.0 < MOST_PARTITIONS) }
{
    let (partition, rest) = within_at(0, MOST_PARTITIONS - 1, bytes)?;
    if partition < from {
        return Err(fault_at(bytes, FrameCause::Order));
    }
    Ok((partition, rest))
}

/// A number, which is at least `least`.
#[tactic(auto, unfolding(crate::specs::Reading::least_at))]
fn least_at(least: u64, bytes: &[u8]) -> Result<(u64, &[u8]), FieldFault>
    ensures value { IsField result (least_at least bytes.now) }
    ensures enough { IfOk result (λ found. least ≤ found.0) }
{
    let (number, rest) = integer_at(bytes)?;
    if number < least {
        return Err(fault_at(bytes, FrameCause::Range));
    }
    Ok((number, rest))
}

/// A partition of a need, and its number.
#[tactic(auto, unfolding(crate::specs::Reading::need_mark_at))]
fn need_mark_at(least: u64, from: u8, bytes: &[u8]) -> Result<((u8, u64), &[u8]), FieldFault>
    ensures value { IsField result (need_mark_at least from bytes.now) }
    ensures within { IfOk result (λ found. found.0.0 < MOST_PARTITIONS) }
    ensures enough { IfOk result (λ found. least ≤ found.0.1) }
{
    let (partition, rest) = partition_at(from, bytes)?;
    let (number, rest) = least_at(least, rest)?;
    Ok(((partition, number), rest))
}

/// Reads the partitions of a need, whose numbers are at least `least`, into marks that have none yet, since
/// marks are dear to move. The bytes behind them are answered.
#[tactic(auto, unfolding(crate::specs::Reading::marks_at))]
pub fn marks_at<'a>(least: u64, bytes: &'a [u8], marks: &mut Marks) -> Result<&'a [u8], FieldFault>
    requires { marks.old ≡ no_marks }
    ensures { IsPlaced result marks.new (marks_at least bytes.now) }
{
    let (count, after) = within_at(1, MOST_PARTITIONS, bytes)?;
    let mut rest = after;
    let mut from = 0;
    for _ in 0..count {
        let ((partition, number), behind) = need_mark_at(least, from, rest)?;
        marks.set(partition, number);
        from = partition + 1;
        rest = behind;
    }
    Ok(rest)
}

/// Reads what is known of a group into a vector that has 0 in each partition. The bytes behind it are answered.
#[tactic(auto, unfolding(crate::specs::Reading::known_at, crate::specs::Reading::marks_at))]
pub fn known_at<'a>(bytes: &'a [u8], vector: &mut Vector) -> Result<&'a [u8], FieldFault>
    requires { vector.old ≡ by_partition (λ _. 0) }
    ensures { IsPlaced result vector.new (known_at bytes.now) }
{
    let (count, after) = within_at(1, MOST_PARTITIONS, bytes)?;
    let mut rest = after;
    let mut from = 0;
    for _ in 0..count {
        let ((partition, number), behind) = need_mark_at(1, from, rest)?;
        vector.set(partition, number);
        from = partition + 1;
        rest = behind;
    }
    Ok(rest)
}

/// A partition of a log, which is at least `from`.
#[tactic(auto, unfolding(crate::specs::Reading::part_at))]
fn part_at(from: u8, bytes: &[u8]) -> Result<(Part, &[u8]), FieldFault>
    ensures value { IsField result (part_at from bytes.now) }
    ensures within { IfOk result (λ found. found.0.partition < MOST_PARTITIONS) }
{
    let (partition, rest) = partition_at(from, bytes)?;
    let (flag, rest) = within_at(0, 1, rest)?;
    let (number, rest) = integer_at(rest)?;
    let part = Part {
        partition,
        is_changed: flag == 1,
        number,
    };
    Ok((part, rest))
}

/// Reads the partitions of a log into parts that have none yet. The bytes behind them are answered.
#[tactic(auto, unfolding(crate::specs::Reading::parts_at))]
pub fn parts_at<'a>(bytes: &'a [u8], parts: &mut Parts) -> Result<&'a [u8], FieldFault>
    requires { parts.old ≡ no_parts }
    ensures { IsPlaced result parts.new (parts_at bytes.now) }
{
    let (count, after) = within_at(1, MOST_PARTITIONS, bytes)?;
    let mut rest = after;
    let mut from = 0;
    for _ in 0..count {
        let (part, behind) = part_at(from, rest)?;
        parts.add(part);
        from = part.partition + 1;
        rest = behind;
    }
    Ok(rest)
}
