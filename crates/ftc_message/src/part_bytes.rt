//! The bytes of partitions.

ghost use Rattle.std.specs.Prelude.{◌≡◌, ◌++◌, ◌∷◌, length, OnOk};
ghost use Rattle.ftc_vector.specs.Vector.{AreMarks};
ghost use Rattle.ftc_message.specs.Spelling.{marked, marks_bytes, parts_bytes};

use crate::bytes::{append_entry, append_part};
use ftc_base::{Bytes, NoMemory, PartSet};
use ftc_vector::Marks;

/// How many partitions have a number.
pub fn marked(marks: &Marks) -> u8
    ensures count { result ≡ marked marks.now }
    ensures bounds { AreMarks marks.now }
{
    let mut count = 0;
    for partition in 0..marks.end() {
        if let Some(_) = marks.at(partition) {
            count += 1;
        }
    }
    count
}

/// Adds the bytes of the partitions of a need.
pub fn append_marks(marks: &Marks, out: &mut Bytes) -> Result<(), NoMemory>
    ensures { OnOk result (out.new ≡ out.old ++ marks_bytes marks.now) }
{
    out.append(&[marked(marks)])?;
    for partition in 0..marks.end() {
        if let Some(number) = marks.at(partition) {
            append_entry(partition, number, out)?;
        }
    }
    Ok(())
}

/// Adds the bytes of the partitions of a log.
pub fn append_parts(before: &Marks, changed: PartSet, out: &mut Bytes) -> Result<(), NoMemory>
    ensures { OnOk result (out.new ≡ out.old ++ parts_bytes before.now changed) }
{
    out.append(&[marked(before)])?;
    for partition in 0..before.end() {
        if let Some(number) = before.at(partition) {
            append_part(partition, u8::from(changed.has(partition)), number, out)?;
        }
    }
    Ok(())
}
