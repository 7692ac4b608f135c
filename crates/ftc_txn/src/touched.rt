//! Which partitions a transaction touches and changes.

ghost use Rattle.std.specs.Prelude.{◌≡◌, ◌≤◌, ℕ};
ghost use Rattle.ftc_base.specs.Sets.{has};
ghost use Rattle.ftc_txn.specs.Touched.{is_touched, is_changed};

use ftc_base::limits::MOST_PARTITIONS;
use ftc_base::{Answers, PartSet, Writes, partition_of};

/// The partitions of the keys that were read.
pub(crate) fn touched_by(answers: &Answers, partitions: u8) -> PartSet
    requires some { 1 ≤ partitions }
    requires within { partitions ≤ MOST_PARTITIONS }
    ensures { (partition : ℕ) → has result partition ≡ is_touched partitions answers.now.items partition }
{
    let mut touched = PartSet::new();
    for answer in answers.as_slice() {
        touched = touched.with(partition_of(&answer.key, partitions));
    }
    touched
}

/// The partitions of the keys that are written.
pub(crate) fn changed_by(writes: &Writes, partitions: u8) -> PartSet
    requires some { 1 ≤ partitions }
    requires within { partitions ≤ MOST_PARTITIONS }
    ensures { (partition : ℕ) → has result partition ≡ is_changed partitions writes.now.items partition }
{
    let mut changed = PartSet::new();
    for write in writes.as_slice() {
        changed = changed.with(partition_of(&write.key, partitions));
    }
    changed
}
