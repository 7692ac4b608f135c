//! What a commit logs.

ghost use Rattle.std.specs.Prelude.{◌≡◌, ◌<◌, ◌≤◌, ◌↔◌, ℕ, true, [], None, IsNone, IfSome};
ghost use Rattle.std.specs.List.{AllByRecursion};
ghost use Rattle.ftc_vector.specs.Vector.{number_at};
ghost use Rattle.ftc_message.specs.Logged.{keys_rise};
ghost use Rattle.ftc_txn.specs.Head.{IsAnswered};
ghost use Rattle.ftc_txn.specs.Logs.{IsLogOf};
ghost use Rattle.ftc_txn.specs.Touched.{is_changed, vector_after};

use crate::touched::{changed_by, touched_by};
use crate::transaction::Transaction;
use ftc_base::limits::MOST_PARTITIONS;
use ftc_base::{ServerId, Writes};
use ftc_message::Log;
use ftc_vector::{Vector, numbers_at};

/// The same writes once more.
fn copy_of(writes: &Writes) -> Writes
    ensures { result.items ≡ writes.now.items }
{
    Writes::try_from(writes.as_slice()).unwrap()
}

/// The log of a transaction that makes these writes where the vector is. None where it read nothing.
pub(crate) fn log_of(
    group: ServerId,
    transaction: &Transaction,
    partitions: u8,
    vector: &Vector,
    writes: &Writes,
) -> Option<Log>
    requires some { 1 ≤ partitions }
    requires within { partitions ≤ MOST_PARTITIONS }
    requires rising { keys_rise None writes.now.items ≡ true }
    requires were_read { AllByRecursion (λ write. IsAnswered write.key transaction.now.answers) writes.now.items }
    ensures no_log { IsNone result ↔ (transaction.now.answers ≡ []) }
    ensures log { IfSome result (IsLogOf group partitions vector.now transaction.now.packet
        transaction.now.answers writes.now.items) }
{
    let answers = transaction.answers();
    let touched = touched_by(answers, partitions);
    let changed = changed_by(writes, partitions);
    if answers.is_empty() {
        return None;
    }
    Some(Log::new(
        group,
        transaction.packet(),
        numbers_at(vector, touched),
        changed,
        copy_of(writes),
    ))
}

/// Raises the numbers of the partitions that the writes change.
pub(crate) fn raise(vector: &mut Vector, partitions: u8, writes: &Writes)
    requires some { 1 ≤ partitions }
    requires within { partitions ≤ MOST_PARTITIONS }
    requires numbers { (partition : ℕ) → partition < MOST_PARTITIONS →
        is_changed partitions writes.now.items partition ≡ true → number_at vector.old partition < u64.MAX }
    ensures { vector.new ≡ vector_after partitions writes.now.items vector.old }
{
    vector.raise(changed_by(writes, partitions));
}
