//! Whether a vector covers a log.

ghost use Rattle.std.specs.Prelude.{◌≡◌};
ghost use Rattle.ftc_vector.specs.Vector.{need_at};
ghost use Rattle.ftc_replica.specs.Kept.{reaches, covers_log};

use ftc_message::Log;
use ftc_vector::Vector;

/// Whether a number has reached what a log needs that carries that number for a partition: one more
/// where the log changes it.
fn reaches(number: u64, carried: Option<u64>, is_changed: bool) -> bool
    ensures { result ≡ reaches number (need_at carried is_changed) }
{
    match carried {
        None => true,
        Some(carried) if is_changed => number > carried,
        Some(carried) => number >= carried,
    }
}

/// Whether the vector has reached what the log needs, in each partition that the log marks.
pub fn covers_log(vector: &Vector, log: &Log) -> bool
    ensures { result ≡ covers_log vector.now log.now }
{
    for partition in 0..log.before().end() {
        let carried = log.before().at(partition);
        if !reaches(vector.at(partition), carried, log.changed().has(partition)) {
            return false;
        }
    }
    true
}
