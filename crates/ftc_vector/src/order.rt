//! Which log may be applied, and which log is there.

ghost use Rattle.std.specs.Prelude.{◌↔◌, IsTrue, ◌≡◌, ◌≤◌, ◌<◌};
ghost use Rattle.ftc_vector.specs.Order.{IsLogReady, IsCovered};

use crate::marks::Marks;
use crate::vector::Vector;
use ftc_base::PartSet;

/// Whether a log that carries these numbers and changes these partitions may be applied where the
/// vector is: the vector's number is the carried one in each changed partition, and at least the
/// carried one in each other partition that the log marks.
pub fn ready(vector: &Vector, before: &Marks, changed: PartSet) -> bool
    ensures { IsTrue result ↔ IsLogReady vector.now before.now changed }
{
    for partition in 0..before.end() {
        if let Some(carried) = before.at(partition) {
            let number = vector.at(partition);
            if number < carried || (number > carried && changed.has(partition)) {
                return false;
            }
        }
    }
    true
}

/// Whether the vector has at least the needed number in each partition that the need marks.
pub fn covers(vector: &Vector, need: &Marks) -> bool
    ensures { IsTrue result ↔ IsCovered vector.now need.now }
{
    for partition in 0..need.end() {
        if let Some(least) = need.at(partition) {
            if vector.at(partition) < least {
                return false;
            }
        }
    }
    true
}
