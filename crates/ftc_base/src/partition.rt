//! The partition of a key.

ghost use Rattle.std.specs.Prelude.{◌≡◌, ◌<◌, ◌≤◌};
ghost use Rattle.ftc_base.specs.Partition.{partition_of as partition_of_key};

use crate::key::Key;
use crate::limits::MOST_PARTITIONS;

/// The partition of a key, of so many: the sum of (i + 1) times byte i of the key, modulo that count.
pub fn partition_of(key: &Key, partitions: u8) -> u8
    requires some { 1 ≤ partitions }
    requires within { partitions ≤ MOST_PARTITIONS }
    ensures same { result ≡ partition_of_key partitions key.now }
    ensures within { result < partitions }
{
    let mut sum: u16 = 0;
    let mut weight: u16 = 0;
    for byte in key.as_slice() {
        weight += 1;
        sum += weight * u16::from(*byte);
    }
    (sum % u16::from(partitions)) as u8
}
