//! Whether one set of visits has what another lacks.

ghost use Rattle.std.specs.Prelude.{◌↔◌, IsTrue};
ghost use Rattle.ftc_machine.specs.Gain.{Exceeds, HasGain};

use ftc_base::ServerId;
use ftc_base::limits::{MOST_PARTITIONS, MOST_SERVERS};
use ftc_vector::{GroupVectors, Vector};

/// Whether some number of the one is greater than that of the other.
fn exceeds(one: &Vector, other: &Vector) -> bool
    ensures { IsTrue result ↔ Exceeds one.now other.now }
{
    for partition in 0..MOST_PARTITIONS {
        if one.at(partition) > other.at(partition) {
            return true;
        }
    }
    false
}

/// Whether the one has visits that the other lacks, of some other group than that.
pub fn has_gain(one: &GroupVectors, other: &GroupVectors, except: ServerId) -> bool
    ensures { IsTrue result ↔ HasGain one.now other.now except }
{
    for number in 0..MOST_SERVERS {
        let group = ServerId::new(number).unwrap();
        if group != except && exceeds(one.of(group), other.of(group)) {
            return true;
        }
    }
    false
}
