//! A part of what a set of visits has.

ghost use Rattle.std.specs.Prelude.{◌≡◌};
ghost use Rattle.ftc_base.specs.Sets.{has};
ghost use Rattle.ftc_machine.specs.Tails.{part_of};

use ftc_base::limits::MOST_SERVERS;
use ftc_base::{ServerId, ServerSet};
use ftc_vector::GroupVectors;

/// How far a set reaches of the visits of these groups alone.
pub fn part(reach: &GroupVectors, groups: ServerSet) -> GroupVectors
    ensures { result ≡ part_of (has groups) reach.now }
{
    let mut part = GroupVectors::new();
    for number in 0..MOST_SERVERS {
        if groups.has(number) {
            let group = ServerId::new(number).unwrap();
            part.raise(group, reach.of(group));
        }
    }
    part
}
