//! A number for each partition.

ghost use Rattle.std.specs.Prelude.{◌≡◌, ◌<◌, ◌==◌, ℕ, true, slice_set};
ghost use Rattle.std.specs.List.{list_all};
ghost use Rattle.ftc_base.specs.Sets.{has};
ghost use Rattle.ftc_vector.specs.Vector.{by_partition, number_at, merged, raised, IsVector};

use ftc_base::PartSet;
use ftc_base::limits::MOST_PARTITIONS;
use std::marker::Model;

/// How many partitions there may be, as a length.
pub(crate) const PARTITIONS: usize = MOST_PARTITIONS as usize;

/// A number for each partition, from partition 0 on. A contract sees the list of the numbers.
#[derive(Clone, Copy, Debug, PartialEq, Eq)]
pub struct Vector {
    numbers: [u64; PARTITIONS],
}

impl Model for Vector {
    ghost use Rattle.std.specs.Prelude.{◌≡◌, ℕ, List, length};
    ghost use Rattle.ftc_base.specs.declared.limits.TheConstants.{MOST_PARTITIONS};

    ghost Value = { List ℕ };

    ghost view = { λ vector. vector.numbers };

    ghost invariant = { λ vector. length vector.numbers ≡ MOST_PARTITIONS };

    ghost inverse = { λ numbers. record { numbers = numbers } };
}

impl Vector {
    /// The vector that has 0 in each partition.
    pub fn zero() -> Vector
        ensures { result ≡ by_partition (λ _. 0) }
    {
        Vector {
            numbers: [0; PARTITIONS],
        }
    }

    /// Gives a partition that number.
    pub fn set(&mut self, partition: u8, number: u64)
        requires { partition < MOST_PARTITIONS }
        ensures { self.new ≡ slice_set self.old partition number }
    {
        self.numbers[usize::from(partition)] = number;
    }

    /// The number of a partition.
    pub fn at(&self, partition: u8) -> u64
        requires { partition < MOST_PARTITIONS }
        ensures same { result ≡ number_at self.now partition }
        ensures bounds { IsVector self.now }
    {
        self.numbers[usize::from(partition)]
    }

    /// Whether it has 0 in each partition.
    pub fn is_zero(&self) -> bool
        ensures { result ≡ list_all (λ number. number == 0) self.now }
    {
        // All are read, since a loop with no way out of its middle is the faster one.
        let mut bits = 0;
        for number in &self.numbers {
            bits |= *number;
        }
        bits == 0
    }

    /// Raises the number of each changed partition by 1.
    pub fn raise(&mut self, changed: PartSet)
        requires { (partition : ℕ) → partition < MOST_PARTITIONS → has changed partition ≡ true →
            number_at self.old partition < u64.MAX }
        ensures { self.new ≡ raised self.old changed }
    {
        for partition in 0..MOST_PARTITIONS {
            if changed.has(partition) {
                self.numbers[usize::from(partition)] += 1;
            }
        }
    }
}

/// Gives each partition the greater of the two numbers.
pub fn merge(vector: &mut Vector, other: &Vector)
    ensures { vector.new ≡ merged vector.old other.now }
{
    for partition in 0..PARTITIONS {
        vector.numbers[partition] = vector.numbers[partition].max(other.numbers[partition]);
    }
}
