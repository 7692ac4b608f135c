//! What the machine keeps of a visit.

ghost use Rattle.std.specs.Prelude.{◌<◌, ◌≤◌};
ghost use Rattle.ftc_base.specs.declared.limits.TheConstants.{MOST_PARTITIONS};

use arrayvec::ArrayVec;
use ftc_base::limits::{MOST_PARTITIONS, MOST_READS};
use ftc_base::{Answer, Answers, Write, Writes, partition_of};
use ftc_vector::Vector;

/// A partition that a visit touched.
#[derive(Clone, Copy, Debug, PartialEq, Eq)]
pub struct Touched {
    pub partition: u8,
    /// Whether the visit changed it.
    pub changed: bool,
    /// The number of the last visit before that changed it, 0 where there is none.
    pub before: u64,
    ghost within: { partition < MOST_PARTITIONS },
}

/// What a visit touched and wrote. Visits are numbered in the order of their events, from 1 on.
#[derive(Debug, Drop)]
pub struct Footprint {
    pub number: u64,
    /// The partitions of the keys that it read, in the order of its reads.
    pub touched: ArrayVec<Touched, MOST_READS>,
    pub writes: Writes,
}

/// Partition 0, untouched. It fills the unused places of a list of fixed room.
impl Default for Touched {
    fn default() -> Touched {
        Touched {
            partition: 0,
            changed: false,
            before: 0,
        }
    }
}

impl Touched {
    ghost use Rattle.std.specs.Prelude.{◌≡◌};
    ghost use Rattle.ftc_base.specs.Partition.{partition_of as partition_of_key};
    ghost use Rattle.ftc_machine.specs.FootprintMaking.{is_written, IsTouched};

    /// Whether some write's key lies in the partition, of so many.
    fn is_written(partitions: u8, writes: &[Write], partition: u8) -> bool
        requires some { 1 ≤ partitions }
        requires within { partitions ≤ MOST_PARTITIONS }
        ensures { result ≡ is_written partitions writes.now partition }
    {
        writes
            .iter()
            .any(|write| partition_of(&write.key, partitions) == partition)
    }

    /// What is kept of an answer that a visit with these writes was given.
    fn of(partitions: u8, answer: &Answer, writes: &[Write], vector: &Vector) -> Touched
        requires some { 1 ≤ partitions }
        requires within { partitions ≤ MOST_PARTITIONS }
        ensures partition { result.partition ≡ partition_of_key partitions answer.now.key }
        ensures same { IsTouched partitions writes.now vector.now result }
    {
        let partition = partition_of(&answer.key, partitions);
        Touched {
            partition,
            changed: Touched::is_written(partitions, writes, partition),
            before: vector.at(partition),
        }
    }
}

impl Footprint {
    ghost use Rattle.std.specs.Prelude.{◌≡◌, ℕ, if◌then◌else◌};
    ghost use Rattle.ftc_vector.specs.Vector.{number_at};
    ghost use Rattle.ftc_protocol.specs.Changes.{is_some_list};
    ghost use Rattle.ftc_machine.specs.Frontier.{has_changed, follows, contains, is_had_by};
    ghost use Rattle.ftc_machine.specs.FootprintMarks.{marked_at};
    ghost use Rattle.ftc_machine.specs.FootprintMaking.{IsFootprintMade};

    /// The footprint of a visit that was given these answers and makes these writes. The vector has for
    /// each partition the number of the last visit before that changed it.
    pub fn of(
        number: u64,
        partitions: u8,
        answers: &Answers,
        writes: Writes,
        vector: &Vector,
    ) -> Footprint
        requires some { 1 ≤ partitions }
        requires within { partitions ≤ MOST_PARTITIONS }
        ensures number { result.number ≡ number }
        ensures made { IsFootprintMade partitions answers.now.items writes.items vector.now result }
    {
        let mut touched = ArrayVec::new();
        for answer in answers.as_slice() {
            touched.push(Touched::of(partitions, answer, writes.as_slice(), vector));
        }
        Footprint {
            number,
            touched,
            writes,
        }
    }

    /// Whether the visit changed something.
    pub fn has_changed(&self) -> bool
        ensures { result ≡ has_changed self.now }
    {
        !self.writes.is_empty()
    }

    /// Whether it touched something.
    pub fn has_touched(&self) -> bool
        ensures { result ≡ is_some_list self.now.touched.items }
    {
        !self.touched.is_empty()
    }

    /// Whether a set that reaches so far at its middlebox has each visit that is before this one.
    pub fn follows(&self, vector: &Vector) -> bool
        ensures { result ≡ follows self.now vector.now }
    {
        self.touched
            .iter()
            .all(|touched| touched.before <= vector.at(touched.partition))
    }

    /// Whether it has this one, which changes something.
    pub fn contains(&self, vector: &Vector) -> bool
        ensures { result ≡ contains self.now vector.now }
    {
        self.touched.iter().all(|touched| !touched.changed
            || self.number <= vector.at(touched.partition))
    }

    /// Whether it has this one.
    pub fn is_had_by(&self, vector: &Vector) -> bool
        ensures { result ≡ is_had_by self.now vector.now }
    {
        if self.has_changed() {
            self.contains(vector)
        } else {
            self.follows(vector)
        }
    }

    /// What the visit leaves in a touched partition that has this number.
    fn left(&self, touched: &Touched, number: u64) -> u64
        ensures { result ≡ (if touched.now.changed then self.now.number else number) }
    {
        if touched.changed { self.number } else { number }
    }

    /// Gives each partition that the visit changed its number.
    pub fn mark(&self, vector: &mut Vector)
        ensures { (partition : ℕ) →
            number_at vector.new partition ≡ marked_at self.now (number_at vector.old) partition }
    {
        for touched in self.touched.as_slice() {
            let number = self.left(touched, vector.at(touched.partition));
            vector.set(touched.partition, number);
        }
    }
}
