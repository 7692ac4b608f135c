//! A visit that was made.

ghost use Rattle.std.specs.Prelude.{◌≡◌, ◌≤◌, map};
ghost use Rattle.ftc_visits.specs.Made.{mark_of, IsMadeBy};

use arrayvec::ArrayVec;
use ftc_base::limits::{MOST_PARTITIONS, MOST_READS};
use ftc_base::{Answers, PacketNo, ServerId, partition_of};
use ftc_vector::Vector;

/// The number that a vector has to have reached in a partition.
#[derive(Clone, Copy, Debug, Default, PartialEq, Eq)]
pub struct Mark {
    pub partition: u8,
    pub number: u64,
}

/// A visit, and what a vector of its group has to have reached where the visit is in it: a mark for each key that it
/// read.
#[derive(Debug, Drop)]
pub struct MadeVisit {
    pub server: ServerId,
    pub packet: PacketNo,
    pub needed: ArrayVec<Mark, MOST_READS>,
}

/// The visit of a packet with these answers, where its group's head has this vector once it is committed.
pub fn made(
    answers: &Answers,
    partitions: u8,
    server: ServerId,
    packet: PacketNo,
    vector: &Vector,
) -> MadeVisit
    requires some { 1 ≤ partitions }
    requires within { partitions ≤ MOST_PARTITIONS }
    ensures { IsMadeBy partitions server packet answers.now.items vector.now result }
{
    let mut needed = ArrayVec::new();
    for answer in answers.as_slice() {
        let partition = partition_of(&answer.key, partitions);
        needed.push(Mark {
            partition,
            number: vector.at(partition),
        });
    }
    MadeVisit {
        server,
        packet,
        needed,
    }
}
