ghost use Rattle.std.specs.Prelude.{◌≡◌, ◌<◌, ℕ, true};
ghost use Rattle.ftc_base.specs.Sets.{has};

use crate::{Commits, GroupVectors, Marks, Vector, bump, covers, merge, need_of, ready};
use ftc_base::limits::MOST_PARTITIONS;
use ftc_base::{PartSet, ServerId};
use std::test::Fail;

/// The numbers that a log of one partition carries.
fn carried(partition: u8, number: u64) -> Marks
    requires { partition < MOST_PARTITIONS }
{
    let mut marks = Marks::new();
    marks.set(partition, number);
    marks
}

/// The set of one partition.
fn only(partition: u8) -> PartSet
    requires { partition < MOST_PARTITIONS }
    ensures { (other : ℕ) → has result other ≡ true → other ≡ partition }
{
    PartSet::new().with(partition)
}

/// Applies a log that changes one partition, and answers that partition's number before.
fn apply(vector: &mut Vector, partition: u8) -> Option<u64>
    requires { partition < MOST_PARTITIONS }
{
    if vector.at(partition) == u64::MAX {
        return None;
    }
    let changed = only(partition);
    bump(vector, changed, changed).at(partition)
}

/// Whether the vector covers a log that changes one partition.
fn has_log(vector: &Vector, partition: u8, number: u64) -> bool
    requires { partition < MOST_PARTITIONS }
{
    let before = carried(partition, number);
    match before.at(partition) {
        Some(number) if number < u64::MAX => covers(vector, &need_of(&before, only(partition))),
        _ => false,
    }
}

#[test]
fn logs_out_of_order(rt: HostRuntime) {
    let mut vector = Vector::zero();
    assert!(rt; ready(&vector, &carried(1, 0), only(1)));
    assert!(rt; !ready(&vector, &carried(1, 1), only(1)));
    assert!(rt; ready(&vector, &carried(2, 0), only(2)));
    assert_eq!(rt; apply(&mut vector, 2), Some(0));
    assert_eq!(rt; apply(&mut vector, 1), Some(0));
    assert!(rt; ready(&vector, &carried(1, 1), only(1)));
    assert!(rt; !has_log(&vector, 1, 1));
    assert_eq!(rt; apply(&mut vector, 1), Some(1));
    assert_eq!(rt;
        [vector.at(0), vector.at(1), vector.at(2), vector.at(3)],
        [0, 2, 1, 0]
    );
    assert!(rt; has_log(&vector, 1, 0) && has_log(&vector, 1, 1) && has_log(&vector, 2, 0));
    assert!(rt; !ready(&vector, &carried(1, 1), only(1)));
}

#[test]
fn a_log_that_only_reads(rt: HostRuntime) {
    let mut vector = Vector::zero();
    vector.set(5, 3);
    assert!(rt; ready(&vector, &carried(5, 2), PartSet::new()));
    assert!(rt; covers(&vector, &need_of(&carried(5, 3), PartSet::new())));
    assert!(rt; !ready(&vector, &carried(5, 4), PartSet::new()));
    assert!(rt; !covers(&vector, &carried(5, 4)));
}

/// Partition 5 has 7, and partition 63 this number.
fn two_marks(last: u64) -> Marks {
    let mut marks = carried(5, 7);
    marks.set(63, last);
    marks
}

#[test]
fn marks_end_behind_the_last(rt: HostRuntime) {
    assert_eq!(rt; (Marks::new().end(), carried(5, 7).end()), (0, 6));
    let mut marks = two_marks(7);
    assert_eq!(rt;
        (marks.end(), marks.at(62), marks.at(63)),
        (64, None, Some(7))
    );
    assert!(rt; marks == two_marks(7) && marks != two_marks(8) && marks != carried(5, 7));
    marks.set(2, 0);
    assert!(rt; marks.end() == 64 && marks != two_marks(7));
}

#[test]
fn the_greater_number_of_each_partition(rt: HostRuntime) {
    let (mut first, mut second) = (Vector::zero(), Vector::zero());
    first.set(1, 5);
    first.set(63, 2);
    second.set(0, 7);
    second.set(1, 3);
    merge(&mut first, &second);
    assert_eq!(rt;
        [first.at(0), first.at(1), first.at(2), first.at(63)],
        [7, 5, 0, 2]
    );
}

#[test]
fn commits_of_two_groups(rt: HostRuntime) -> Result<(), Fail> {
    let (low, high) = (ServerId::new(3).unwrap(), ServerId::new(15).unwrap());
    let mut vector = Vector::zero();
    vector.set(9, 4);
    let (mut first, mut second) = (Commits::new(rt.alloc())?, Commits::new(rt.alloc())?);
    first.raise(low, &vector);
    second.raise(high, &vector);
    assert_eq!(rt; *first.of(high), Vector::zero());
    second.raise(high, &Vector::zero());
    assert_eq!(rt;
        (first.end(), second.end(), Commits::new(rt.alloc())?.end()),
        (4, 16, 0)
    );
    first.merge(&second);
    assert_eq!(rt; first.of(low).at(9), 4);
    assert_eq!(rt; *first.of(high), vector);
    second.raise(low, &vector);
    assert!(rt; first == second);
    let copy = first.copy(rt.alloc())?;
    vector.set(9, 5);
    first.raise(high, &vector);
    assert!(rt; copy == second && copy != first);
    Ok(())
}

#[test]
fn vectors_in_place(rt: HostRuntime) {
    let group = ServerId::new(15).unwrap();
    let mut vector = Vector::zero();
    vector.set(63, 4);
    let mut first = GroupVectors::new();
    first.raise(group, &vector);
    let mut second = first;
    second.merge(&GroupVectors::new());
    assert!(rt; first == second);
    assert_eq!(rt; *second.of(group), vector);
}
