ghost use Rattle.std.specs.Prelude.{◌≡◌, ◌<◌, ℕ, true, IsSome};
ghost use Rattle.ftc_base.specs.Sets.{has};
ghost use Rattle.ftc_vector.specs.Vector.{mark_at};

use crate::dropping::make_way;
use crate::{Kept, Replica, Wait, Waits};
use ftc_base::limits::MOST_PARTITIONS;
use ftc_base::{Key, NoMemory, PartSet, ServerId, Value, Write, Writes};
use ftc_message::Log;
use ftc_vector::{Marks, Vector};
use std::alloc::Global;
use std::collections::VecDeque;
use std::process::Abort;

/// The number of one partition.
fn marks(partition: u8, number: u64) -> Marks
    requires { partition < MOST_PARTITIONS }
    ensures { IsSome (mark_at result partition) }
{
    let mut marks = Marks::new();
    marks.set(partition, number);
    marks
}

/// The set of one partition.
fn only(partition: u8) -> PartSet
    requires { partition < MOST_PARTITIONS }
    ensures { (other : ℕ) → has result other ≡ true → other ≡ partition }
{
    PartSet::new().with(partition)
}

/// The log of a packet that changed one partition, which had that number before. It puts the packet's
/// number at a key.
fn log(origin: u8, partition: u8, number: u64) -> Log
    requires { partition < MOST_PARTITIONS }
    ensures { (other : ℕ) → has result.changed other ≡ true → other ≡ partition }
{
    let mut writes = Writes::new();
    writes.push(Write {
        key: Key::new(&[partition]).unwrap(),
        value: Value::new(&[origin]),
    });
    let group = ServerId::new(0).unwrap();
    Log::new(
        group,
        u32::from(origin),
        marks(partition, number),
        only(partition),
        writes,
    )
}

/// Applies a log that changes one partition, where it is ready.
fn apply(replica: &mut Replica, partition: u8, log: &Log) -> Result<bool, NoMemory>
    requires within { partition < MOST_PARTITIONS }
    requires only { (other : ℕ) → has log.now.changed other ≡ true → other ≡ partition }
{
    if !replica.ready(log) || replica.vector().at(partition) == u64::MAX {
        return Ok(false);
    }
    replica.apply(log)?;
    Ok(true)
}

/// The log of a packet is applied, where it is ready.
fn applies(
    rt: &impl Abort,
    replica: &mut Replica,
    origin: u8,
    partition: u8,
    number: u64,
    may: bool,
)
    requires { partition < MOST_PARTITIONS }
{
    let log = log(origin, partition, number);
    assert_eq!(rt; apply(replica, partition, &log).ok(), Some(may));
}

/// The log of a packet is ready, or it isn't.
fn is_ready(
    rt: &impl Abort,
    replica: &Replica,
    origin: u8,
    partition: u8,
    number: u64,
    wanted: bool,
)
    requires { partition < MOST_PARTITIONS }
{
    let log = log(origin, partition, number);
    assert_eq!(rt; replica.ready(&log), wanted);
}

/// A replica has the log of a packet, or it hasn't.
fn is_had(rt: &impl Abort, replica: &Replica, origin: u8, partition: u8, number: u64, wanted: bool)
    requires { partition < MOST_PARTITIONS }
{
    let log = log(origin, partition, number);
    assert_eq!(rt; replica.has(&log), wanted);
}

/// What a replica has of the first partitions.
fn numbers_are(rt: &impl Abort, replica: &Replica, wanted: [u64; 4]) {
    let vector = replica.vector();
    let numbers = [vector.at(0), vector.at(1), vector.at(2), vector.at(3)];
    assert_eq!(rt; numbers, wanted);
}

/// A replica has that value at the key of partition 1.
fn has_value(rt: &impl Abort, replica: &Replica, value: &[u8]) {
    let key = Key::new(&[1]).unwrap();
    assert_eq!(rt; replica.store().get(&key), Value::new(value));
}

/// Whether these are the logs of those packets.
fn are_of(logs: &[Log], origins: &[u32]) -> bool {
    if logs.len() != origins.len() {
        return false;
    }
    for place in 0..logs.len() {
        if logs[place].origin() != origins[place] {
            return false;
        }
    }
    true
}

/// Whether the logs of those packets are missing behind that vector.
fn are_missing(
    alloc: Global,
    kept: &Kept,
    vector: &Vector,
    origins: &[u32],
) -> Result<bool, NoMemory> {
    let missing = kept.missing_after(alloc, vector)?;
    Ok(are_of(missing.as_slice(), origins))
}

/// The logs of those packets are missing behind that vector.
fn lacks(rt: &impl Abort, alloc: Global, kept: &Kept, vector: &Vector, origins: &[u32]) {
    assert_eq!(rt; are_missing(alloc, kept, vector, origins).ok(), Some(true));
}

#[test]
fn logs_out_of_order(rt: HostRuntime) {
    let mut replica = Replica::new(rt.alloc(), 4);
    is_ready(&rt, &replica, 7, 2, 0, true);
    is_ready(&rt, &replica, 6, 1, 1, false);
    is_had(&rt, &replica, 5, 1, 0, false);
    applies(&rt, &mut replica, 7, 2, 0, true);
    applies(&rt, &mut replica, 6, 1, 1, false);
    applies(&rt, &mut replica, 5, 1, 0, true);
    is_had(&rt, &replica, 5, 1, 0, true);
    is_had(&rt, &replica, 6, 1, 1, false);
    applies(&rt, &mut replica, 6, 1, 1, true);
    numbers_are(&rt, &replica, [0, 2, 1, 0]);
    is_had(&rt, &replica, 5, 1, 0, true);
    is_had(&rt, &replica, 6, 1, 1, true);
    is_had(&rt, &replica, 7, 2, 0, true);
    has_value(&rt, &replica, &[6]);
    lacks(&rt, rt.alloc(), replica.kept(), &Vector::zero(), &[7, 5, 6]);
}

/// Three logs are applied, and those are dropped that a tail has which has one change of partition 1.
fn pruned(rt: &impl Abort, alloc: Global) -> Replica {
    let mut replica = Replica::new(alloc, 4);
    applies(rt, &mut replica, 7, 2, 0, true);
    applies(rt, &mut replica, 5, 1, 0, true);
    applies(rt, &mut replica, 6, 1, 1, true);
    replica.prune(&vector(1, 0));
    replica
}

#[test]
fn what_the_tail_has_is_dropped(rt: HostRuntime) {
    let replica = pruned(&rt, rt.alloc());
    let copy = replica.kept().copy(rt.alloc()).expect(&rt, "memory");
    are_left(&rt, &copy, &[7, 6]);
}

/// A replica of the same parts, with a log more among those that are kept.
fn with_one_more(replica: Replica) -> Result<Replica, NoMemory> {
    let (store, vector, mut kept) = replica.split();
    kept.reserve(1)?;
    kept.add(log(8, 3, 0))?;
    Ok(Replica::of(store, vector, kept))
}

#[test]
fn a_replica_is_made_of_the_parts_of_another(rt: HostRuntime) {
    let again = with_one_more(pruned(&rt, rt.alloc())).expect(&rt, "memory");
    lacks(&rt, rt.alloc(), again.kept(), again.vector(), &[8]);
    numbers_are(&rt, &again, [0, 2, 1, 0]);
}

/// The vector that has these numbers of partitions 1 and 2.
fn vector(first: u64, second: u64) -> Vector {
    let mut vector = Vector::zero();
    vector.set(1, first);
    vector.set(2, second);
    vector
}

/// The log of packet 100, which changes partition 2, and behind it so many that change partition 1, from packet 0 on.
fn many_logs(alloc: Global, count: u8) -> Result<VecDeque<Log>, NoMemory> {
    let mut logs = VecDeque::new(alloc);
    logs.push_back(log(100, 2, 0))?;
    for number in 0..count {
        logs.push_back(log(number, 1, u64::from(number)))?;
    }
    Ok(logs)
}

/// Such logs, kept.
fn keep_many(alloc: Global, count: u8) -> Result<Kept, NoMemory> {
    let mut kept = Kept::new(alloc);
    kept.add(log(100, 2, 0))?;
    for number in 0..count {
        kept.add(log(number, 1, u64::from(number)))?;
    }
    Ok(kept)
}

/// Whether these logs and no others are left, by their packets.
fn are(kept: &Kept, origins: &[u32]) -> bool {
    if kept.len() != origins.len() {
        return false;
    }
    for place in 0..kept.len() {
        if kept.at(place).origin() != origins[place] {
            return false;
        }
    }
    true
}

/// These logs and no others are left, by their packets.
fn are_left(rt: &impl Abort, kept: &Kept, origins: &[u32]) {
    assert!(rt; are(kept, origins));
}

/// Whether so many logs are left, from that packet's on.
fn are_from(kept: &Kept, count: usize, origin: u32) -> bool {
    kept.len() > 0 && kept.len() == count && kept.at(0).origin() == origin
}

#[test]
fn logs_leave_in_order(rt: HostRuntime) {
    let mut kept = keep_many(rt.alloc(), 200).expect(&rt, "memory");
    for number in 0..200u8 {
        kept.prune(&vector(u64::from(number), 1));
        assert!(rt; are_from(&kept, usize::from(200 - number), u32::from(number)));
    }
    kept.prune(&vector(200, 1));
    assert!(rt; kept.is_empty());
}

/// Whether the logs of those packets are copied.
fn are_copied(alloc: Global, kept: &Kept, origins: &[u32]) -> Result<bool, NoMemory> {
    let copy = kept.copy(alloc)?;
    Ok(are(&copy, origins))
}

#[test]
fn a_log_leaves_from_behind_another(rt: HostRuntime) {
    let mut kept = keep_many(rt.alloc(), 3).expect(&rt, "memory");
    kept.prune(&vector(2, 0));
    are_left(&rt, &kept, &[100, 2]);
    assert!(rt; !kept.is_empty());
    assert!(rt; are_copied(rt.alloc(), &kept, &[100, 2]).expect(&rt, "memory"));
    lacks(&rt, rt.alloc(), &kept, &vector(0, 1), &[2]);
}

#[test]
fn nothing_comes_back_by_a_lower_vector(rt: HostRuntime) {
    let mut kept = keep_many(rt.alloc(), 3).expect(&rt, "memory");
    kept.prune(&vector(2, 0));
    kept.prune(&vector(1, 0));
    are_left(&rt, &kept, &[100, 2]);
    kept.prune(&vector(0, 1));
    are_left(&rt, &kept, &[2]);
}

#[test]
fn a_covered_log_is_kept_until_it_is_pruned(rt: HostRuntime) {
    let mut kept = keep_many(rt.alloc(), 3).expect(&rt, "memory");
    kept.prune(&vector(3, 0));
    kept.add(log(7, 1, 0)).expect(&rt, "memory");
    are_left(&rt, &kept, &[100, 7]);
    kept.prune(&vector(3, 0));
    are_left(&rt, &kept, &[100]);
}

/// So many logs are there, and so many were swept.
fn are_swept(rt: &impl Abort, logs: &VecDeque<Log>, swept: usize, wanted: (usize, usize)) {
    assert_eq!(rt; (logs.len(), swept), wanted);
}

#[test]
fn dropped_logs_are_swept_where_they_are_many(rt: HostRuntime) {
    let mut logs = many_logs(rt.alloc(), 63).expect(&rt, "memory");
    let mut pruned = Some(vector(100, 0));
    let mut swept = 0;
    make_way(&mut logs, &mut pruned, &mut swept, &log(101, 2, 1));
    are_swept(&rt, &logs, swept, (64, 0));
    logs.push_back(log(101, 2, 1)).expect(&rt, "memory");
    make_way(&mut logs, &mut pruned, &mut swept, &log(102, 2, 2));
    are_swept(&rt, &logs, swept, (2, 2));
    assert!(rt; pruned.is_none());
}

#[test]
fn logs_are_swept_between_prunes(rt: HostRuntime) {
    let mut kept = keep_many(rt.alloc(), 0).expect(&rt, "memory");
    for number in 0..200u8 {
        kept.add(log(number, 1, u64::from(number)))
            .expect(&rt, "memory");
        kept.prune(&vector(u64::from(number), 0));
        are_left(&rt, &kept, &[100, u32::from(number)]);
    }
}

/// The wait of a packet's log for a number of partition 1.
fn wait(group: ServerId, number: u64, origin: u32, packet: u32) -> Wait {
    Wait {
        group,
        partition: 1,
        number,
        origin,
        packet,
    }
}

/// That wait is woken by a number of a partition of a group, or none is.
fn wakes(
    rt: &impl Abort,
    waits: &mut Waits,
    group: ServerId,
    partition: u8,
    number: u64,
    wanted: Option<Wait>,
) {
    assert_eq!(rt; waits.wake(group, partition, number), wanted);
}

#[test]
fn waits_are_woken_in_order(rt: HostRuntime) {
    let group = ServerId::new(0).unwrap();
    let mut waits = Waits::new(rt.alloc());
    waits.reserve(2).expect(&rt, "memory");
    waits.add(wait(group, 5, 10, 7)).expect(&rt, "memory");
    waits.add(wait(group, 6, 11, 8)).expect(&rt, "memory");
    waits.add(wait(group, 5, 12, 9)).expect(&rt, "memory");
    wakes(&rt, &mut waits, group, 1, 5, Some(wait(group, 5, 10, 7)));
    wakes(&rt, &mut waits, group, 1, 5, Some(wait(group, 5, 12, 9)));
    wakes(&rt, &mut waits, group, 1, 5, None);
    assert!(rt; waits.len() == 1 && !waits.is_empty());
}

/// Adds waits for these numbers. Their origins are their places.
fn add_all(waits: &mut Waits, group: ServerId, numbers: &[u64]) -> Result<(), NoMemory> {
    let mut origin = 0;
    for number in numbers {
        waits.add(wait(group, *number, origin, 3))?;
        origin = origin.wrapping_add(1);
    }
    Ok(())
}

/// The origin of the wait that is woken by a number of partition 1.
fn woken(waits: &mut Waits, group: ServerId, number: u64) -> Option<u32> {
    waits.wake(group, 1, number).map(|wait| wait.origin)
}

/// The wait of that origin is woken by a number of partition 1.
fn is_woken(rt: &impl Abort, waits: &mut Waits, group: ServerId, number: u64, origin: u32) {
    assert_eq!(rt; woken(waits, group, number), Some(origin));
}

#[test]
fn waits_for_many_numbers_are_woken_in_any_order(rt: HostRuntime) {
    let group = ServerId::new(2).unwrap();
    let mut waits = Waits::new(rt.alloc());
    add_all(&mut waits, group, &[4, 9, 4, 7, 9, 4]).expect(&rt, "memory");
    is_woken(&rt, &mut waits, group, 7, 3);
    is_woken(&rt, &mut waits, group, 4, 0);
    is_woken(&rt, &mut waits, group, 9, 1);
    is_woken(&rt, &mut waits, group, 4, 2);
    add_all(&mut waits, group, &[7, 4]).expect(&rt, "memory");
    is_woken(&rt, &mut waits, group, 4, 5);
    is_woken(&rt, &mut waits, group, 7, 0);
    is_woken(&rt, &mut waits, group, 4, 1);
    is_woken(&rt, &mut waits, group, 9, 4);
    wakes(&rt, &mut waits, group, 1, 4, None);
    wakes(&rt, &mut waits, group, 1, 7, None);
    wakes(&rt, &mut waits, group, 1, 9, None);
    wakes(&rt, &mut waits, group, 1, 5, None);
    assert!(rt; waits.is_empty());
}

#[test]
fn a_wait_is_woken_by_its_own_number_alone(rt: HostRuntime) {
    let group = ServerId::new(0).unwrap();
    let other = ServerId::new(1).unwrap();
    let mut waits = Waits::new(rt.alloc());
    waits.add(wait(group, 5, 10, 7)).expect(&rt, "memory");
    wakes(&rt, &mut waits, other, 1, 5, None);
    wakes(&rt, &mut waits, group, 2, 5, None);
    wakes(&rt, &mut waits, group, 1, 6, None);
    waits.add(wait(other, 5, 11, 8)).expect(&rt, "memory");
    is_woken(&rt, &mut waits, other, 5, 11);
    is_woken(&rt, &mut waits, group, 5, 10);
}

#[test]
fn dropped_waits_are_not_woken(rt: HostRuntime) {
    let group = ServerId::new(0).unwrap();
    let mut waits = Waits::new(rt.alloc());
    add_all(&mut waits, group, &[4, 9, 4]).expect(&rt, "memory");
    is_woken(&rt, &mut waits, group, 4, 0);
    waits.clear();
    assert!(rt; waits.is_empty());
    wakes(&rt, &mut waits, group, 1, 4, None);
    add_all(&mut waits, group, &[9, 4]).expect(&rt, "memory");
    is_woken(&rt, &mut waits, group, 4, 1);
    is_woken(&rt, &mut waits, group, 9, 0);
    wakes(&rt, &mut waits, group, 1, 9, None);
}
