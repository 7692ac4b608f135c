ghost use Rattle.std.specs.Prelude.{◌≡◌, ◌<◌, ◌≤◌, ◌-◌, ℕ, true, IsSome, IfOk, IfSome};
ghost use Rattle.ftc_base.specs.Sets.{has};
ghost use Rattle.ftc_vector.specs.Vector.{number_at, mark_at};
ghost use Rattle.ftc_recover.specs.Pulled.{applied_all, AreReadyInTurn};

use crate::{fetch_one, pull_one};
use ftc_base::limits::MOST_PARTITIONS;
use ftc_base::{Key, NoMemory, PartSet, ServerId, Value, Write, Writes};
use ftc_message::Log;
use ftc_replica::{Kept, Replica};
use ftc_vector::{Marks, Vector};
use std::alloc::Global;
use std::process::Abort;

/// The number of one partition.
fn marks(partition: u8, number: u64) -> Marks
    requires { partition < MOST_PARTITIONS }
    ensures { IsSome (mark_at result partition) }
{
    let mut marks = Marks::new();
    marks.set(partition, number);
    marks
}

/// The set of one partition.
fn only(partition: u8) -> PartSet
    requires { partition < MOST_PARTITIONS }
    ensures { (other : ℕ) → has result other ≡ true → other ≡ partition }
{
    PartSet::new().with(partition)
}

/// The log of a packet that changed one partition, which had that number before. It puts the packet's
/// number at a key that is the partition's.
fn log(origin: u8, partition: u8, number: u64) -> Log
    requires { partition < MOST_PARTITIONS }
{
    let mut writes = Writes::new();
    writes.push(Write {
        key: Key::new(&[partition]).unwrap(),
        value: Value::new(&[origin]),
    });
    let group = ServerId::new(0).unwrap();
    Log::new(
        group,
        u32::from(origin),
        marks(partition, number),
        only(partition),
        writes,
    )
}

/// Whether each number of the vector can be raised.
fn may_rise(vector: &Vector) -> bool
    ensures { result ≡ true → (partition : ℕ) → partition < MOST_PARTITIONS →
        number_at vector.now partition ≤ u64.MAX - 1 }
{
    for partition in 0..MOST_PARTITIONS {
        if vector.at(partition) == u64::MAX {
            return false;
        }
    }
    true
}

/// Applies a log where it is ready.
fn apply(replica: &mut Replica, log: &Log) -> Result<bool, NoMemory> {
    if !replica.ready(log) || !may_rise(replica.vector()) {
        return Ok(false);
    }
    replica.apply(log)?;
    Ok(true)
}

/// The vector that a replica has after these logs, where each is ready in its turn.
fn vector_after(alloc: Global, logs: &[Log], to: &Replica) -> Result<Option<Vector>, NoMemory>
    ensures ready { IfOk result (λ found. IfSome found (λ _. AreReadyInTurn (u64.MAX - 1) to.now.vector logs.now)) }
    ensures vector { IfOk result (λ found. IfSome found (λ vector.
        (applied_all logs.now to.now).vector ≡ vector)) }
{
    let mut copy = fetch_one(alloc, to.store(), to.vector(), to.kept())?;
    for log in logs {
        if !copy.ready(log) || !may_rise(copy.vector()) {
            return Ok(None);
        }
        copy.apply(log)?;
    }
    Ok(Some(*copy.vector()))
}

/// Pulls where the kept logs lead to the vector of the other.
fn pull(alloc: Global, from: &Replica, to: &mut Replica) -> Result<Option<u64>, NoMemory> {
    let logs = from.kept().missing_after(alloc, to.vector())?;
    match vector_after(alloc, logs.as_slice(), to)? {
        Some(vector) if &vector == from.vector() => {
            let count = pull_one(alloc, &vector, from.kept(), to)?;
            Ok(Some(count))
        }
        _ => Ok(None),
    }
}

/// Whether the kept logs are of these packets, in this order.
fn are(kept: &Kept, origins: &[u32]) -> bool {
    if kept.len() != origins.len() {
        return false;
    }
    for place in 0..kept.len() {
        if kept.at(place).origin() != origins[place] {
            return false;
        }
    }
    true
}

/// The value at the key of a partition.
fn value_at(replica: &Replica, partition: u8) -> Option<Value> {
    replica.store().get(&Key::new(&[partition]).unwrap())
}

/// A replica to which three logs were applied.
fn applied(rt: &impl Abort, alloc: Global) -> Result<Replica, NoMemory> {
    let mut replica = Replica::new(alloc, 4);
    three_are_applied(rt, &mut replica)?;
    Ok(replica)
}

/// Three logs are applied in their order.
fn three_are_applied(rt: &impl Abort, replica: &mut Replica) -> Result<(), NoMemory> {
    for log in [log(7, 2, 0), log(5, 1, 0), log(6, 1, 1)] {
        assert!(rt; apply(replica, &log)?);
    }
    Ok(())
}

/// A replica has what the three logs put at the keys of the partitions.
fn has_values(rt: &impl Abort, replica: &Replica) {
    assert_eq!(rt;
        [value_at(replica, 1), value_at(replica, 2)],
        [Value::new(&[6]), Value::new(&[7])]
    );
}

/// A replica has the vector of another, and kept the logs of these packets.
fn is_equal(rt: &impl Abort, replica: &Replica, other: &Replica, origins: &[u32]) {
    assert!(rt; replica.vector() == other.vector() && are(replica.kept(), origins));
}

#[test]
fn an_equal_replica(rt: HostRuntime) {
    let from = applied(&rt, rt.alloc()).expect(&rt, "memory");
    let copy = fetch_one(rt.alloc(), from.store(), from.vector(), from.kept()).expect(
        &rt, "memory",
    );
    is_equal(&rt, &copy, &from, &[7, 5, 6]);
    has_values(&rt, &copy);
    let vector = copy.vector();
    assert_eq!(rt;
        (
            vector.at(1),
            vector.at(2),
            copy.store().partitions(),
            value_at(&copy, 3)
        ),
        (2, 1, 4, None)
    );
}

/// So many logs are pulled, and then the replica is equal to the other.
fn pulls(
    rt: &impl Abort,
    alloc: Global,
    from: &Replica,
    to: &mut Replica,
    count: u64,
) -> Result<(), NoMemory> {
    assert_eq!(rt; pull(alloc, from, to)?, Some(count));
    is_equal(rt, to, from, &[5, 7, 6]);
    Ok(())
}

#[test]
fn only_what_is_lacking(rt: HostRuntime) {
    let from = applied(&rt, rt.alloc()).expect(&rt, "memory");
    let mut to = Replica::new(rt.alloc(), 4);
    assert!(rt; apply(&mut to, &log(5, 1, 0)).expect(&rt, "memory"));
    pulls(&rt, rt.alloc(), &from, &mut to, 2).expect(&rt, "memory");
    has_values(&rt, &to);
    pulls(&rt, rt.alloc(), &from, &mut to, 0).expect(&rt, "memory");
}
