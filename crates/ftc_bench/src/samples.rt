//! What the calls are timed on.

ghost use Rattle.std.specs.Prelude.{◌≡◌, ◌≤◌, ℕ, true, Some, IfSome};
ghost use Rattle.ftc_base.specs.Sets.{has};
ghost use Rattle.ftc_vector.specs.Vector.{mark_at};
ghost use Rattle.ftc_message.specs.Bounds.{MarksSome};
ghost use Rattle.ftc_message.specs.WellFormed.{IsWellFormed};

use ftc_base::limits::{MOST_PARTITIONS, MOST_SERVERS};
use ftc_base::{Bytes, Key, PartSet, ServerId, Value, Write, Writes};
use ftc_message::{Log, Logs, Message, Needs};
use ftc_replica::Kept;
use ftc_vector::{Commits, Marks, Vector};
use std::alloc::Global;

/// The number of partition 1.
fn marks(number: u64) -> Marks
    ensures here { mark_at result 1 ≡ Some number }
    ensures some { MarksSome result }
{
    let mut marks = Marks::new();
    marks.set(1, number);
    marks
}

/// Partition 1.
fn changed() -> PartSet
    ensures { (partition : ℕ) → has result partition ≡ true → partition ≡ 1 }
{
    PartSet::new().with(1)
}

/// The log of group 0 that changed partition 1, which had that number before.
pub fn one_log(number: u32) -> Log
    ensures { MarksSome result.before }
{
    let mut writes = Writes::new();
    writes.push(Write {
        key: Key::new(&[0x6d, 0, 2]).unwrap(),
        value: Value::new(&[0, 0, 0, 0, 0, 0, 0, 8]),
    });
    let group = ServerId::new(0).unwrap();
    Log::new(group, number, marks(u64::from(number)), changed(), writes)
}

/// So many logs, of rising numbers.
pub fn kept_logs(alloc: Global, count: u32) -> Option<Kept> {
    let mut kept = Kept::new(alloc);
    for number in 0..count {
        kept.add(one_log(number)).ok()?;
    }
    Some(kept)
}

/// The number 7 in each of the first partitions.
fn numbers(partitions: u8) -> Vector
    requires { partitions ≤ MOST_PARTITIONS }
{
    let mut vector = Vector::zero();
    for partition in 0..partitions {
        vector.set(partition, 7);
    }
    vector
}

/// A message with two logs and 64 bytes, whose sender knew these numbers of the first groups.
pub fn message(alloc: Global, groups: u8, partitions: u8) -> Option<Message>
    requires groups { groups ≤ MOST_SERVERS }
    requires partitions { partitions ≤ MOST_PARTITIONS }
    ensures { IfSome result IsWellFormed }
{
    let mut packet = Bytes::new(alloc);
    packet.append(&[0xaa; 64]).ok()?;
    let mut logs = Logs::new(alloc);
    logs.push(one_log(7)).ok()?;
    let mut commits = Commits::new(alloc).ok()?;
    for group in 0..groups {
        commits.raise(ServerId::new(group).unwrap(), &numbers(partitions));
    }
    Some(Message {
        origin: 4,
        packet: Some(packet),
        logs,
        needs: Needs::new(alloc),
        commits,
    })
}
