ghost use Rattle.std.specs.Prelude.{◌≡◌, ◌<◌, ℕ, true, IsSome};
ghost use Rattle.ftc_base.specs.Sets.{has};
ghost use Rattle.ftc_vector.specs.Vector.{mark_at};
ghost use Rattle.ftc_server.specs.Replicas.{may_rise};

mod handing;
mod resting;

use crate::{Server, Work, rising};
use ftc_base::limits::{MOST_PARTITIONS, MOST_SERVERS};
use ftc_base::{Key, NoMemory, PacketNo, PartSet, ServerId, Value, Write, Writes};
use ftc_mbox::Rule;
use ftc_message::{Log, Logs, Message, Needs};
use ftc_ring::Ring;
use ftc_vector::{Commits, Marks, Vector};
use std::alloc::Global;
use std::test::Fail;

/// The server of that number.
fn id(number: u8) -> ServerId
    requires { number < MOST_SERVERS }
    ensures { result ≡ number }
{
    ServerId::new(number).unwrap()
}

/// The number of one partition.
fn marks(partition: u8, number: u64) -> Marks
    requires { partition < MOST_PARTITIONS }
    ensures { IsSome (mark_at result partition) }
{
    let mut marks = Marks::new();
    marks.set(partition, number);
    marks
}

/// The set of one partition.
fn only(partition: u8) -> PartSet
    requires { partition < MOST_PARTITIONS }
    ensures { (other : ℕ) → has result other ≡ true → other ≡ partition }
{
    PartSet::new().with(partition)
}

/// The log of a packet that changed one partition, which had that number before.
fn change(origin: u8, partition: u8, number: u64) -> Log
    requires { partition < MOST_PARTITIONS }
{
    let mut writes = Writes::new();
    writes.push(Write {
        key: Key::new(&[partition]).unwrap(),
        value: Value::new(&[origin]),
    });
    Log::new(
        id(0),
        u32::from(origin),
        marks(partition, number),
        only(partition),
        writes,
    )
}

/// The log of a packet that read one partition, which had that number.
fn look(origin: u8, partition: u8, number: u64) -> Log
    requires { partition < MOST_PARTITIONS }
{
    Log::new(
        id(0),
        u32::from(origin),
        marks(partition, number),
        PartSet::new(),
        Writes::new(),
    )
}

/// Whether each number of the vector can be raised.
fn may_rise(vector: &Vector) -> bool
    ensures { result ≡ true → may_rise vector.now ≡ true }
{
    rising();
    // The contract of this call tells how long the vector is.
    let _ = vector.at(0);
    for partition in 0..MOST_PARTITIONS {
        if vector.at(partition) == u64::MAX {
            return false;
        }
    }
    true
}

/// A server takes a message of that origin with one log, where it may.
fn take(server: &mut Server, alloc: Global, origin: PacketNo, log: Log) -> Result<bool, NoMemory> {
    if server.message(origin).is_some() || log.group() == server.id {
        return Ok(false);
    }
    let mut logs = Logs::new(alloc);
    logs.push(log)?;
    let message = Message {
        origin,
        packet: None,
        logs,
        needs: Needs::new(alloc),
        commits: Commits::new(alloc)?,
    };
    server.make_room(1)?;
    server.take(message, false);
    Ok(true)
}

/// A server applies the log of a packet of group 0 that its message of that origin has, where it may.
fn apply(server: &mut Server, origin: PacketNo) -> Result<bool, NoMemory> {
    if !server.may_apply(origin, id(0), origin) || !may_rise(server.vector_of(id(0))) {
        return Ok(false);
    }
    server.apply(origin, id(0), origin)?;
    Ok(true)
}

#[test]
fn logs_out_of_order(rt: HostRuntime) -> Result<(), Fail> {
    let ring = Ring::new(2, 1).unwrap();
    let mut server = Server::new(rt.alloc(), &ring, id(1), &Rule::Pass, 4)?;
    assert!(rt; server.first_work().is_none() && server.held() == 0);
    assert!(rt; take(&mut server, rt.alloc(), 6, change(6, 1, 1))?);
    assert!(rt; take(&mut server, rt.alloc(), 5, change(5, 1, 0))?);
    assert!(rt; take(&mut server, rt.alloc(), 7, change(7, 2, 0))?);
    assert!(rt; !take(&mut server, rt.alloc(), 7, change(7, 2, 0))?);
    assert_eq!(rt; server.work_of(6), None);
    assert_eq!(rt; server.first_work(), Some(5));
    assert!(rt; apply(&mut server, 7)? && !apply(&mut server, 6)?);
    assert!(rt; apply(&mut server, 5)?);
    assert_eq!(rt; (server.held.had(5), server.held.had(6)), (1, 0));
    assert_eq!(rt; server.first_work(), Some(6));
    assert!(rt; apply(&mut server, 6)?);
    let vector = server.vector_of(id(0));
    assert_eq!(rt;
        [vector.at(0), vector.at(1), vector.at(2), vector.at(3)],
        [0, 2, 1, 0]
    );
    assert_eq!(rt; server.known().of(id(0)).at(1), 2);
    assert_eq!(rt; server.work_of(6), Some(Work::Send));
    Ok(())
}

#[test]
fn messages_that_wait(rt: HostRuntime) -> Result<(), Fail> {
    let ring = Ring::new(2, 1).unwrap();
    let mut server = Server::new(rt.alloc(), &ring, id(1), &Rule::Pass, 4)?;
    assert!(rt; take(&mut server, rt.alloc(), 10, look(7, 1, 1))?);
    assert!(rt; take(&mut server, rt.alloc(), 11, look(8, 1, 2))?);
    assert!(rt; take(&mut server, rt.alloc(), 12, look(9, 1, 1))?);
    assert_eq!(rt; server.first_work(), None);
    assert!(rt; take(&mut server, rt.alloc(), 5, change(5, 1, 0))?);
    assert_eq!(rt; server.first_work(), Some(5));
    assert!(rt; apply(&mut server, 5)?);
    assert_eq!(rt; server.first_work(), Some(10));
    assert_eq!(rt;
        (server.work_of(10), server.work_of(11), server.work_of(12)),
        (Some(Work::Send), None, Some(Work::Send))
    );
    Ok(())
}
