ghost use Rattle.std.specs.Prelude.{◌≡◌, ◌<◌, ◌==◌, not};
ghost use Rattle.std.specs.List.{list_all};

use super::{id, marks, may_rise, only};
use crate::{Server, Work};
use ftc_base::limits::MOST_PARTITIONS;
use ftc_base::{Key, NoMemory, PacketNo, PartSet, ServerId, Value, Write, Writes};
use ftc_mbox::Rule;
use ftc_message::{Log, Logs, Message, Needs};
use ftc_ring::Ring;
use ftc_vector::Commits;
use std::alloc::Global;
use std::test::Fail;

/// The log of the last server's group that changed one partition, which had that number before.
fn change(origin: u8, partition: u8, number: u64) -> Log
    requires { partition < MOST_PARTITIONS }
{
    let mut writes = Writes::new();
    writes.push(Write {
        key: Key::new(&[partition]).unwrap(),
        value: Value::new(&[origin]),
    });
    Log::new(
        id(2),
        u32::from(origin),
        marks(partition, number),
        only(partition),
        writes,
    )
}

/// The log of the last server's group that read one partition, which had that number.
fn look(origin: u8, partition: u8, number: u64) -> Log
    requires { partition < MOST_PARTITIONS }
{
    Log::new(
        id(2),
        u32::from(origin),
        marks(partition, number),
        PartSet::new(),
        Writes::new(),
    )
}

/// Whether no log is of that group.
fn has_no_log(logs: &Logs, group: ServerId) -> bool
    ensures { result ≡ list_all (λ log. not (log.group == group)) logs.now }
{
    logs.as_slice().iter().all(|log| log.group() != group)
}

/// Whether no need is of that group.
fn has_no_need(needs: &Needs, group: ServerId) -> bool
    ensures { result ≡ list_all (λ need. not (need.group == group)) needs.now }
{
    needs.as_slice().iter().all(|need| need.group != group)
}

/// A server takes a message, where it may.
fn take(server: &mut Server, message: Message) -> Result<bool, NoMemory> {
    server.make_room(message.logs.len())?;
    if server.message(message.origin).is_some()
        || !has_no_log(&message.logs, server.id)
        || !has_no_need(&message.needs, server.id)
    {
        return Ok(false);
    }
    server.take(message, false);
    Ok(true)
}

/// A server takes a message of that origin with one log.
fn come(server: &mut Server, alloc: Global, origin: PacketNo, log: Log) -> Result<bool, NoMemory> {
    let mut logs = Logs::new(alloc);
    logs.push(log)?;
    take(
        server,
        Message {
            origin,
            packet: None,
            logs,
            needs: Needs::new(alloc),
            commits: Commits::new(alloc)?,
        },
    )
}

/// A server applies the log of that packet, which a message of it has, where it may.
fn apply(server: &mut Server, origin: PacketNo, packet: PacketNo) -> Result<bool, NoMemory> {
    if !server.may_apply(origin, id(2), packet) || !may_rise(server.vector_of(id(2))) {
        return Ok(false);
    }
    server.apply(origin, id(2), packet)?;
    Ok(true)
}

/// A message goes from one server to another, where that is its work.
fn hand_on(from: &mut Server, to: &mut Server, origin: PacketNo) -> Result<bool, NoMemory> {
    if from.forwarded() != 0 {
        return Ok(false);
    }
    let Some(message) = from.outgoing(origin)? else {
        return Ok(false);
    };
    if from.work_of(origin) != Some(Work::Send) {
        return Ok(false);
    }
    from.pass(origin);
    take(to, message)
}

/// What a server has of the first partitions of the last server's group.
fn numbers(server: &Server) -> [u64; 4] {
    let vector = server.vector_of(id(2));
    [vector.at(0), vector.at(1), vector.at(2), vector.at(3)]
}

#[test]
fn logs_out_of_order_through_two(rt: HostRuntime) -> Result<(), Fail> {
    let ring = Ring::new(3, 2).unwrap();
    let mut first = Server::new(rt.alloc(), &ring, id(0), &Rule::Pass, 4)?;
    let mut second = Server::new(rt.alloc(), &ring, id(1), &Rule::Pass, 4)?;
    assert!(rt; come(&mut first, rt.alloc(), 6, change(6, 1, 1))?);
    assert!(rt; come(&mut first, rt.alloc(), 5, change(5, 1, 0))?);
    assert!(rt; come(&mut first, rt.alloc(), 7, change(7, 2, 0))?);
    assert_eq!(rt; (first.work_of(6), first.first_work()), (None, Some(5)));
    assert!(rt; !hand_on(&mut first, &mut second, 6)?);
    assert!(rt; apply(&mut first, 7, 7)? && !apply(&mut first, 6, 6)? && apply(&mut first, 5, 5)?);
    assert_eq!(rt; first.first_work(), Some(6));
    assert!(rt; apply(&mut first, 6, 6)?);
    assert_eq!(rt; numbers(&first), [0, 2, 1, 0]);
    assert!(rt; hand_on(&mut first, &mut second, 6)? && hand_on(&mut first, &mut second, 5)?);
    assert_eq!(rt; (first.held(), first.first_work()), (1, Some(7)));
    assert_eq!(rt; (second.work_of(6), second.first_work()), (None, Some(5)));
    assert!(rt; apply(&mut second, 5, 5)?);
    assert_eq!(rt; second.first_work(), Some(6));
    assert!(rt; apply(&mut second, 6, 6)?);
    assert_eq!(rt; numbers(&second), [0, 2, 0, 0]);
    Ok(())
}

#[test]
fn reads_wait_for_a_number(rt: HostRuntime) -> Result<(), Fail> {
    let ring = Ring::new(3, 2).unwrap();
    let mut first = Server::new(rt.alloc(), &ring, id(0), &Rule::Pass, 4)?;
    let mut second = Server::new(rt.alloc(), &ring, id(1), &Rule::Pass, 4)?;
    for number in 0..4 {
        assert!(rt;
            come(
                &mut second,
                rt.alloc(),
                u32::from(number),
                change(number, 1, u64::from(number))
            )?
        );
        assert!(rt; apply(&mut second, u32::from(number), u32::from(number))?);
    }
    assert!(rt; come(&mut second, rt.alloc(), 10, look(7, 1, 5))?);
    assert!(rt; come(&mut second, rt.alloc(), 11, look(8, 1, 6))?);
    assert!(rt; come(&mut second, rt.alloc(), 12, look(9, 1, 5))?);
    assert!(rt; come(&mut first, rt.alloc(), 4, change(4, 1, 0))?);
    assert!(rt; apply(&mut first, 4, 4)? && hand_on(&mut first, &mut second, 4)?);
    assert_eq!(rt; numbers(&second), [0, 4, 0, 0]);
    assert!(rt; come(&mut second, rt.alloc(), 5, change(5, 1, 4))?);
    assert!(rt; !apply(&mut second, 4, 4)? && apply(&mut second, 5, 5)?);
    assert_eq!(rt;
        (second.work_of(10), second.work_of(11), second.work_of(12)),
        (Some(Work::Send), None, Some(Work::Send))
    );
    Ok(())
}
