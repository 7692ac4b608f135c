ghost use Rattle.std.specs.Prelude.{◌≡◌, ◌<◌, true};
ghost use Rattle.ftc_message.specs.Ordered.{AreApart};

use crate::{Buffer, Forwarder, propagating};
use ftc_base::limits::{MOST_PARTITIONS, MOST_SERVERS};
use ftc_base::{Bytes, NoMemory, PacketNo, PartSet, ServerId, Writes};
use ftc_message::{Log, Logs, Message, Need, Needs};
use ftc_vector::{Commits, Marks, Vector};
use std::alloc::Global;
use std::test::Fail;

/// The server of that number.
fn server(number: u8) -> ServerId
    requires { number < MOST_SERVERS }
{
    ServerId::new(number).unwrap()
}

/// What is needed of one partition of a group.
fn need(group: u8, partition: u8, number: u64) -> Need
    requires group { group < MOST_SERVERS }
    requires partition { partition < MOST_PARTITIONS }
{
    let mut marks = Marks::new();
    marks.set(partition, number);
    Need {
        group: server(group),
        marks,
    }
}

/// The tail of a group is known to have that number in one partition.
fn know(commits: &mut Commits, group: u8, partition: u8, number: u64)
    requires group { group < MOST_SERVERS }
    requires partition { partition < MOST_PARTITIONS }
{
    let mut vector = Vector::zero();
    vector.set(partition, number);
    commits.raise(server(group), &vector);
}

/// Withholds a packet of one byte, which needs these.
fn withhold(
    buffer: &mut Buffer,
    alloc: Global,
    packet: u8,
    needs: &[Need],
) -> Result<(), NoMemory> {
    let mut bytes = Bytes::new(alloc);
    bytes.append(&[packet])?;
    let mut list = Needs::new(alloc);
    for need in needs {
        if !list.has(need.group) {
            list.insert(*need)?;
        }
    }
    buffer.reserve(1)?;
    buffer.withhold(PacketNo::from(packet), bytes, list);
    Ok(())
}

/// Releases the packet that is due, which has to be this one with its byte.
fn releases(buffer: &mut Buffer, commits: &Commits, packet: u8) -> bool {
    if buffer.due(commits) != Some(PacketNo::from(packet)) {
        return false;
    }
    match buffer.release(commits) {
        Some(freed) => {
            freed.packet == PacketNo::from(packet) && freed.bytes.as_slice() == [packet].as_slice()
        }
        None => false,
    }
}

#[test]
fn the_first_that_is_due_leaves(rt: HostRuntime) -> Result<(), Fail> {
    let mut buffer = Buffer::new(rt.alloc());
    let mut commits = Commits::new(rt.alloc())?;
    assert!(rt; buffer.due(&commits).is_none() && buffer.release(&commits).is_none());
    withhold(&mut buffer, rt.alloc(), 4, &[need(0, 1, 2), need(2, 5, 1)])?;
    withhold(&mut buffer, rt.alloc(), 5, &[need(1, 0, 1)])?;
    withhold(&mut buffer, rt.alloc(), 6, &[need(0, 1, 1)])?;
    // Nothing is known.
    assert!(rt; buffer.due(&commits).is_none() && buffer.release(&commits).is_none());
    assert_eq!(rt; buffer.withheld(), 3);
    // One of the two needs of the first, and another group's numbers in the place of those of the second.
    know(&mut commits, 0, 1, 2);
    know(&mut commits, 0, 0, 7);
    assert!(rt; releases(&mut buffer, &commits, 6));
    assert_eq!(rt; buffer.due(&commits), None);
    // Now both are due.
    know(&mut commits, 1, 0, 1);
    know(&mut commits, 2, 5, 3);
    assert!(rt; releases(&mut buffer, &commits, 4));
    assert!(rt; releases(&mut buffer, &commits, 5));
    assert_eq!(rt; buffer.withheld(), 0);
    // A packet without needs is due at once.
    withhold(&mut buffer, rt.alloc(), 7, &[])?;
    assert!(rt; releases(&mut buffer, &Commits::new(rt.alloc())?, 7));
    Ok(())
}

/// How many packets stand in the row: more than are near the front.
const ROW: u32 = 150;

/// What the packet of that place in the row needs of a group: its turn in one of 16 partitions, and 1 in another.
fn need_of_turn(group: u8, place: u32) -> Need
    requires { group < MOST_SERVERS }
{
    let mut need = need(group, 40, 1);
    need.marks
        .set((place % 16) as u8, u64::from(place / 16) + 1);
    need
}

/// Withholds the packet of that place in the row, which needs its turn in two groups.
fn withhold_turn(buffer: &mut Buffer, alloc: Global, place: u32) -> Result<(), NoMemory> {
    let mut needs = Needs::new(alloc);
    for group in 1..3 {
        let need = need_of_turn(group, place);
        if !needs.has(need.group) {
            needs.insert(need)?;
        }
    }
    buffer.reserve(1)?;
    buffer.withhold(place, Bytes::new(alloc), needs);
    Ok(())
}

/// The tail of a group is known to have had the turn of the packet of that place in the row.
fn know_turn(commits: &mut Commits, group: u8, place: u32)
    requires { group < MOST_SERVERS }
{
    know(commits, group, 40, 1);
    know(
        commits,
        group,
        (place % 16) as u8,
        u64::from(place / 16) + 1,
    );
}

#[test]
fn a_row_leaves_in_turn(rt: HostRuntime) -> Result<(), Fail> {
    let mut buffer = Buffer::new(rt.alloc());
    let nothing = Commits::new(rt.alloc())?;
    let mut commits = Commits::new(rt.alloc())?;
    for place in 0..ROW {
        withhold_turn(&mut buffer, rt.alloc(), place)?;
        assert!(rt; buffer.release(&commits).is_none());
    }
    for place in 0..ROW {
        know_turn(&mut commits, 1, place);
        assert!(rt; buffer.release(&commits).is_none());
        know_turn(&mut commits, 2, place);
        // What was known once may be unknown again.
        assert!(rt; buffer.release(&nothing).is_none());
        assert_eq!(rt; buffer.due(&commits), Some(place));
        assert_eq!(rt;
            buffer.release(&commits).map(|freed| freed.packet),
            Some(place)
        );
        assert!(rt; buffer.due(&commits).is_none());
    }
    assert_eq!(rt; buffer.withheld(), 0);
    Ok(())
}

/// A log without writes.
fn log(origin: PacketNo, group: ServerId) -> Log {
    Log::new(group, origin, Marks::new(), PartSet::new(), Writes::new())
}

/// Puts the log of that packet and group at its place, where there is none.
fn put(logs: &mut Logs, origin: PacketNo, group: ServerId) -> Result<(), NoMemory> {
    let log = log(origin, group);
    if logs.has(log.origin(), log.group()) {
        return Ok(());
    }
    logs.insert(log)
}

/// The logs of these packets and groups.
fn logs_of(alloc: Global, names: &[(PacketNo, ServerId)]) -> Result<Logs, NoMemory> {
    let mut logs = Logs::new(alloc);
    for name in names {
        put(&mut logs, name.0, name.1)?;
    }
    Ok(logs)
}

/// Whether the logs are those of these packets and groups, in this order.
fn are(logs: &Logs, names: &[(PacketNo, ServerId)]) -> bool {
    if logs.len() != names.len() {
        return false;
    }
    for (log, name) in logs.as_slice().iter().zip(names) {
        if log.origin() != name.0 || log.group() != name.1 {
            return false;
        }
    }
    true
}

/// Whether no log has its packet and its group among the others.
fn are_apart(logs: &[Log], others: &Logs) -> bool
    ensures { result ≡ true → AreApart logs.now others.now }
{
    for log in logs {
        if others.has(log.origin(), log.group()) {
            return false;
        }
    }
    true
}

/// Has logs carried, none of which is carried already.
fn carry(forwarder: &mut Forwarder, logs: &Logs) -> Result<(), Fail> {
    if !are_apart(logs.as_slice(), forwarder.carried()) {
        return Err(Fail::from("a log is carried twice"));
    }
    forwarder.carry(logs)?;
    Ok(())
}

/// Attaches the logs to a message, which has none of them.
fn attach(forwarder: &Forwarder, message: &mut Message) -> Result<(), Fail> {
    if !are_apart(forwarder.carried().as_slice(), &message.logs) {
        return Err(Fail::from("a log is attached twice"));
    }
    forwarder.attach(message)?;
    Ok(())
}

#[test]
fn logs_go_round(rt: HostRuntime) -> Result<(), Fail> {
    let (one, two, three) = (server(1), server(2), server(3));
    let mut forwarder = Forwarder::new(rt.alloc());
    carry(&mut forwarder, &logs_of(rt.alloc(), &[(4, two), (7, one)])?)?;
    carry(
        &mut forwarder,
        &logs_of(rt.alloc(), &[(4, one), (5, three)])?,
    )?;
    assert!(rt;
        are(
            forwarder.carried(),
            &[(4, one), (4, two), (5, three), (7, one)]
        )
    );
    let mut message = propagating(rt.alloc(), 9)?;
    assert!(rt; message.origin == 9 && message.packet.is_none() && message.logs.is_empty());
    assert!(rt; message.needs.is_empty() && message.commits == Commits::new(rt.alloc())?);
    put(&mut message.logs, 5, two)?;
    attach(&forwarder, &mut message)?;
    assert!(rt;
        are(
            &message.logs,
            &[(4, one), (4, two), (5, two), (5, three), (7, one)]
        )
    );
    assert_eq!(rt; forwarder.logs(), 4);
    forwarder.clear();
    assert_eq!(rt; forwarder.logs(), 0);
    let mut another = propagating(rt.alloc(), 10)?;
    attach(&forwarder, &mut another)?;
    assert!(rt; another.logs.is_empty());
    Ok(())
}
