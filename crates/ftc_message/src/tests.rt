ghost use Rattle.std.specs.Prelude.{◌≡◌, ◌<◌, ℕ, true, Some, IfOk};
ghost use Rattle.ftc_base.specs.Sets.{has};
ghost use Rattle.ftc_vector.specs.Vector.{mark_at};
ghost use Rattle.ftc_message.specs.Bounds.{MarksSome};
ghost use Rattle.ftc_message.specs.WellFormed.{IsWellFormed};

use crate::{
    FieldFault, FrameCause, FrameFault, Log, Logs, Message, Need, Needs, Seen, append_commits,
    append_log, append_needs, commits_at, decode, encode, log_at, needs_at,
};
use ftc_base::{
    Bytes, Key, NoMemory, PacketNo, PartSet, Refuse, ServerId, ServerSet, Value, Write, Writes,
};
use ftc_vector::{Commits, Marks, Vector};
use std::alloc::Global;
use std::process::Abort;
use std::test::*;

/// The frame of the message that `message` makes.
const FRAME: [u8; 74] = [
    0x46, 0x54, 0x43, 0x33, 0, 0, 0, 0, 4, 0, 0, 0, 2, 0xaa, 0xbb, // magic to packet
    0, 0, 0, 1, 0, 0, 0, 0, 4, 1, 3, 1, 0, 0, 0, 0, 0, 0, 0, 7, // the log and its partition
    1, 3, 0x6d, 0, 2, 1, 8, 0, 0, 0, 0, 0, 0, 0, 8, // the log's write
    1, 0, 1, 3, 0, 0, 0, 0, 0, 0, 0, 8, // the need
    1, 2, 1, 1, 0, 0, 0, 0, 0, 0, 0, 5, // the commit
];

/// The number of partition 3.
fn marks(number: u64) -> Marks
    ensures here { mark_at result 3 ≡ Some number }
    ensures some { MarksSome result }
{
    let mut marks = Marks::new();
    marks.set(3, number);
    marks
}

/// Partition 3.
fn changed() -> PartSet
    ensures { (partition : ℕ) → has result partition ≡ true → partition ≡ 3 }
{
    PartSet::new().with(3)
}

/// The log that changed partition 3.
fn log() -> Log
    ensures { MarksSome result.before }
{
    let mut writes = Writes::new();
    writes.push(Write {
        key: Key::new(&[0x6d, 0, 2]).unwrap(),
        value: Value::new(&[0, 0, 0, 0, 0, 0, 0, 8]),
    });
    let group = ServerId::new(0).unwrap();
    Log::new(group, 4, marks(7), changed(), writes)
}

/// What is known of the tail of group 2.
fn commits(alloc: Global) -> Result<Commits, NoMemory> {
    let mut vector = Vector::zero();
    vector.set(1, 5);
    let mut commits = Commits::new(alloc)?;
    commits.raise(ServerId::new(2).unwrap(), &vector);
    Ok(commits)
}

/// What is needed of the tail of group 0.
fn need() -> Need
    ensures { MarksSome result.marks }
{
    Need {
        group: ServerId::new(0).unwrap(),
        marks: marks(8),
    }
}

/// That need alone.
fn needs(alloc: Global) -> Result<Needs, NoMemory> {
    let mut needs = Needs::new(alloc);
    needs.push(need())?;
    Ok(needs)
}

/// The message of the frame.
fn message(alloc: Global) -> Result<Message, NoMemory>
    ensures { IfOk result IsWellFormed }
{
    let mut packet = Bytes::new(alloc);
    packet.append(&[0xaa, 0xbb])?;
    let mut logs = Logs::new(alloc);
    logs.push(log())?;
    let mut needs = Needs::new(alloc);
    needs.push(need())?;
    Ok(Message {
        origin: 4,
        packet: Some(packet),
        logs,
        needs,
        commits: commits(alloc)?,
    })
}

/// The packet of a message, where it has one.
fn packet_of(message: &Message) -> &[u8] {
    match &message.packet {
        None => &[],
        Some(packet) => packet.as_slice(),
    }
}

/// A message has the parts of the frame's message.
fn has_parts(rt: &impl Abort, message: &Message, known: &Commits) {
    let packet = packet_of(message) == [0xaa, 0xbb].as_slice();
    assert_eq!(rt;
        (
            message.origin,
            packet,
            message.logs.len(),
            message.commits == *known
        ),
        (4, true, 1, true)
    );
    for log in message.logs.as_slice() {
        has_log_parts(rt, log);
    }
    has_needs(rt, &message.needs);
}

/// The needs are those of the frame.
fn has_needs(rt: &impl Abort, needs: &Needs) {
    assert_eq!(rt; needs.as_slice(), [need()].as_slice());
}

/// A log is the one of the frame.
fn has_log_parts(rt: &impl Abort, log: &Log) {
    assert_eq!(rt;
        (
            log.group().number(),
            log.origin(),
            log.changed() == changed()
        ),
        (0, 4, true)
    );
    assert!(rt; log.before() == &marks(7));
    let key = Key::new(&[0x6d, 0, 2]).unwrap();
    let value = Value::new(&[0, 0, 0, 0, 0, 0, 0, 8]);
    assert_eq!(rt; log.writes().as_slice(), [Write { key, value }].as_slice());
}

/// Whether a message has that frame.
fn is_frame_of(alloc: Global, message: &Message, frame: &[u8]) -> Result<bool, NoMemory>
    requires { IsWellFormed message.now }
{
    Ok(encode(alloc, message)?.as_slice() == frame)
}

#[test]
fn one_message_makes_its_frame(rt: HostRuntime) {
    let message = message(rt.alloc()).expect(&rt, "memory");
    assert!(rt; is_frame_of(rt.alloc(), &message, &FRAME).expect(&rt, "memory"));
}

/// Whether the frame is read as that message.
fn is_read_as(alloc: Global, message: &Message) -> bool {
    match decode(alloc, &FRAME) {
        Ok(read) => read == *message,
        Err(_) => false,
    }
}

#[test]
fn one_frame_is_read_as_its_message(rt: HostRuntime) {
    let mut made = message(rt.alloc()).expect(&rt, "memory");
    assert!(rt; is_read_as(rt.alloc(), &made));
    made.origin = 5;
    assert!(rt; !is_read_as(rt.alloc(), &made));
}

#[test]
fn one_frame_is_read_part_by_part(rt: HostRuntime) {
    let known = commits(rt.alloc()).expect(&rt, "memory");
    let read = decode(rt.alloc(), &FRAME).expect(&rt, "a frame");
    has_parts(&rt, &read, &known);
}

/// Bytes are refused for the fault at that byte.
fn is_refused(rt: &impl Abort, alloc: Global, frame: &[u8], at: u64, cause: FrameCause) {
    assert_eq!(rt;
        decode(alloc, frame).err(),
        Some(Refuse::Bad(FrameFault { at, cause }))
    );
}

#[test]
fn one_byte_that_is_no_frame(rt: HostRuntime) {
    let table = [
        (0, 0x47, FrameCause::Magic),
        (19, 0x10, FrameCause::Range),
        (25, 0x40, FrameCause::Range),
        (26, 0x02, FrameCause::Range),
        (35, 0x09, FrameCause::Range),
        (36, 0x00, FrameCause::Range),
        (40, 0x02, FrameCause::Range),
    ];
    for (place, byte, cause) in table {
        let mut frame = FRAME;
        frame[place] = byte;
        is_refused(&rt, rt.alloc(), &frame, place as u64, cause);
    }
    for (size, at) in [(2, 0), (41, 41), (73, 66)] {
        is_refused(&rt, rt.alloc(), &FRAME[..size], at, FrameCause::Cut);
    }
}

#[test]
fn other_bytes_that_are_no_frame(rt: HostRuntime) {
    let mut none = [
        0x46, 0x54, 0x43, 0x33, 1, 0, 0, 0, 4, 0, 0, 0, 0, 0xff, 0xff, 0xff, 0xff,
    ];
    is_refused(&rt, rt.alloc(), &none, 17, FrameCause::Cut);
    none[4] = 2;
    is_refused(&rt, rt.alloc(), &none, 4, FrameCause::Range);
    none[4] = 1;
    none[12] = 1;
    is_refused(&rt, rt.alloc(), &none, 9, FrameCause::Range);
    let mut zero = FRAME;
    zero[73] = 0;
    is_refused(&rt, rt.alloc(), &zero, 66, FrameCause::Range);
}

/// The bytes of several pieces, one behind the other.
fn joined(alloc: Global, pieces: &[&[u8]]) -> Result<Bytes, NoMemory> {
    let mut out = Bytes::new(alloc);
    for piece in pieces {
        out.append(piece)?;
    }
    Ok(out)
}

#[test]
fn a_partition_twice_is_no_frame(rt: HostRuntime) {
    let frame = joined(
        rt.alloc(),
        &[&FRAME[..24], &[2], &FRAME[25..35], &FRAME[25..]],
    )
    .expect(&rt, "memory");
    is_refused(&rt, rt.alloc(), frame.as_slice(), 35, FrameCause::Order);
}

#[test]
fn a_byte_more_is_no_frame(rt: HostRuntime) {
    let frame = joined(rt.alloc(), &[&FRAME, &[0]]).expect(&rt, "memory");
    is_refused(&rt, rt.alloc(), frame.as_slice(), 74, FrameCause::Trailing);
}

/// Whether bytes are refused, or are the frame of the message that they are read as.
fn is_refused_or_kept(alloc: Global, frame: &[u8]) -> Result<bool, NoMemory> {
    match decode(alloc, frame) {
        Ok(message) => is_frame_of(alloc, &message, frame),
        Err(Refuse::Bad(_)) => Ok(true),
        Err(Refuse::NoMemory) => Err(NoMemory),
    }
}

/// Whether the frame with another byte at a place, and the front of it up to there, are refused or kept.
fn are_refused_or_kept(alloc: Global, place: usize) -> Result<bool, NoMemory>
    requires { place < 74 }
{
    for byte in [0, 1, 2, 3, 4, 7, 8, 9, 16, 17, 63, 64, 128, 255] {
        let mut frame = FRAME;
        frame[place] = byte;
        if !is_refused_or_kept(alloc, &frame)? {
            return Ok(false);
        }
    }
    is_refused_or_kept(alloc, &FRAME[..place])
}

#[test]
fn more_than_a_thousand_changed_frames(rt: HostRuntime) {
    for place in 0..FRAME.len() {
        let are_right = are_refused_or_kept(rt.alloc(), place).expect(&rt, "memory");
        assert!(rt; are_right, "byte {place}");
    }
}

/// A log without writes.
fn log_of(origin: PacketNo, group: ServerId) -> Log {
    Log::new(group, origin, Marks::new(), PartSet::new(), Writes::new())
}

/// Puts a log where there is none of its packet and group.
fn put(logs: &mut Logs, log: Log) -> Result<(), NoMemory> {
    if logs.has(log.origin(), log.group()) {
        return Ok(());
    }
    logs.insert(log)
}

/// Three logs that were put in another order than theirs, and one of them twice.
fn three_logs(alloc: Global) -> Result<Logs, NoMemory> {
    let one = ServerId::new(1).unwrap();
    let two = ServerId::new(2).unwrap();
    let mut logs = Logs::new(alloc);
    for (origin, group) in [(7, one), (4, two), (4, one), (7, one)] {
        put(&mut logs, log_of(origin, group))?;
    }
    Ok(logs)
}

/// Whether there are three logs, of which the first is that of packet 4 and group 1.
fn are_in_order(logs: &Logs) -> bool {
    match logs.as_slice().first() {
        None => false,
        Some(first) => logs.len() == 3 && first.origin() == 4 && first.group().number() == 1,
    }
}

#[test]
fn logs_are_put_in_order(rt: HostRuntime) {
    let logs = three_logs(rt.alloc()).expect(&rt, "memory");
    assert!(rt; are_in_order(&logs));
}

#[test]
fn logs_are_found_by_packet_and_group(rt: HostRuntime) {
    let two = ServerId::new(2).unwrap();
    let logs = three_logs(rt.alloc()).expect(&rt, "memory");
    assert!(rt; logs.find(4, two).is_some() && logs.find(7, two).is_none());
}

#[test]
fn groups_are_dropped_from_logs_and_not_from_their_copy(rt: HostRuntime) {
    let mut logs = three_logs(rt.alloc()).expect(&rt, "memory");
    let copy = logs.copy(rt.alloc()).expect(&rt, "memory");
    logs.drop_groups(ServerSet::new().with(1));
    assert_eq!(rt; [logs.len(), copy.len()], [1, 3]);
    assert_eq!(rt; copy.into_vec().len(), 3);
}

/// The bytes of a log, of no needs and of commits.
fn parts(alloc: Global, known: &Commits) -> Result<Bytes, NoMemory> {
    let mut out = Bytes::new(alloc);
    append_log(&log(), &mut out)?;
    append_needs(&Needs::new(alloc), &mut out)?;
    append_commits(known, &mut out)?;
    Ok(out)
}

/// The bytes behind a log of packet 4.
fn behind_log(bytes: &[u8]) -> Option<&[u8]> {
    match log_at(&None, bytes) {
        Ok((log, rest)) if log.origin() == 4 => Some(rest),
        _ => None,
    }
}

/// The bytes behind no needs.
fn behind_no_needs(alloc: Global, bytes: &[u8]) -> Option<&[u8]> {
    match needs_at(alloc, 16, 0, bytes) {
        Ok((needs, rest)) if needs.is_empty() => Some(rest),
        _ => None,
    }
}

/// Whether the bytes are those of the commits and no more.
fn are_commits(alloc: Global, known: &Commits, bytes: &[u8]) -> bool {
    match commits_at(alloc, bytes) {
        Ok((read, rest)) => read == *known && rest.is_empty(),
        Err(_) => false,
    }
}

/// Whether the bytes are those of a log of packet 4, of no needs and of the commits.
fn are_parts(alloc: Global, known: &Commits, bytes: &[u8]) -> bool {
    match behind_log(bytes) {
        Some(rest) => match behind_no_needs(alloc, rest) {
            Some(rest) => are_commits(alloc, known, rest),
            None => false,
        },
        None => false,
    }
}

#[test]
fn parts_of_a_frame_both_ways(rt: HostRuntime) {
    let known = commits(rt.alloc()).expect(&rt, "memory");
    let out = parts(rt.alloc(), &known).expect(&rt, "memory");
    assert!(rt; are_parts(rt.alloc(), &known, out.as_slice()));
}

/// A fault that stands so many bytes before the end.
fn fault(left: usize, cause: FrameCause) -> FieldFault {
    FieldFault { left, cause }
}

/// Whether the bytes are those of the log and no more.
fn are_of_log(bytes: &[u8]) -> bool {
    match log_at(&None, bytes) {
        Ok((read, rest)) => read == log() && rest.is_empty(),
        Err(_) => false,
    }
}

/// Whether the log has those bytes.
fn is_spelled_log(alloc: Global, bytes: &[u8]) -> Result<bool, NoMemory> {
    let mut out = Bytes::new(alloc);
    append_log(&log(), &mut out)?;
    Ok(out.as_slice() == bytes)
}

#[test]
fn one_log_both_ways(rt: HostRuntime) {
    assert!(rt; is_spelled_log(rt.alloc(), &FRAME[19..50]).expect(&rt, "memory"));
    assert!(rt; are_of_log(&FRAME[19..50]));
}

#[test]
fn bytes_that_are_no_log(rt: HostRuntime) {
    let last = Some((4, ServerId::new(0).unwrap()));
    assert_eq!(rt;
        log_at(&last, &FRAME[19..50]).err(),
        Some(fault(31, FrameCause::Order))
    );
    assert_eq!(rt;
        log_at(&None, &FRAME[19..49]).err(),
        Some(fault(7, FrameCause::Cut))
    );
}

/// Whether the needs have those bytes, and are read from them.
fn are_of_needs(alloc: Global, needs: &Needs, bytes: &[u8]) -> Result<bool, NoMemory> {
    let mut out = Bytes::new(alloc);
    append_needs(needs, &mut out)?;
    match needs_at(alloc, 1, 8, bytes) {
        Ok((read, rest)) => Ok(out.as_slice() == bytes && read == *needs && rest.is_empty()),
        Err(_) => Ok(false),
    }
}

#[test]
fn one_need_both_ways(rt: HostRuntime) {
    let needs = needs(rt.alloc()).expect(&rt, "memory");
    assert!(rt; are_of_needs(rt.alloc(), &needs, &FRAME[50..62]).expect(&rt, "memory"));
}

#[test]
fn bytes_that_are_no_needs(rt: HostRuntime) {
    for (most, least, left) in [(0, 8, 12), (1, 9, 8)] {
        assert_eq!(rt;
            needs_at(rt.alloc(), most, least, &FRAME[50..62]).err(),
            Some(Refuse::Bad(fault(left, FrameCause::Range)))
        );
    }
}

/// Whether the commits have those bytes.
fn are_spelled_commits(alloc: Global, known: &Commits, bytes: &[u8]) -> Result<bool, NoMemory> {
    let mut out = Bytes::new(alloc);
    append_commits(known, &mut out)?;
    Ok(out.as_slice() == bytes)
}

#[test]
fn one_commit_both_ways(rt: HostRuntime) {
    let known = commits(rt.alloc()).expect(&rt, "memory");
    assert!(rt; are_spelled_commits(rt.alloc(), &known, &FRAME[62..]).expect(&rt, "memory"));
    assert!(rt; are_commits(rt.alloc(), &known, &FRAME[62..]));
}

#[test]
fn a_commit_of_zero_is_none(rt: HostRuntime) {
    let zero = [1, 2, 1, 1, 0, 0, 0, 0, 0, 0, 0, 0];
    assert_eq!(rt;
        commits_at(rt.alloc(), &zero).err(),
        Some(Refuse::Bad(fault(8, FrameCause::Range)))
    );
}

/// What was seen is the frame, and no front of it.
fn is_of_frame(rt: &impl Abort, seen: &Seen) {
    assert!(rt; seen.is_of(FRAME.as_slice()) && !seen.is_of(&FRAME[..73]));
    assert_eq!(rt; seen.message.origin, 4);
}

#[test]
fn a_frame_that_was_seen(rt: HostRuntime) {
    let seen = Seen::make(rt.alloc(), FRAME.as_slice()).expect(&rt, "a frame");
    is_of_frame(&rt, &seen);
}

#[test]
fn a_frame_that_is_cut_is_not_seen(rt: HostRuntime) {
    let cut = FrameFault {
        at: 66,
        cause: FrameCause::Cut,
    };
    assert_eq!(rt;
        Seen::make(rt.alloc(), &FRAME[..73]).err(),
        Some(Refuse::Bad(cut))
    );
}
