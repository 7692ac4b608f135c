ghost use Rattle.std.specs.Prelude.{IfOk};
ghost use Rattle.ftc_message.specs.WellFormed.{IsWellFormed};

use crate::{Link, Sent};
use ftc_base::{Bytes, NoMemory, ServerId};
use ftc_message::{Logs, Message, Needs, Seen, encode};
use ftc_vector::Commits;
use std::alloc::Global;
use std::process::Abort;

/// A message with a packet of two bytes, and nothing else.
fn message(alloc: Global, origin: u32) -> Result<Message, NoMemory>
    ensures { IfOk result IsWellFormed }
{
    let mut packet = Bytes::new(alloc);
    packet.append(&[0xaa, 0xbb])?;
    Ok(Message {
        origin,
        packet: Some(packet),
        logs: Logs::new(alloc),
        needs: Needs::new(alloc),
        commits: Commits::new(alloc)?,
    })
}

/// The message of that origin is sent, which ends so.
fn is_sent(
    rt: &impl Abort,
    alloc: Global,
    link: &mut Link,
    origin: u32,
    lost: Option<u32>,
    up: bool,
    wanted: Sent,
) {
    let message = message(alloc, origin).expect(rt, "memory");
    let sent = link.send(alloc, &message, lost, up).expect(rt, "memory");
    assert_eq!(rt; sent, wanted);
}

/// Whether it is the message of that origin.
fn is_message(message: &Message, origin: u32) -> bool {
    match &message.packet {
        Some(packet) => message.origin == origin && packet.as_slice() == [0xaa, 0xbb].as_slice(),
        None => false,
    }
}

/// Whether the message of that origin is taken.
fn takes(link: &mut Link, alloc: Global, origin: u32) -> Result<bool, NoMemory> {
    match link.take(alloc)? {
        Some(message) => Ok(is_message(&message, origin)),
        None => Ok(false),
    }
}

/// The message of that origin is taken.
fn is_taken(rt: &impl Abort, alloc: Global, link: &mut Link, origin: u32) {
    assert_eq!(rt; takes(link, alloc, origin).ok(), Some(true));
}

/// A link on which the messages 4 and 5 are queued.
fn two_queued(rt: &impl Abort, alloc: Global) -> Link {
    let mut link = Link::new(alloc, ServerId::new(2).unwrap());
    is_sent(rt, alloc, &mut link, 4, None, true, Sent::Sent);
    is_sent(rt, alloc, &mut link, 5, None, true, Sent::Sent);
    link
}

/// Nothing was sent on a link from server 2.
fn is_new(rt: &impl Abort, link: &Link) {
    assert_eq!(rt; (link.from().number(), link.oldest()), (2, None));
}

/// Two messages are queued, the oldest of which is 4 and has no logs.
fn has_two(rt: &impl Abort, link: &Link) {
    assert!(rt; !link.gap());
    assert_eq!(rt;
        (link.oldest(), link.logs(), link.len()),
        (Some(4), Some(0), 2)
    );
}

/// Nothing is left to take.
fn is_empty(rt: &impl Abort, alloc: Global, link: &mut Link) {
    let taken = link.take(alloc).expect(rt, "memory");
    assert!(rt; taken.is_none());
}

#[test]
fn sent_and_taken_in_order(rt: HostRuntime) {
    is_new(&rt, &Link::new(rt.alloc(), ServerId::new(2).unwrap()));
    let mut link = two_queued(&rt, rt.alloc());
    has_two(&rt, &link);
    is_taken(&rt, rt.alloc(), &mut link, 4);
    is_taken(&rt, rt.alloc(), &mut link, 5);
    is_empty(&rt, rt.alloc(), &mut link);
}

/// Nothing is queued behind a gap.
fn is_gap(rt: &impl Abort, link: &Link) {
    assert_eq!(rt;
        (link.gap(), link.oldest(), link.logs()),
        (true, None, None)
    );
}

#[test]
fn lost_and_down_leave_a_gap(rt: HostRuntime) {
    let mut link = Link::new(rt.alloc(), ServerId::new(0).unwrap());
    let lost = Sent::Lost { line: 3 };
    is_sent(&rt, rt.alloc(), &mut link, 4, Some(3), false, lost);
    is_gap(&rt, &link);
    link.set_gap(false);
    is_sent(&rt, rt.alloc(), &mut link, 4, None, false, Sent::Down);
    is_gap(&rt, &link);
    is_sent(&rt, rt.alloc(), &mut link, 4, None, true, Sent::Sent);
    link.clear();
    is_gap(&rt, &link);
}

/// The frame of a message.
fn frame_of(alloc: Global, origin: u32) -> Result<Bytes, NoMemory> {
    encode(alloc, &message(alloc, origin)?)
}

/// The oldest frame is that of the message of that origin.
fn shows(rt: &impl Abort, alloc: Global, link: &Link, origin: u32) {
    let frame = frame_of(alloc, origin).expect(rt, "memory");
    assert!(rt; link.frame() == Some(frame.as_slice()));
}

/// The origin of the message that is taken, where the frame of message 5 was seen.
fn taken_seen(rt: &impl Abort, link: &mut Link, alloc: Global) -> Option<u32> {
    let frame = frame_of(alloc, 5).expect(rt, "memory");
    let seen = Seen::make(alloc, frame.as_slice()).expect(rt, "a frame");
    let taken = link.take_seen(alloc, seen).expect(rt, "memory");
    match &taken {
        Some(message) => Some(message.origin),
        None => None,
    }
}

/// The message of that origin is taken, where the frame of message 5 was seen.
fn is_taken_seen(rt: &impl Abort, alloc: Global, link: &mut Link, origin: u32) {
    assert_eq!(rt; taken_seen(rt, link, alloc), Some(origin));
}

#[test]
fn seen_frames_are_taken_where_they_are_the_oldest(rt: HostRuntime) {
    let mut link = two_queued(&rt, rt.alloc());
    shows(&rt, rt.alloc(), &link, 4);
    is_taken_seen(&rt, rt.alloc(), &mut link, 4);
    shows(&rt, rt.alloc(), &link, 5);
    is_taken_seen(&rt, rt.alloc(), &mut link, 5);
    assert!(rt; link.frame().is_none());
}
