//! What the slots of a chain do, call by call.

use crate::tests::calls::{By, Call, Came, assert_ran, call_each};
use crate::tests::given::{Frame, one_monitor, two_monitors, two_passes};
use std::test::Fail;

const IDLE: [(Call, Came); 7] = [
    (Call::Reads(0), Came::Reads(None)),
    (Call::Look(63), Came::Packet(None)),
    (Call::AgesLeft(0), Came::Is(true)),
    // Server 3 isn't one of the chain: it can't run out of ages.
    (Call::AgesLeft(3), Came::Is(true)),
    (Call::IsRunning(0, 0), Came::Is(false)),
    (Call::IsRunning(3, 0), Came::Is(false)),
    (Call::Commit(0, By::Pass), Came::Idle),
];

#[test]
fn at_first_slots_are_idle(rt: HostRuntime) -> Result<(), Fail> {
    let alloc = rt.alloc();
    let ran = call_each(alloc, one_monitor(alloc)?, &[Frame::A], b"", &IDLE)?;
    assert_ran(&rt, &ran, b"");
    Ok(())
}

const READING: [(Call, Came); 8] = [
    (Call::Enter(0), Came::Is(true)),
    (Call::Begin(1, 0, 0), Came::Age(Some(0))),
    (Call::Look(1), Came::Packet(Some(Frame::A))),
    (Call::Read(1, Frame::C), Came::NotAsked),
    (Call::Read(1, Frame::A), Came::Count(None)),
    (Call::Reads(1), Came::Reads(Some(1))),
    // The rule has what it needs.
    (Call::Read(1, Frame::A), Came::NotAsked),
    (Call::Read(2, Frame::A), Came::Idle),
];

#[test]
fn a_slot_reads_what_the_rule_asks_for(rt: HostRuntime) -> Result<(), Fail> {
    let alloc = rt.alloc();
    let ran = call_each(alloc, one_monitor(alloc)?, &[Frame::A], b"", &READING)?;
    assert_ran(&rt, &ran, b"enter 0\n");
    Ok(())
}

const COMMITTING: [(Call, Came); 11] = [
    (Call::Enter(0), Came::Is(true)),
    (Call::Begin(5, 0, 0), Came::Age(Some(0))),
    // Before its read the rule asks for one.
    (Call::Commit(5, By::Pass), Came::Unfinished(Some(Frame::A))),
    (Call::Read(5, Frame::A), Came::Count(None)),
    (Call::Commit(5, By::Own), Came::Done),
    // What was done isn't done again.
    (Call::Reads(5), Came::Reads(None)),
    (Call::Commit(5, By::Pass), Came::Idle),
    (Call::Pass(0, 0), Came::Is(true)),
    (Call::Next, Came::NextNone),
    (Call::Drain, Came::Packet(Some(Frame::A))),
    (Call::Drain, Came::Packet(None)),
];

#[test]
fn a_commit_makes_the_visit_in_its_slot(rt: HostRuntime) -> Result<(), Fail> {
    let alloc = rt.alloc();
    let ran = call_each(alloc, one_monitor(alloc)?, &[Frame::A], b"", &COMMITTING)?;
    assert_ran(&rt, &ran, b"enter 0\nvisit 0 0 5\npass 0 0\nrelease 0\n");
    Ok(())
}

/// Slot 1 is older than slot 2.
const BLOCKING: [(Call, Came); 9] = [
    (Call::Enter(0), Came::Is(true)),
    (Call::Enter(1), Came::Is(true)),
    (Call::Begin(1, 0, 0), Came::Age(Some(0))),
    (Call::Begin(2, 0, 1), Came::Age(Some(1))),
    (Call::Read(1, Frame::A), Came::Count(None)),
    (Call::Read(2, Frame::A), Came::Blocked(1)),
    (Call::Commit(1, By::Own), Came::Done),
    (Call::Read(2, Frame::A), Came::Count(Some(1))),
    (Call::Commit(2, By::Own), Came::Done),
];

#[test]
fn the_younger_slot_is_blocked(rt: HostRuntime) -> Result<(), Fail> {
    let alloc = rt.alloc();
    let frames = [Frame::A, Frame::A];
    let ran = call_each(alloc, one_monitor(alloc)?, &frames, b"", &BLOCKING)?;
    assert_ran(&rt, &ran, b"enter 0\nenter 1\nvisit 0 0 1\nvisit 0 1 2\n");
    Ok(())
}

/// Slot 1 is older than slot 2.
const WOUNDING: [(Call, Came); 12] = [
    (Call::Enter(0), Came::Is(true)),
    (Call::Enter(1), Came::Is(true)),
    (Call::Begin(1, 0, 0), Came::Age(Some(0))),
    (Call::Begin(2, 0, 1), Came::Age(Some(1))),
    (Call::Read(2, Frame::A), Came::Count(None)),
    (Call::Read(1, Frame::A), Came::Count(None)),
    (Call::Commit(2, By::Own), Came::Wounded(1)),
    // It runs its visit anew, and reads once more.
    (Call::Reads(2), Came::Reads(Some(0))),
    (Call::Read(2, Frame::A), Came::Blocked(1)),
    (Call::Commit(1, By::Own), Came::Done),
    (Call::Read(2, Frame::A), Came::Count(Some(1))),
    // A plan of another rule isn't that of the visit, so the rule is asked.
    (Call::Commit(2, By::Pass), Came::Done),
];

#[test]
fn the_older_slot_wounds_the_younger(rt: HostRuntime) -> Result<(), Fail> {
    let alloc = rt.alloc();
    let frames = [Frame::A, Frame::A];
    let ran = call_each(alloc, one_monitor(alloc)?, &frames, b"", &WOUNDING)?;
    assert_ran(&rt, &ran, b"enter 0\nenter 1\nvisit 0 0 1\nvisit 0 1 2\n");
    Ok(())
}

const PLANNED_FOR_ANOTHER: [(Call, Came); 11] = [
    (Call::Enter(0), Came::Is(true)),
    (Call::Enter(1), Came::Is(true)),
    (Call::Enter(2), Came::Is(true)),
    (Call::Begin(5, 0, 0), Came::Age(Some(0))),
    (Call::Read(5, Frame::A), Came::Count(None)),
    (Call::Commit(5, By::OtherPacket), Came::Done),
    // The other packet's key wasn't counted, but the packet's own.
    (Call::Begin(5, 0, 1), Came::Age(Some(0))),
    (Call::Read(5, Frame::C), Came::Count(None)),
    (Call::Quit(5), Came::Is(true)),
    (Call::Begin(5, 0, 2), Came::Age(Some(0))),
    (Call::Read(5, Frame::A), Came::Count(Some(1))),
];

#[test]
fn a_plan_of_another_packet_does_not_count(rt: HostRuntime) -> Result<(), Fail> {
    let alloc = rt.alloc();
    let frames = [Frame::A, Frame::C, Frame::A];
    let ran = call_each(
        alloc,
        one_monitor(alloc)?,
        &frames,
        b"",
        &PLANNED_FOR_ANOTHER,
    )?;
    assert_ran(&rt, &ran, b"enter 0\nenter 1\nenter 2\nvisit 0 0 5\n");
    Ok(())
}

const STOPPED: [(Call, Came); 12] = [
    (Call::Enter(0), Came::Is(true)),
    (Call::Begin(1, 0, 0), Came::Age(Some(0))),
    (Call::IsRunning(0, 0), Came::Is(true)),
    (Call::Crash(0), Came::Is(true)),
    (Call::IsRunning(0, 0), Came::Is(false)),
    (Call::Reads(1), Came::Reads(None)),
    (Call::Look(1), Came::Packet(None)),
    (Call::AgesLeft(0), Came::Is(true)),
    (Call::Commit(1, By::Pass), Came::Idle),
    (Call::Recover(0), Came::Is(true)),
    (Call::Reads(1), Came::Reads(None)),
    (Call::Commit(1, By::Pass), Came::Idle),
];

#[test]
fn a_slot_is_idle_once_its_server_stopped(rt: HostRuntime) -> Result<(), Fail> {
    let alloc = rt.alloc();
    let script = b"at 1 crash 0\nat 1 recover 0\n";
    let ran = call_each(alloc, two_monitors(alloc)?, &[Frame::A], script, &STOPPED)?;
    assert_ran(&rt, &ran, b"enter 0\ncrash 0\nrecover 0\n");
    Ok(())
}

const LISTED: [(Call, Came); 12] = [
    (Call::Enter(0), Came::Is(true)),
    (Call::IsListed(0, 0), Came::Is(true)),
    (Call::Begin(1, 0, 0), Came::Age(Some(0))),
    (Call::IsListed(0, 0), Came::Is(false)),
    // It is legal all the same, and the first of all jobs.
    (Call::IsLegal(0, 0), Came::Is(true)),
    (Call::Next, Came::NextVisit(0, 0)),
    // No other slot begins it.
    (Call::Begin(2, 0, 0), Came::Age(None)),
    (Call::Quit(2), Came::Is(true)),
    (Call::IsListed(0, 0), Came::Is(false)),
    (Call::Quit(1), Came::Is(true)),
    (Call::IsListed(0, 0), Came::Is(true)),
    (Call::Begin(2, 0, 0), Came::Age(Some(0))),
];

#[test]
fn a_visit_that_runs_is_not_listed(rt: HostRuntime) -> Result<(), Fail> {
    let alloc = rt.alloc();
    let ran = call_each(alloc, one_monitor(alloc)?, &[Frame::A], b"", &LISTED)?;
    assert_ran(&rt, &ran, b"enter 0\n");
    Ok(())
}

const WHOLE: [(Call, Came); 15] = [
    (Call::Enter(0), Came::Is(true)),
    (Call::Visit(63, 0, 0), Came::Is(true)),
    (Call::Pass(0, 0), Came::Is(true)),
    (Call::TakeSeen(0, 0), Came::Is(true)),
    (Call::Apply(1, 0, 0, 0), Came::Is(true)),
    (Call::Enter(1), Came::Is(true)),
    (Call::Begin(1, 0, 1), Came::Age(Some(0))),
    (Call::Begin(3, 1, 0), Came::Age(Some(0))),
    // A step lets all slots run on.
    (Call::Enter(2), Came::Is(true)),
    (Call::Begin(2, 0, 2), Came::Age(Some(1))),
    (Call::Reads(1), Came::Reads(Some(0))),
    (Call::Visit(5, 0, 2), Came::Is(true)),
    (Call::Reads(1), Came::Reads(None)),
    (Call::Reads(2), Came::Reads(None)),
    (Call::Reads(3), Came::Reads(Some(0))),
];

#[test]
fn a_whole_visit_gives_up_what_its_server_runs(rt: HostRuntime) -> Result<(), Fail> {
    let alloc = rt.alloc();
    let frames = [Frame::A, Frame::A, Frame::C];
    let ran = call_each(alloc, two_monitors(alloc)?, &frames, b"", &WHOLE)?;
    let lines =
        b"enter 0\nvisit 0 0 63\npass 0 0\ntake 0 0\napply 1 0 0 0\nenter 1\nenter 2\nvisit 0 2 5\n";
    assert_ran(&rt, &ran, lines);
    Ok(())
}

const SEEN: [(Call, Came); 6] = [
    (Call::TakeSeen(0, 0), Came::Is(false)),
    (Call::Enter(0), Came::Is(true)),
    (Call::Visit(0, 0, 0), Came::Is(true)),
    (Call::Pass(0, 0), Came::Is(true)),
    (Call::TakeSeen(0, 0), Came::Is(true)),
    (Call::TakeSeen(0, 0), Came::Is(false)),
];

#[test]
fn a_message_is_taken_as_it_was_seen(rt: HostRuntime) -> Result<(), Fail> {
    let alloc = rt.alloc();
    let ran = call_each(alloc, two_passes(alloc)?, &[Frame::A], b"", &SEEN)?;
    assert_ran(&rt, &ran, b"enter 0\nvisit 0 0 0\npass 0 0\ntake 0 0\n");
    Ok(())
}
