//! Taps that are told what a run wrote.

use crate::status::Status;
use crate::tests::checks::CHECK;
use crate::tests::frames::{ARP, DATAGRAM, ICMP, IPV6, SEGMENT, UNSUMMED};
use crate::tests::runs::TRANSLATION;
use crate::tests::{ALONE, MONITOR, WORDS, capture_of, desk_of};
use crate::top::run;
use ftc_audit::AuditTap;
use ftc_base::{Bytes, NoMemory, PacketNo};
use ftc_outside::{CountTap, ListTap, MemoryDesk, OpenGate, Tap};
use ftc_stream::Taps;
use std::alloc::Global;
use std::process::Abort;
use std::sync::Wait;
use std::test::Fail;
use std::thread::Threads;

/// A tap that leaves at its second record.
#[derive(Drop)]
struct LeavingTap {
    told: bool,
}

impl Tap for LeavingTap {
    ghost use Rattle.std.specs.Prelude.{None, [], true, false};

    ghost face = { λ tap. record { told = None; line = []; leaves = λ _. tap.told; constant = false } };

    fn see(&mut self, _alloc: Global, _number: PacketNo, _bytes: &[u8]) -> Result<bool, NoMemory> {
        let stays = !self.told;
        self.told = true;
        Ok(stays)
    }

    fn line(&self, alloc: Global) -> Result<Bytes, NoMemory> {
        Ok(Bytes::new(alloc))
    }
}

/// Whether the report ends with this text.
fn ends_with<R: Abort>(rt: &R, desk: &MemoryDesk, end: &[u8]) -> Result<(), Fail> {
    match desk.get("report") {
        Some(report) => assert!(rt; report.ends_with(end)),
        None => assert!(rt; false),
    }
    Ok(())
}

#[test]
fn a_list_is_told_of_each_packet(rt: HostRuntime) -> Result<(), Fail> {
    let capture = capture_of(&rt, &[&DATAGRAM])?;
    let mut desk = desk_of(&rt, MONITOR, capture.as_slice())?;
    let mut list: Vec<Box<dyn Tap + Send>> = Vec::new(rt.alloc());
    list.push(Box::new(rt.alloc(), ListTap::new(rt.alloc()))?)?;
    let mut taps = Taps::new(list);
    assert_eq!(rt;
        run(&rt, &WORDS, &mut desk, &OpenGate, &mut taps),
        Status::Done
    );
    ends_with(&rt, &desk, b"key 6d0007 0000000000000001\ntap list 1\n")?;
    assert_eq!(rt;
        run(&rt, &CHECK, &mut desk, &OpenGate, &mut taps),
        Status::Done
    );
    Ok(())
}

#[test]
fn a_tap_that_leaves_has_no_line(rt: HostRuntime) -> Result<(), Fail> {
    let chain = b"f 2\npartitions 4\nmonitor 8\nmonitor 8\nmonitor 8\n";
    let capture = capture_of(&rt, &[&DATAGRAM, &DATAGRAM])?;
    let mut desk = desk_of(&rt, chain, capture.as_slice())?;
    let mut list: Vec<Box<dyn Tap + Send>> = Vec::new(rt.alloc());
    list.push(Box::new(rt.alloc(), LeavingTap { told: false })?)?;
    list.push(Box::new(rt.alloc(), ListTap::new(rt.alloc()))?)?;
    let mut taps = Taps::new(list);
    assert_eq!(rt;
        run(&rt, &WORDS, &mut desk, &OpenGate, &mut taps),
        Status::Done
    );
    ends_with(&rt, &desk, b"key 6d0007 0000000000000002\ntap list 2\n")
}

/// A run of five packets, two of them of flows, beside an audit of so many endpoints.
fn audited<R: Abort + AllocGlobal + Threads + Wait + Sync>(
    rt: &R,
    most: u32,
    end: &[u8],
) -> Result<(), Fail> {
    let capture = capture_of(rt, &[&ARP, &IPV6, &ICMP, &SEGMENT, &UNSUMMED])?;
    let mut desk = desk_of(rt, TRANSLATION, capture.as_slice())?;
    let mut list: Vec<Box<dyn Tap + Send>> = Vec::new(rt.alloc());
    list.push(Box::new(rt.alloc(), CountTap::new())?)?;
    list.push(Box::new(rt.alloc(), AuditTap::new(rt.alloc(), most))?)?;
    let mut taps = Taps::new(list);
    assert_eq!(rt;
        run(rt, &ALONE, &mut desk, &OpenGate, &mut taps),
        Status::Done
    );
    ends_with(rt, &desk, end)
}

#[test]
fn endpoints_are_counted(rt: HostRuntime) -> Result<(), Fail> {
    audited(
        &rt,
        2,
        b"\ntap packets 5 bytes 234\ntap audit endpoints 2\n",
    )?;
    audited(&rt, 1, b"\ntap packets 5 bytes 234\n")
}
