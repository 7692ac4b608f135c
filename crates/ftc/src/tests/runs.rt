//! Runs that are done.

use crate::status::Status;
use crate::tests::frames::{
    ALL_ONES, ALL_ONES_OUT, ARP, DATAGRAM, DATAGRAM_OUT, ICMP, IPV6, NEIGHBOUR, REPLY, REPLY_IN,
    SEGMENT, SEGMENT_OUT, STRAY, UNSUMMED, UNSUMMED_OUT,
};
use crate::tests::{ALONE, HEADER, MONITOR, capture_of, desk_of, run};
use std::process::Abort;
use std::sync::Wait;
use std::test::Fail;
use std::thread::Threads;

/// A chain of one translation to the ports 20000 to 20009.
pub const TRANSLATION: &[u8] =
    b"f 0\npartitions 4\nnat inside 10.0.0.0/8 outside 203.0.113.5 ports 20000-20009\n";

/// A chain of one translation to the port 20000 alone.
const ONE_PORT: &[u8] =
    b"f 0\npartitions 4\nnat inside 10.0.0.0/8 outside 203.0.113.5 ports 20000-20000\n";

/// The report of one packet that a monitor of 8 groups counted and that came out.
const ONE_RELEASED: &[u8] =
    b"ftc-report 1\npackets 1\nreleased 1\nfiltered 0\nlost 0\nfate 0 released\nstore 0 1\n\
    key 6d0007 0000000000000001\n";

/// The run is done and leaves these files.
fn leaves<R: Abort + AllocGlobal + Threads + Wait + Sync>(
    rt: &R,
    chain: &[u8],
    capture: &[u8],
    out: &[u8],
    journal: &[u8],
    report: &[u8],
) -> Result<(), Fail> {
    let mut desk = desk_of(rt, chain, capture)?;
    assert_eq!(rt; run(rt, &ALONE, &mut desk), Status::Done);
    assert_eq!(rt; desk.get("out"), Some(out));
    assert_eq!(rt; desk.get("journal"), Some(journal));
    assert_eq!(rt; desk.get("report"), Some(report));
    assert_eq!(rt; desk.get("chain"), Some(chain));
    assert_eq!(rt; desk.get("capture"), Some(capture));
    Ok(())
}

#[test]
fn a_monitor_lets_a_packet_through(rt: HostRuntime) -> Result<(), Fail> {
    let capture = capture_of(&rt, &[&DATAGRAM])?;
    let bytes = capture.as_slice();
    let journal = b"ftc-journal 2\nenter 0\nvisit 0 0 63\npass 0 0\nrelease 0\n";
    leaves(&rt, MONITOR, bytes, bytes, journal, ONE_RELEASED)
}

#[test]
fn an_empty_capture_comes_out(rt: HostRuntime) -> Result<(), Fail> {
    let report = b"ftc-report 1\npackets 0\nreleased 0\nfiltered 0\nlost 0\nstore 0 0\n";
    leaves(&rt, MONITOR, &HEADER, &HEADER, b"ftc-journal 2\n", report)
}

#[test]
fn a_big_endian_capture_comes_out(rt: HostRuntime) -> Result<(), Fail> {
    let mut capture = [0; 82];
    capture[..24].copy_from_slice(&[
        0xa1, 0xb2, 0x3c, 0x4d, 0, 2, 0, 4, 0, 0, 0, 0, 0, 0, 0, 0, 0, 0, 0xff, 0xff, 0, 0, 0, 1,
    ]);
    capture[24..40].copy_from_slice(&[0, 0, 0, 1, 0, 0, 0, 0, 0, 0, 0, 42, 0, 0, 0, 42]);
    capture[40..].copy_from_slice(&DATAGRAM);
    let journal = b"ftc-journal 2\nenter 0\nvisit 0 0 63\npass 0 0\nrelease 0\n";
    leaves(&rt, MONITOR, &capture, &capture, journal, ONE_RELEASED)
}

#[test]
fn a_packet_goes_from_server_to_server(rt: HostRuntime) -> Result<(), Fail> {
    let capture = capture_of(&rt, &[&DATAGRAM])?;
    let bytes = capture.as_slice();
    let chain = b"f 0\npartitions 4\nmonitor 8\nmonitor 8\n";
    let journal =
        b"ftc-journal 2\nenter 0\nvisit 0 0 63\npass 0 0\ntake 0 0\nvisit 1 0 63\npass 1 0\nrelease 0\n";
    let report =
        b"ftc-report 1\npackets 1\nreleased 1\nfiltered 0\nlost 0\nfate 0 released\nstore 0 1\n\
        key 6d0007 0000000000000001\nstore 1 1\nkey 6d0007 0000000000000001\n";
    leaves(&rt, chain, bytes, bytes, journal, report)
}

#[test]
fn a_translation_changes_flows_alone(rt: HostRuntime) -> Result<(), Fail> {
    let capture = capture_of(&rt, &[&ARP, &IPV6, &ICMP, &SEGMENT, &UNSUMMED])?;
    let out = capture_of(&rt, &[&ARP, &IPV6, &ICMP, &SEGMENT_OUT, &UNSUMMED_OUT])?;
    let mut desk = desk_of(&rt, TRANSLATION, capture.as_slice())?;
    assert_eq!(rt; run(&rt, &ALONE, &mut desk), Status::Done);
    assert_eq!(rt; desk.get("out"), Some(out.as_slice()));
    Ok(())
}

#[test]
fn a_packet_without_a_port_is_dropped(rt: HostRuntime) -> Result<(), Fail> {
    let capture = capture_of(&rt, &[&DATAGRAM, &NEIGHBOUR, &REPLY, &STRAY])?;
    let out = capture_of(&rt, &[&DATAGRAM_OUT, &REPLY_IN])?;
    let journal =
        b"ftc-journal 2\nenter 0\nvisit 0 0 63\npass 0 0\nrelease 0\nenter 1\nvisit 0 1 63\n\
        pass 0 1\nenter 2\nvisit 0 2 63\npass 0 2\nrelease 2\nenter 3\nvisit 0 3 63\npass 0 3\n";
    let report = b"ftc-report 1\npackets 4\nreleased 2\nfiltered 2\nlost 0\nfate 0 released\n\
        fate 1 filtered 0\nfate 2 released\nfate 3 filtered 0\nstore 0 3\n\
        key 66110a0000051389 4e20\nkey 6e 00004e21\nkey 72114e20 0a0000051389\n";
    let (capture, out) = (capture.as_slice(), out.as_slice());
    leaves(&rt, ONE_PORT, capture, out, journal, report)
}

#[test]
fn a_checksum_of_zero_is_written_as_ones(rt: HostRuntime) -> Result<(), Fail> {
    let capture = capture_of(&rt, &[&ALL_ONES])?;
    let out = capture_of(&rt, &[&ALL_ONES_OUT])?;
    let mut desk = desk_of(&rt, TRANSLATION, capture.as_slice())?;
    assert_eq!(rt; run(&rt, &ALONE, &mut desk), Status::Done);
    assert_eq!(rt; desk.get("out"), Some(out.as_slice()));
    Ok(())
}
