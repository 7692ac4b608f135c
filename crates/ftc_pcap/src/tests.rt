use crate::{Capture, CaptureCause, CaptureFault, read_capture, write_header, write_packet};
use ftc_base::limits::{MOST_CAPTURE_BYTES, MOST_RECORDS};
use ftc_base::{Bytes, NoMemory, Refuse};
use std::alloc::Global;
use std::process::Abort;
use std::test::Fail;

/// A little-endian header of stamps in microseconds.
const LITTLE: [u8; 24] = [
    0xd4, 0xc3, 0xb2, 0xa1, 0x02, 0x00, 0x04, 0x00, 0x00, 0x00, 0x00, 0x00, 0x00, 0x00, 0x00, 0x00,
    0xff, 0xff, 0x00, 0x00, 0x01, 0x00, 0x00, 0x00,
];

/// The head of a packet of 42 bytes, all captured, at second 1.
const LITTLE_HEAD: [u8; 16] = [
    0x01, 0x00, 0x00, 0x00, 0x00, 0x00, 0x00, 0x00, 0x2a, 0x00, 0x00, 0x00, 0x2a, 0x00, 0x00, 0x00,
];

/// A big-endian header of stamps in nanoseconds.
const BIG: [u8; 24] = [
    0xa1, 0xb2, 0x3c, 0x4d, 0x00, 0x02, 0x00, 0x04, 0x00, 0x00, 0x00, 0x00, 0x00, 0x00, 0x00, 0x00,
    0x00, 0x00, 0xff, 0xff, 0x00, 0x00, 0x00, 0x01,
];

/// The same head in that order.
const BIG_HEAD: [u8; 16] = [
    0x00, 0x00, 0x00, 0x01, 0x00, 0x00, 0x00, 0x00, 0x00, 0x00, 0x00, 0x2a, 0x00, 0x00, 0x00, 0x2a,
];

/// An Ethernet frame with a UDP datagram.
const FRAME: [u8; 42] = [
    0x02, 0x00, 0x00, 0x00, 0x00, 0x01, 0x02, 0x00, 0x00, 0x00, 0x00, 0x02, 0x08, 0x00, 0x45, 0x00,
    0x00, 0x1c, 0x00, 0x01, 0x00, 0x00, 0x40, 0x11, 0x46, 0x91, 0x0a, 0x00, 0x00, 0x05, 0xc6, 0x33,
    0x64, 0x07, 0x13, 0x89, 0x00, 0x35, 0x00, 0x08, 0xb7, 0xe0,
];

fn text_of(alloc: Global, parts: &[&[u8]]) -> Result<Bytes, NoMemory> {
    let mut text = Bytes::new(alloc);
    for part in parts {
        text.append(part)?;
    }
    Ok(text)
}

/// The number of packets, or the first fault.
fn count_in(alloc: Global, text: &[u8]) -> Result<Result<usize, CaptureFault>, NoMemory> {
    match read_capture(alloc, text) {
        Ok(capture) => Ok(Ok(capture.packets.len())),
        Err(Refuse::Bad(fault)) => Ok(Err(fault)),
        Err(Refuse::NoMemory) => Err(NoMemory),
    }
}

fn fault(at: u64, cause: CaptureCause) -> Result<usize, CaptureFault> {
    Err(CaptureFault { at, cause })
}

fn written(alloc: Global, capture: &Capture) -> Result<Bytes, NoMemory> {
    let mut out = Bytes::new(alloc);
    write_header(capture, &mut out)?;
    for number in 0..capture.packets.len() {
        let bytes = capture.packets.at(number).bytes.as_slice();
        write_packet(alloc, capture, number as u32, bytes, &mut out)?;
    }
    Ok(out)
}

/// Compares what was read of one packet.
fn is_that_capture(rt: &impl Abort, capture: &Capture, big: bool) {
    assert_eq!(rt; capture.big, big);
    assert_eq!(rt; capture.packets.len(), 1);
    let packet = capture.packets.at(0);
    assert_eq!(rt;
        (packet.seconds, packet.fraction, packet.original),
        (1, 0, 42)
    );
    assert_eq!(rt; packet.bytes.as_slice(), FRAME.as_slice());
}

/// Reads a text of one packet, and writes it again.
fn is_read_and_written(
    rt: &impl Abort,
    alloc: Global,
    parts: &[&[u8]],
    big: bool,
) -> Result<(), Fail> {
    let text = text_of(alloc, parts)?;
    let capture = read_capture(alloc, text.as_slice())?;
    is_that_capture(rt, &capture, big);
    let again = written(alloc, &capture)?;
    assert_eq!(rt; again.as_slice(), text.as_slice());
    Ok(())
}

#[test]
fn captures_are_read_and_written(rt: HostRuntime) -> Result<(), Fail> {
    is_read_and_written(&rt, rt.alloc(), &[&LITTLE, &LITTLE_HEAD, &FRAME], false)?;
    is_read_and_written(&rt, rt.alloc(), &[&BIG, &BIG_HEAD, &FRAME], true)
}

#[test]
fn a_packet_is_written_with_other_bytes(rt: HostRuntime) -> Result<(), Fail> {
    let text = text_of(rt.alloc(), &[&LITTLE, &LITTLE_HEAD, &FRAME])?;
    let capture = read_capture(rt.alloc(), text.as_slice())?;
    assert_eq!(rt; capture.packets.len(), 1);
    let mut out = text_of(rt.alloc(), &[&[9]])?;
    write_packet(rt.alloc(), &capture, 0, &[7, 8], &mut out)?;
    let wanted = [9, 1, 0, 0, 0, 0, 0, 0, 0, 2, 0, 0, 0, 42, 0, 0, 0, 7, 8];
    assert_eq!(rt; out.as_slice(), wanted.as_slice());
    Ok(())
}

/// Compares the number of packets in a text of these parts, or its first fault.
fn counts(
    rt: &impl Abort,
    alloc: Global,
    parts: &[&[u8]],
    wanted: Result<usize, CaptureFault>,
) -> Result<(), Fail> {
    let text = text_of(alloc, parts)?;
    assert_eq!(rt; count_in(alloc, text.as_slice())?, wanted);
    Ok(())
}

#[test]
fn headers_at_fault_are_refused(rt: HostRuntime) -> Result<(), Fail> {
    let cases: [(&[&[u8]], CaptureCause); 7] = [
        (&[], CaptureCause::Cut),
        (&[&LITTLE[..3]], CaptureCause::Cut),
        (&[&[0; 24]], CaptureCause::NotCapture),
        (
            &[&LITTLE[..4], &[3, 0], &LITTLE[6..]],
            CaptureCause::Version,
        ),
        (
            &[&LITTLE[..6], &[5, 0], &LITTLE[8..]],
            CaptureCause::Version,
        ),
        (&[&LITTLE[..20], &[1, 0, 0, 0x14]], CaptureCause::LinkType),
        (&[&LITTLE[..4], &BIG[4..]], CaptureCause::Version),
    ];
    for (parts, cause) in cases {
        counts(&rt, rt.alloc(), parts, fault(0, cause))?;
    }
    Ok(())
}

/// What is counted in a front of two packets' text.
fn count_to(len: usize) -> Result<usize, CaptureFault> {
    match len {
        0..24 => fault(0, CaptureCause::Cut),
        24 => Ok(0),
        25..82 => fault(24, CaptureCause::Cut),
        82 => Ok(1),
        83..140 => fault(82, CaptureCause::Cut),
        _ => Ok(2),
    }
}

#[test]
fn a_capture_may_end_after_each_record(rt: HostRuntime) -> Result<(), Fail> {
    let text = text_of(rt.alloc(), &[&BIG, &BIG_HEAD, &FRAME, &BIG_HEAD, &FRAME])?;
    assert_eq!(rt; text.len(), 140);
    for len in 0..141 {
        counts(&rt, rt.alloc(), &[&text.as_slice()[..len]], count_to(len))?;
    }
    Ok(())
}

#[test]
fn captured_lengths_are_bounded(rt: HostRuntime) -> Result<(), Fail> {
    // The captured length is above the original one and above the header's snaplen.
    let long = [1, 0, 0, 0, 2, 0, 0, 0, 3, 0, 0, 0, 2, 0, 0, 0, 7, 7, 7];
    let short_snaplen: [&[u8]; 4] = [&LITTLE[..16], &[1, 0, 0, 0], &LITTLE[20..], &long];
    counts(&rt, rt.alloc(), &short_snaplen, Ok(1))?;

    // 262,144 and 262,145.
    let most = [1, 0, 0, 0, 0, 0, 0, 0, 0, 0, 4, 0, 0, 0, 4, 0];
    let more = [1, 0, 0, 0, 0, 0, 0, 0, 1, 0, 4, 0, 1, 0, 4, 0];
    counts(
        &rt,
        rt.alloc(),
        &[&LITTLE, &more],
        fault(24, CaptureCause::RecordTooLong),
    )?;
    let captured = vec![in rt.alloc(); 5u8; 262_144]?;
    counts(&rt, rt.alloc(), &[&LITTLE, &most, &captured], Ok(1))
}

#[test]
fn records_are_bounded(rt: HostRuntime) -> Result<(), Fail> {
    let heads = vec![in rt.alloc(); 0u8; 16 * MOST_RECORDS]?;
    counts(&rt, rt.alloc(), &[&LITTLE, &heads], Ok(100_000))?;
    counts(
        &rt,
        rt.alloc(),
        &[&LITTLE, &heads, &[0]],
        fault(1_600_024, CaptureCause::TooMany),
    )
}

#[test]
fn bytes_are_bounded(rt: HostRuntime) -> Result<(), Fail> {
    let zeros = vec![in rt.alloc(); 0u8; MOST_CAPTURE_BYTES + 1]?;
    assert_eq!(rt; zeros.len(), 67_108_865);
    assert_eq!(rt;
        count_in(rt.alloc(), &zeros)?,
        fault(0, CaptureCause::TooBig)
    );
    assert_eq!(rt;
        count_in(rt.alloc(), &zeros[1..])?,
        fault(0, CaptureCause::NotCapture)
    );
    Ok(())
}
