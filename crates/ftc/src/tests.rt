mod checks;
mod frames;
mod makes;
mod ports;
mod refusals;
mod runs;
mod statuses;
mod taps;
mod watches;
mod worked;
mod workers;

use crate::status::Status;
use crate::top;
use ftc_base::Bytes;
use ftc_outside::{Desk, MemoryDesk, OpenGate};
use ftc_stream::Taps;
use std::sync::Wait;
use std::test::Fail;
use std::thread::Threads;

/// Runs the command of the words without taps, and with a gate that holds nobody.
pub fn run<R: AllocGlobal + Threads + Wait + Sync, D: Desk>(
    rt: &R,
    words: &[&str],
    desk: &mut D,
) -> Status {
    let mut taps = Taps::new(Vec::new(rt.alloc()));
    top::run(rt, words, desk, &OpenGate, &mut taps)
}

/// The words of a run by a schedule.
pub const ALONE: [&str; 9] = [
    "run", "chain", "script", "capture", "out", "journal", "report", "--alone", "schedule",
];

/// The schedule without events.
pub const EMPTY: &[u8] = b"ftc-journal 2\n";

/// The words of a run by as many workers as there are where no option says it.
pub const WORDS: [&str; 7] = [
    "run", "chain", "script", "capture", "out", "journal", "report",
];

/// A chain of one monitor of 8 groups.
pub const MONITOR: &[u8] = b"f 0\npartitions 4\nmonitor 8\n";

/// The header of a little-endian capture, whose stamps are in microseconds.
pub const HEADER: [u8; 24] = [
    0xd4, 0xc3, 0xb2, 0xa1, 2, 0, 4, 0, 0, 0, 0, 0, 0, 0, 0, 0, 0xff, 0xff, 0, 0, 1, 0, 0, 0,
];

/// A capture of these packets, each at second 1 and of at most 255 bytes.
pub fn capture_of<R: AllocGlobal>(rt: &R, packets: &[&[u8]]) -> Result<Bytes, Fail> {
    let mut capture = Bytes::new(rt.alloc());
    capture.append(&HEADER)?;
    for packet in packets {
        let len = packet.len().min(255) as u8;
        let head = [1, 0, 0, 0, 0, 0, 0, 0, len, 0, 0, 0, len, 0, 0, 0];
        capture.append(&head)?;
        capture.append(*packet)?;
    }
    Ok(capture)
}

/// A desk with this chain, this capture, an empty script and an empty schedule.
pub fn desk_of<R: AllocGlobal>(rt: &R, chain: &[u8], capture: &[u8]) -> Result<MemoryDesk, Fail> {
    let mut desk = MemoryDesk::new(rt.alloc());
    desk.put("chain", chain)?;
    desk.put("script", b"")?;
    desk.put("capture", capture)?;
    desk.put("schedule", EMPTY)?;
    Ok(desk)
}
