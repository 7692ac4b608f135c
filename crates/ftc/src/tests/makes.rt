//! Captures that are made, and what is told of their runs.

use crate::status::Status;
use crate::tests::checks::CHECK;
use crate::tests::{WORDS, run};
use ftc_outside::{FailingDesk, MemoryDesk};
use std::test::Fail;

/// The words that make a capture of ten packets, and what is told of their run.
const MAKE_TEN: [&str; 4] = ["make", "10", "0", "capture"];

const TOLD: &[u8] =
    b"ftc-make 1\npackets 10\nreleased 9\nfiltered 1\nlost 0\nstore 0 21\nstore 1 9\nstore 2 10\nstore 3 1\n";

/// The chain that a made capture runs through, as a chain's file has it.
const CHAIN: &[u8] =
    b"f 1\npartitions 16\nnat inside 10.0.0.0/8 outside 203.0.113.5 ports 20000-59999\nfirewall\n\
    allow udp any 198.51.100.10/32 80\nbalance 198.51.100.10:80 to 192.0.2.1,192.0.2.2\n\
    monitor 16\n";

/// How long a capture is of ten packets of 42 bytes, and one of nine: 24 bytes, and 58 for each packet.
const LENGTH_OF_TEN: usize = 604;

const LENGTH_OF_NINE: usize = 546;

#[test]
fn ten_packets_are_made(rt: HostRuntime) -> Result<(), Fail> {
    let mut desk = MemoryDesk::new(rt.alloc());
    assert_eq!(rt; run(&rt, &MAKE_TEN, &mut desk), Status::Done);
    assert_eq!(rt; desk.get("-"), Some(TOLD));
    assert_eq!(rt;
        desk.get("capture").map(|bytes| bytes.len()),
        Some(LENGTH_OF_TEN)
    );
    Ok(())
}

#[test]
fn a_made_capture_is_run_and_checked(rt: HostRuntime) -> Result<(), Fail> {
    let mut desk = MemoryDesk::new(rt.alloc());
    desk.put("chain", CHAIN)?;
    desk.put("script", b"")?;
    assert_eq!(rt; run(&rt, &MAKE_TEN, &mut desk), Status::Done);
    assert_eq!(rt; run(&rt, &WORDS, &mut desk), Status::Done);
    assert_eq!(rt;
        desk.get("out").map(|bytes| bytes.len()),
        Some(LENGTH_OF_NINE)
    );
    assert_eq!(rt; run(&rt, &CHECK, &mut desk), Status::Done);
    Ok(())
}

#[test]
fn a_call_of_a_make_that_fails(rt: HostRuntime) -> Result<(), Fail> {
    // How long the capture is where the call of that number fails.
    let cases: [(u64, Option<usize>); 3] = [(0, None), (1, Some(0)), (2, Some(LENGTH_OF_TEN))];
    for (call, length) in cases {
        let desk = MemoryDesk::new(rt.alloc());
        let mut desk = FailingDesk::new(rt.alloc(), desk, &[call])?;
        assert_eq!(rt;
            run(&rt, &MAKE_TEN, &mut desk),
            Status::DeskFault,
            "at {call}"
        );
        assert_eq!(rt;
            desk.inner().get("capture").map(|bytes| bytes.len()),
            length,
            "at {call}"
        );
        assert_eq!(rt; desk.inner().get("-"), None, "at {call}");
    }
    Ok(())
}
