//! What is said of each status.

use crate::status::Status;
use crate::telling::tell;
use ftc_audit::PortsCause;
use ftc_check::Checked;
use ftc_conf::ChainCause;
use ftc_journal::JournalCause;
use ftc_pcap::CaptureCause;
use ftc_script::ScriptCause;
use ftc_watch::BeatsCause;
use std::test::Fail;

/// Each status with its exit code and its line.
const STATUSES: [(Status, u8, &[u8]); 16] = [
    (Status::Done, 0, b""),
    (
        Status::Usage,
        2,
        b"usage: ftc run CHAIN SCRIPT CAPTURE OUT JOURNAL REPORT [--workers N | --alone SCHEDULE]",
    ),
    (
        Status::Chain {
            line: 40,
            cause: ChainCause::SpareOrder,
        },
        3,
        b"chain: line 40: cause 13",
    ),
    (
        Status::Capture {
            at: 24,
            cause: CaptureCause::Cut,
        },
        3,
        b"capture: byte 24: cause 5",
    ),
    (
        Status::Script {
            line: 1,
            cause: ScriptCause::Word,
        },
        3,
        b"script: line 1: cause 1",
    ),
    (
        Status::Schedule {
            line: 1,
            cause: JournalCause::Header,
        },
        3,
        b"schedule: line 1: cause 1",
    ),
    (
        Status::Journal {
            line: 3,
            cause: JournalCause::Range,
        },
        3,
        b"journal: line 3: cause 3",
    ),
    (
        Status::Beats {
            line: 1002,
            cause: BeatsCause::TooMany,
        },
        3,
        b"beats: line 1002: cause 6",
    ),
    (Status::DeskFault, 4, b"desk: failed"),
    (Status::NoMemory, 5, b"memory: refused"),
    (
        Status::Check {
            verdict: Checked::NotRun { event: 21 },
        },
        6,
        b"check: event 21",
    ),
    (
        Status::Check {
            verdict: Checked::Unfinished,
        },
        6,
        b"check: unfinished",
    ),
    (
        Status::Check {
            verdict: Checked::OutDiffers { at: 81 },
        },
        6,
        b"check: out byte 81",
    ),
    (
        Status::Check {
            verdict: Checked::ReportDiffers { at: 0 },
        },
        6,
        b"check: report byte 0",
    ),
    (
        Status::Ports {
            cause: PortsCause::NotNat,
        },
        7,
        b"ports: not a nat",
    ),
    (
        Status::Ports {
            cause: PortsCause::BadStep { place: 12 },
        },
        7,
        b"ports: step 12",
    ),
];

#[test]
fn codes_and_lines(rt: HostRuntime) -> Result<(), Fail> {
    for (status, code, line) in STATUSES {
        assert_eq!(rt; status.code(), code);
        assert_eq!(rt; status.line(rt.alloc())?.as_slice(), line);
    }
    Ok(())
}

#[test]
fn what_is_told(rt: HostRuntime) -> Result<(), Fail> {
    let event = Status::Check {
        verdict: Checked::NotRun { event: 21 },
    };
    let cases: [(Status, &[u8]); 3] = [
        (Status::Done, b""),
        (Status::DeskFault, b"desk: failed\n"),
        (event, b"check: event 21\n"),
    ];
    for (status, line) in cases {
        let mut said: Vec<u8> = Vec::new(rt.alloc());
        let (_, all) = tell(rt.alloc(), status, &mut said);
        assert!(rt; all);
        assert_eq!(rt; said.as_slice(), line);
    }
    Ok(())
}

#[test]
fn a_writer_without_room_has_a_front_of_the_line(rt: HostRuntime) -> Result<(), Fail> {
    let mut room = [b'.'; 8];
    let mut left = &mut room[..6];
    let (_, all) = tell(rt.alloc(), Status::DeskFault, &mut left);
    assert!(rt; !all);
    assert_eq!(rt; room.as_slice(), b"desk: ..".as_slice());
    Ok(())
}
