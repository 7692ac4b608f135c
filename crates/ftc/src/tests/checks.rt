//! Checks of the files of a run.

use crate::status::Status;
use crate::tests::frames::DATAGRAM;
use crate::tests::{ALONE, MONITOR, capture_of, desk_of, run};
use ftc_base::Bytes;
use ftc_check::Checked;
use ftc_conf::ChainCause;
use ftc_journal::JournalCause;
use ftc_outside::{FailingDesk, MemoryDesk};
use ftc_script::ScriptCause;
use std::process::Abort;
use std::sync::Wait;
use std::test::Fail;
use std::thread::Threads;

/// The words of a check.
pub const CHECK: [&str; 7] = [
    "check", "chain", "script", "capture", "out", "journal", "report",
];

/// Three monitors, of which two may be down.
const THREE: &[u8] = b"f 2\npartitions 4\nmonitor 8\nmonitor 8\nmonitor 8\n";

/// A journal of two packets through them, in pieces: the event that is exchanged with the one behind it, what
/// stands between, the first release, and the last event.
const PIECES: [&str; 7] = [
    "ftc-journal 2\nenter 0\nvisit 0 0 63\npass 0 0\ntake 0 0\napply 1 0 0 0\nvisit 1 0 63\n\
    pass 1 0\ntake 1 0\napply 2 0 0 0\napply 2 0 1 0\nvisit 2 0 63\npass 2 0\ntake 2 0\n\
    apply 0 0 1 0\napply 0 0 2 0\ncarry 0\nenter 1\nvisit 0 1 63\npass 0 1\ntake 0 1\n\
    apply 1 1 2 0\n",
    "apply 1 1 0 1\n",
    "visit 1 1 63\n",
    "pass 1 1\ntake 1 1\n",
    "release 0\n",
    "apply 2 1 0 1\napply 2 1 1 1\nvisit 2 1 63\npass 2 1\ntake 2 1\napply 0 1 1 1\napply 0 1 2 1\n\
    carry 1\npropagate 2\npass 0 2\ntake 0 2\napply 1 2 2 1\npass 1 2\ntake 1 2\nrelease 1\n\
    pass 2 2\ntake 2 2\n",
    "carry 2\n",
];

/// The report of that run. 10 + 0 + 0 + 5 is 7 modulo 8.
const REPORT: &[u8] =
    b"ftc-report 1\npackets 2\nreleased 2\nfiltered 0\nlost 0\nfate 0 released\nfate 1 released\n\
    store 0 1\nkey 6d0007 0000000000000002\nstore 1 1\nkey 6d0007 0000000000000002\nstore 2 1\n\
    key 6d0007 0000000000000002\n";

/// The pieces of those numbers, in that order.
fn journal_of<R: Abort + AllocGlobal>(rt: &R, order: &[usize]) -> Result<Bytes, Fail> {
    let mut journal = Bytes::new(rt.alloc());
    for piece in order {
        let text = PIECES.get(*piece).expect(rt, "a piece");
        journal.append(text.as_bytes())?;
    }
    Ok(journal)
}

/// A desk with the files of that run, with these pieces of its journal.
fn ring_desk<R: Abort + AllocGlobal>(rt: &R, order: &[usize]) -> Result<MemoryDesk, Fail> {
    let capture = capture_of(rt, &[&DATAGRAM, &DATAGRAM])?;
    let mut desk = desk_of(rt, THREE, capture.as_slice())?;
    desk.put("out", capture.as_slice())?;
    desk.put("journal", journal_of(rt, order)?.as_slice())?;
    desk.put("report", REPORT)?;
    Ok(desk)
}

/// A desk on which a run through one monitor was done.
fn run_desk<R: Abort + AllocGlobal + Threads + Wait + Sync>(rt: &R) -> Result<MemoryDesk, Fail> {
    let capture = capture_of(rt, &[&DATAGRAM])?;
    let mut desk = desk_of(rt, MONITOR, capture.as_slice())?;
    assert_eq!(rt; run(rt, &ALONE, &mut desk), Status::Done);
    Ok(desk)
}

#[test]
fn what_a_run_leaves_is_right(rt: HostRuntime) -> Result<(), Fail> {
    let mut desk = run_desk(&rt)?;
    assert_eq!(rt; run(&rt, &CHECK, &mut desk), Status::Done);
    Ok(())
}

#[test]
fn journals_that_are_checked(rt: HostRuntime) -> Result<(), Fail> {
    let late = Checked::NotRun { event: 21 };
    let withheld = Checked::NotRun { event: 25 };
    let cases: [(&[usize], Status); 4] = [
        (&[0, 1, 2, 3, 4, 5, 6], Status::Done),
        (&[0, 2, 1, 3, 4, 5, 6], Status::Check { verdict: late }),
        (&[0, 1, 2, 3, 5, 6], Status::Check { verdict: withheld }),
        (
            &[0, 1, 2, 3, 4, 5],
            Status::Check {
                verdict: Checked::Unfinished,
            },
        ),
    ];
    for (order, ending) in cases {
        let mut desk = ring_desk(&rt, order)?;
        assert_eq!(rt; run(&rt, &CHECK, &mut desk), ending);
    }
    Ok(())
}

#[test]
fn an_out_that_is_checked(rt: HostRuntime) -> Result<(), Fail> {
    let mut desk = run_desk(&rt)?;
    let mut datagram = DATAGRAM;
    datagram[41] = 0;
    let out = capture_of(&rt, &[&datagram])?;
    assert_eq!(rt; out.len(), 82);
    desk.put("out", out.as_slice())?;
    let verdict = Checked::OutDiffers { at: 81 };
    assert_eq!(rt; run(&rt, &CHECK, &mut desk), Status::Check { verdict });
    Ok(())
}

#[test]
fn a_report_that_is_checked(rt: HostRuntime) -> Result<(), Fail> {
    let mut desk = run_desk(&rt)?;
    desk.put("report", b"")?;
    let verdict = Checked::ReportDiffers { at: 0 };
    assert_eq!(rt; run(&rt, &CHECK, &mut desk), Status::Check { verdict });
    assert_eq!(rt; desk.get("report"), Some(b"".as_slice()));
    Ok(())
}

/// Files that are no texts of their kind, with what a check says of each.
const REFUSED: [(&str, &[u8], Status); 4] = [
    (
        "chain",
        b"f 3\npartitions 4\nmonitor 8\nmonitor 8\nmonitor 8\n",
        Status::Chain {
            line: 1,
            cause: ChainCause::Replicas,
        },
    ),
    (
        "script",
        b"at 1 crash 3\n",
        Status::Script {
            line: 1,
            cause: ScriptCause::Link,
        },
    ),
    (
        "journal",
        b"ftc-journal 2\nenter 0\nenter\n",
        Status::Journal {
            line: 3,
            cause: JournalCause::Word,
        },
    ),
    (
        "journal",
        b"ftc-journal 2\nenter 0",
        Status::Journal {
            line: 2,
            cause: JournalCause::Cut,
        },
    ),
];

#[test]
fn texts_that_are_refused(rt: HostRuntime) -> Result<(), Fail> {
    for (name, text, ending) in REFUSED {
        let mut desk = ring_desk(&rt, &[0, 1, 2, 3, 4, 5, 6])?;
        desk.put(name, text)?;
        assert_eq!(rt; run(&rt, &CHECK, &mut desk), ending, "{name}");
    }
    Ok(())
}

#[test]
fn a_fetch_that_fails(rt: HostRuntime) -> Result<(), Fail> {
    for call in 0..6 {
        let mut desk = FailingDesk::new(rt.alloc(), run_desk(&rt)?, &[call])?;
        assert_eq!(rt; run(&rt, &CHECK, &mut desk), Status::DeskFault, "at {call}");
    }
    let mut desk = FailingDesk::new(rt.alloc(), run_desk(&rt)?, &[6])?;
    assert_eq!(rt; run(&rt, &CHECK, &mut desk), Status::Done);
    Ok(())
}
