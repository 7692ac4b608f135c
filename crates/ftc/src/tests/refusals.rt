//! Runs that are refused, or whose desk fails.

use crate::status::Status;
use crate::tests::frames::DATAGRAM;
use crate::tests::{ALONE, HEADER, MONITOR, WORDS, capture_of, desk_of, run};
use ftc_base::ServerId;
use ftc_conf::ChainCause;
use ftc_outside::{FailingDesk, MemoryDesk};
use ftc_pcap::CaptureCause;
use ftc_script::ScriptCause;
use std::process::Abort;
use std::sync::Wait;
use std::test::Fail;
use std::thread::Threads;

/// The run ends so, and makes no file.
fn is_refused<R: Abort + AllocGlobal + Threads + Wait + Sync>(
    rt: &R,
    mut desk: MemoryDesk,
    ending: Status,
) -> Result<(), Fail> {
    assert_eq!(rt; run(rt, &WORDS, &mut desk), ending);
    assert_eq!(rt; desk.get("out"), None);
    assert_eq!(rt; desk.get("journal"), None);
    assert_eq!(rt; desk.get("report"), None);
    Ok(())
}

#[test]
fn faulty_chains(rt: HostRuntime) -> Result<(), Fail> {
    let cases: [(&[u8], u64, ChainCause); 4] = [
        (b"f 1\npartitions 4\nmonitor 8\n", 1, ChainCause::Replicas),
        (b"", 1, ChainCause::NoFailures),
        (
            b"f 0\npartitions 4\nspare\nmonitor 8\n",
            4,
            ChainCause::SpareOrder,
        ),
        (b"f 0\npartitions 4\nspare\n", 4, ChainCause::Empty),
    ];
    for (chain, line, cause) in cases {
        // The capture is at fault too, but the chain is read before it.
        let desk = desk_of(&rt, chain, b"")?;
        is_refused(&rt, desk, Status::Chain { line, cause })?;
    }
    Ok(())
}

#[test]
fn a_cut_capture(rt: HostRuntime) -> Result<(), Fail> {
    let capture = capture_of(&rt, &[&DATAGRAM])?;
    let cut = match capture.as_slice() {
        [front @ .., _] => front,
        [] => &[],
    };
    assert_eq!(rt; cut.len(), 81);
    let mut desk = desk_of(&rt, MONITOR, cut)?;
    desk.put("script", b"lose 0 0\n")?;
    let cause = CaptureCause::Cut;
    is_refused(&rt, desk, Status::Capture { at: 24, cause })
}

/// Three monitors, of which one may be down.
const THREE: &[u8] = b"f 1\npartitions 4\nmonitor 8\nmonitor 8\nmonitor 8\n";

#[test]
fn faulty_scripts(rt: HostRuntime) -> Result<(), Fail> {
    let group = ServerId::new(1).expect(&rt, "a group");
    let server = ServerId::new(2).expect(&rt, "a server");
    let cases: [(&[u8], u32, ScriptCause); 5] = [
        (
            b"at 0 crash 1\nat 0 crash 2\n",
            2,
            ScriptCause::GroupGone { group },
        ),
        (b"at 0 crash 2\n", 2, ScriptCause::LeftDown { server }),
        (b"at 0 recover 0\n", 1, ScriptCause::NotDown),
        (b"fail 0\n", 1, ScriptCause::Word),
        (b"\nlose 3 0\n", 2, ScriptCause::Link),
    ];
    let capture = capture_of(&rt, &[&DATAGRAM])?;
    for (script, line, cause) in cases {
        let mut desk = desk_of(&rt, THREE, capture.as_slice())?;
        desk.put("script", script)?;
        is_refused(&rt, desk, Status::Script { line, cause })?;
    }
    Ok(())
}

#[test]
fn words_that_are_no_command(rt: HostRuntime) -> Result<(), Fail> {
    let cases: [&[&str]; 11] = [
        &["run", "a", "b", "c", "d", "e", "e"],
        &["run", "a", "b", "c", "d", "e", "f", "--alone"],
        &["run", "a", "b", "c", "d", "e", "f", "--alone", "f"],
        &[
            "run", "--alone", "g", "a", "b", "c", "d", "e", "f", "--alone", "h",
        ],
        &["run", "a", "b", "c", "d", "e", "-"],
        &["run", "a", "b", "c", "d", "e", "f", "g"],
        &["run", "a", "b", "c", "d", "e", ""],
        &["Run", "a", "b", "c", "d", "e", "f"],
        &["check", "a", "b", "c", "d", "e", "e"],
        &["check", "a", "b", "c", "d", "e"],
        &[],
    ];
    for words in cases {
        let mut desk = desk_of(&rt, MONITOR, &HEADER)?;
        assert_eq!(rt; run(&rt, words, &mut desk), Status::Usage);
    }
    Ok(())
}

#[test]
fn a_chain_that_is_not_there(rt: HostRuntime) -> Result<(), Fail> {
    is_refused(&rt, MemoryDesk::new(rt.alloc()), Status::DeskFault)
}

#[test]
fn a_call_that_fails(rt: HostRuntime) -> Result<(), Fail> {
    let capture = capture_of(&rt, &[&DATAGRAM])?;
    let bytes = capture.as_slice();
    let events: &[u8] = b"ftc-journal 2\nenter 0\nvisit 0 0 63\npass 0 0\nrelease 0\n";
    // What the files hold where the call of that number fails: four fetch the texts.
    let cases: [(u64, Option<&[u8]>, Option<&[u8]>, Option<&[u8]>); 8] = [
        (0, None, None, None),
        (3, None, None, None),
        (4, None, None, None),
        (5, Some(b""), None, None),
        (6, Some(bytes), None, None),
        (7, Some(bytes), Some(b""), None),
        (8, Some(bytes), Some(events), None),
        (9, Some(bytes), Some(events), Some(b"")),
    ];
    for (call, out, journal, report) in cases {
        let desk = desk_of(&rt, MONITOR, bytes)?;
        let mut desk = FailingDesk::new(rt.alloc(), desk, &[call])?;
        assert_eq!(rt; run(&rt, &ALONE, &mut desk), Status::DeskFault, "at {call}");
        assert_eq!(rt; desk.inner().get("out"), out, "at {call}");
        assert_eq!(rt; desk.inner().get("journal"), journal, "at {call}");
        assert_eq!(rt; desk.inner().get("report"), report, "at {call}");
    }
    Ok(())
}
