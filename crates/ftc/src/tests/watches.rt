//! Watches over heartbeats.

use crate::status::Status;
use crate::tests::checks::CHECK;
use crate::tests::frames::DATAGRAM;
use crate::tests::{WORDS, capture_of, run};
use ftc_outside::{FailingDesk, MemoryDesk};
use ftc_watch::BeatsCause;
use std::process::Abort;
use std::test::Fail;

/// The words of a watch that fences a server at its first silent tick.
const WATCH: [&str; 6] = ["watch", "1", "chain", "capture", "beats", "script"];

/// Both of two servers are silent, but only one can be spared.
const SILENT: &[u8] = b"ftc-beats 1\ntick 1\n";

const SCRIPT: &[u8] = b"at 1 crash 0\nat 2 recover 0\n";

const TOLD: &[u8] = b"ftc-watch 1\nfenced 1\nrefused 1\nheld 1 1 0\n";

/// A desk with two monitors, each the replica of the other, two packets, and these beats.
fn beats_desk<R: Abort + AllocGlobal>(rt: &R, beats: &[u8]) -> Result<MemoryDesk, Fail> {
    let capture = capture_of(rt, &[&DATAGRAM, &DATAGRAM])?;
    let mut desk = MemoryDesk::new(rt.alloc());
    desk.put("chain", b"f 1\npartitions 4\nmonitor 8\nmonitor 8\n")?;
    desk.put("capture", capture.as_slice())?;
    desk.put("beats", beats)?;
    Ok(desk)
}

#[test]
fn a_silent_server_is_fenced(rt: HostRuntime) -> Result<(), Fail> {
    let mut desk = beats_desk(&rt, SILENT)?;
    assert_eq!(rt; run(&rt, &WATCH, &mut desk), Status::Done);
    assert_eq!(rt; desk.get("script"), Some(SCRIPT));
    assert_eq!(rt; desk.get("-"), Some(TOLD));
    Ok(())
}

#[test]
fn a_run_takes_the_script_of_a_watch(rt: HostRuntime) -> Result<(), Fail> {
    let beats = b"ftc-beats 1\ntick 0 0 1\ntick 1 1\ntick 1 1\ntick 2 0 1\n";
    let words = ["watch", "2", "chain", "capture", "beats", "script"];
    let mut desk = beats_desk(&rt, beats)?;
    assert_eq!(rt; run(&rt, &words, &mut desk), Status::Done);
    assert_eq!(rt; desk.get("script"), Some(SCRIPT));
    assert_eq!(rt;
        desk.get("-"),
        Some(b"ftc-watch 1\nfenced 1\nrefused 0\n".as_slice())
    );
    assert_eq!(rt; run(&rt, &WORDS, &mut desk), Status::Done);
    assert_eq!(rt; run(&rt, &CHECK, &mut desk), Status::Done);
    Ok(())
}

#[test]
fn beats_that_are_refused(rt: HostRuntime) -> Result<(), Fail> {
    let cases: [(&[u8], u32, BeatsCause); 2] = [
        (b"", 1, BeatsCause::Header),
        (b"ftc-beats 1\ntick 3\n", 2, BeatsCause::Past),
    ];
    for (beats, line, cause) in cases {
        let mut desk = beats_desk(&rt, beats)?;
        assert_eq!(rt; run(&rt, &WATCH, &mut desk), Status::Beats { line, cause });
        assert_eq!(rt; desk.get("script"), None);
    }
    Ok(())
}

#[test]
fn a_call_of_a_watch_that_fails(rt: HostRuntime) -> Result<(), Fail> {
    // What the script holds where the call of that number fails: three fetch the texts.
    let cases: [(u64, Option<&[u8]>); 4] = [
        (2, None),
        (3, None),
        (4, Some(b"")),
        (5, Some(SCRIPT)),
    ];
    for (call, script) in cases {
        let desk = beats_desk(&rt, SILENT)?;
        let mut desk = FailingDesk::new(rt.alloc(), desk, &[call])?;
        assert_eq!(rt; run(&rt, &WATCH, &mut desk), Status::DeskFault, "at {call}");
        assert_eq!(rt; desk.inner().get("script"), script, "at {call}");
        assert_eq!(rt; desk.inner().get("-"), None, "at {call}");
    }
    Ok(())
}
