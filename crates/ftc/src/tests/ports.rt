//! Port tables of translators.

use crate::status::Status;
use crate::tests::frames::{DATAGRAM, SEGMENT};
use crate::tests::{ALONE, capture_of, desk_of, run};
use ftc_audit::PortsCause;
use ftc_journal::JournalCause;
use ftc_outside::{FailingDesk, MemoryDesk};
use std::process::Abort;
use std::sync::Wait;
use std::test::Fail;
use std::thread::Threads;

/// The words of the table of server 0.
const PORTS: [&str; 5] = ["ports", "chain", "capture", "journal", "0"];

/// A translator and a monitor.
const CHAIN: &[u8] =
    b"f 0\npartitions 4\nnat inside 10.0.0.0/8 outside 203.0.113.5 ports 20000-20009\nmonitor 8\n";

const TABLE: &[u8] =
    b"ftc-ports 1\nports 2\nport 20000 tcp 10.0.0.5:5001\nport 20001 udp 10.0.0.5:5001\n";

/// A desk on which a run of a segment and a datagram from one host was done.
fn run_desk<R: Abort + AllocGlobal + Threads + Wait + Sync>(rt: &R) -> Result<MemoryDesk, Fail> {
    let capture = capture_of(rt, &[&SEGMENT, &DATAGRAM])?;
    let mut desk = desk_of(rt, CHAIN, capture.as_slice())?;
    assert_eq!(rt; run(rt, &ALONE, &mut desk), Status::Done);
    Ok(desk)
}

#[test]
fn the_table_of_a_translator(rt: HostRuntime) -> Result<(), Fail> {
    let mut desk = run_desk(&rt)?;
    assert_eq!(rt; run(&rt, &PORTS, &mut desk), Status::Done);
    assert_eq!(rt; desk.get("-"), Some(TABLE));
    Ok(())
}

#[test]
fn what_has_no_table(rt: HostRuntime) -> Result<(), Fail> {
    for server in ["1", "2", "15"] {
        let mut desk = run_desk(&rt)?;
        let words = ["ports", "chain", "capture", "journal", server];
        let cause = PortsCause::NotNat;
        assert_eq!(rt; run(&rt, &words, &mut desk), Status::Ports { cause });
        assert_eq!(rt; desk.get("-"), None);
    }
    let mut desk = run_desk(&rt)?;
    desk.put("journal", b"ftc-journal 2\nvisit 0 0 63\nvisit 0 0 63\n")?;
    let cause = PortsCause::BadStep { place: 1 };
    assert_eq!(rt; run(&rt, &PORTS, &mut desk), Status::Ports { cause });
    assert_eq!(rt; desk.get("-"), None);
    desk.put("journal", b"ftc-journal 2\nvisit\n")?;
    let (line, cause) = (2, JournalCause::Word);
    assert_eq!(rt;
        run(&rt, &PORTS, &mut desk),
        Status::Journal { line, cause }
    );
    Ok(())
}

#[test]
fn a_call_that_fails(rt: HostRuntime) -> Result<(), Fail> {
    // Three calls fetch the texts, and the fourth tells the table.
    for call in 0..4 {
        let mut desk = FailingDesk::new(rt.alloc(), run_desk(&rt)?, &[call])?;
        assert_eq!(rt; run(&rt, &PORTS, &mut desk), Status::DeskFault, "at {call}");
        assert_eq!(rt; desk.inner().get("-"), None, "at {call}");
    }
    let mut desk = FailingDesk::new(rt.alloc(), run_desk(&rt)?, &[4])?;
    assert_eq!(rt; run(&rt, &PORTS, &mut desk), Status::Done);
    Ok(())
}
