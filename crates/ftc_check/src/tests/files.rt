use crate::{Checked, check};
use ftc_base::{Items, NoMemory};
use ftc_journal::read;
use ftc_mbox::{ChainSpec, Rule};
use ftc_pcap::read_capture;
use ftc_protocol::ring_of;
use ftc_script::{accepted, read_script};
use std::alloc::Global;
use std::test::Fail;

/// A capture of one UDP datagram, from 10.0.0.5.
const CAPTURE: [u8; 82] = [
    0xd4, 0xc3, 0xb2, 0xa1, 2, 0, 4, 0, 0, 0, 0, 0, 0, 0, 0, 0, 0xff, 0xff, 0, 0, 1, 0, 0, 0, 1, 0,
    0, 0, 0, 0, 0, 0, 42, 0, 0, 0, 42, 0, 0, 0, 2, 0, 0, 0, 0, 1, 2, 0, 0, 0, 0, 2, 8, 0, 0x45, 0,
    0, 28, 0, 1, 0, 0, 64, 17, 0x46, 0x91, 10, 0, 0, 5, 198, 51, 100, 7, 0x13, 0x89, 0, 53, 0, 8,
    0xb7, 0xe0,
];

const JOURNAL: &str = "ftc-journal 2\nenter 0\nvisit 0 0 63\npass 0 0\nrelease 0\n";

// 10 + 0 + 0 + 5 is 7 modulo 8.
const REPORT: &str =
    "ftc-report 1\npackets 1\nreleased 1\nfiltered 0\nlost 0\nfate 0 released\nstore 0 1\n\
    key 6d0007 0000000000000001\n";

/// What the check says of these files. None where a text is refused.
pub fn judged(
    alloc: Global,
    spec: &ChainSpec,
    capture: &[u8],
    script: &[u8],
    out: &[u8],
    journal: &[u8],
    report: &[u8],
) -> Result<Option<Checked>, NoMemory> {
    let ring = ring_of(spec);
    let capture = match read_capture(alloc, capture) {
        Ok(capture) => capture,
        Err(_) => return Ok(None),
    };
    let script = match read_script(alloc, script, &ring, capture.packets.len() as u32) {
        Ok(script) => script,
        Err(_) => return Ok(None),
    };
    let journal = match read(alloc, journal) {
        Ok(journal) => journal,
        Err(_) => return Ok(None),
    };
    accepted();
    let verdict = check(alloc, spec, &capture, &script, out, &journal, report)?;
    Ok(Some(verdict))
}

/// What the check says of these files beside the capture, for one server that counts packets in eight groups.
fn answer(
    alloc: Global,
    out: &[u8],
    journal: &str,
    report: &str,
) -> Result<Option<Checked>, NoMemory> {
    let mut rules = Items::new(alloc);
    rules.push(Rule::Monitor { groups: 8 })?;
    let spec = ChainSpec::new(0, 4, rules);
    judged(
        alloc,
        &spec,
        CAPTURE.as_slice(),
        b"",
        out,
        journal.as_bytes(),
        report.as_bytes(),
    )
}

/// The same where OUT and the report are right.
fn answer_to(alloc: Global, journal: &str) -> Result<Option<Checked>, NoMemory> {
    answer(alloc, CAPTURE.as_slice(), journal, REPORT)
}

#[test]
fn files_of_one_run_are_right(rt: HostRuntime) -> Result<(), Fail> {
    let alloc = rt.alloc();
    assert_eq!(rt; answer_to(alloc, JOURNAL)?, Some(Checked::Yes));
    let report =
        "ftc-report 1\npackets 1\nreleased 1\nfiltered 0\nlost 0\nfate 0 released\nstore 0 1\n\
        key 6d0007 0000000000000001\ntap packets 1\n";
    assert_eq!(rt;
        answer(alloc, CAPTURE.as_slice(), JOURNAL, report)?,
        Some(Checked::Yes)
    );
    Ok(())
}

#[test]
fn the_first_event_that_is_not_allowed_is_named(rt: HostRuntime) -> Result<(), Fail> {
    let alloc = rt.alloc();
    for (journal, event) in [
        ("ftc-journal 2\npass 0 0\n", 0),
        (
            "ftc-journal 2\nvisit 0 0 63\nenter 0\npass 0 0\nrelease 0\n",
            0,
        ),
        (
            "ftc-journal 2\nenter 0\npass 0 0\nvisit 0 0 63\nrelease 0\n",
            1,
        ),
        (
            "ftc-journal 2\nenter 0\nvisit 0 0 63\nrelease 0\npass 0 0\n",
            2,
        ),
        (
            "ftc-journal 2\nenter 0\nvisit 0 0 63\npass 0 0\nrelease 0\nrelease 0\n",
            4,
        ),
    ] {
        assert_eq!(rt;
            answer_to(alloc, journal)?,
            Some(Checked::NotRun { event }),
            "{journal}"
        );
    }
    Ok(())
}

#[test]
fn a_run_that_goes_on_is_unfinished(rt: HostRuntime) -> Result<(), Fail> {
    let alloc = rt.alloc();
    for journal in [
        "ftc-journal 2\n",
        "ftc-journal 2\nenter 0\nvisit 0 0 63\n",
        "ftc-journal 2\nenter 0\nvisit 0 0 63\npass 0 0\n",
    ] {
        assert_eq!(rt;
            answer_to(alloc, journal)?,
            Some(Checked::Unfinished),
            "{journal}"
        );
    }
    Ok(())
}

#[test]
fn the_first_wrong_byte_is_named(rt: HostRuntime) -> Result<(), Fail> {
    let alloc = rt.alloc();
    let cut = &CAPTURE[..81];
    assert_eq!(rt;
        answer(alloc, cut, JOURNAL, REPORT)?,
        Some(Checked::OutDiffers { at: 81 })
    );
    assert_eq!(rt;
        answer(alloc, b"", JOURNAL, "")?,
        Some(Checked::OutDiffers { at: 0 })
    );
    let more = "ftc-report 1\npackets 2\n";
    let wrong = Some(Checked::ReportDiffers { at: 21 });
    assert_eq!(rt; answer(alloc, CAPTURE.as_slice(), JOURNAL, more)?, wrong);
    Ok(())
}
