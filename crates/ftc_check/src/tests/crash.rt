use super::files::judged;
use crate::Checked;
use ftc_base::{Bytes, Items, NoMemory};
use ftc_mbox::{ChainSpec, Rule};
use std::alloc::Global;
use std::test::Fail;

/// The record of a UDP datagram from 10.0.0.5, at second 1.
const LOST: [u8; 58] = [
    1, 0, 0, 0, 0, 0, 0, 0, 42, 0, 0, 0, 42, 0, 0, 0, 2, 0, 0, 0, 0, 1, 2, 0, 0, 0, 0, 2, 8, 0,
    0x45, 0, 0, 28, 0, 1, 0, 0, 64, 17, 0x46, 0x91, 10, 0, 0, 5, 198, 51, 100, 7, 0x13, 0x89, 0,
    53, 0, 8, 0xb7, 0xe0,
];

/// The header of a capture, and the record of a UDP datagram from 10.0.0.6, at second 2.
const OUT: [u8; 82] = [
    0xd4, 0xc3, 0xb2, 0xa1, 2, 0, 4, 0, 0, 0, 0, 0, 0, 0, 0, 0, 0xff, 0xff, 0, 0, 1, 0, 0, 0, 2, 0,
    0, 0, 0, 0, 0, 0, 42, 0, 0, 0, 42, 0, 0, 0, 2, 0, 0, 0, 0, 1, 2, 0, 0, 0, 0, 2, 8, 0, 0x45, 0,
    0, 28, 0, 1, 0, 0, 64, 17, 0x46, 0x90, 10, 0, 0, 6, 198, 51, 100, 7, 0x13, 0x89, 0, 53, 0, 8,
    0xb7, 0xdf,
];

const SCRIPT: &[u8] = b"at 1 crash 0\nat 1 recover 0\n";

/// Server 0 crashes behind its visit of packet 0 and comes back without it. Packet 1 goes through.
const JOURNAL: &[u8] = b"ftc-journal 2
enter 0
visit 0 0 63
crash 0
recover 0 0:0
pull 0
pull 1
enter 1
visit 0 1 63
pass 0 1
take 0 1
apply 1 1 0 1
visit 1 1 63
pass 1 1
release 1
take 1 1
carry 1
";

// Packet 0 was inside server 0 at event 2. For packet 1, 10 + 0 + 0 + 6 is 0 modulo 8.
const REPORT: &[u8] =
    b"ftc-report 1\npackets 2\nreleased 1\nfiltered 0\nlost 1\nfate 0 lost 2\nfate 1 released\n\
    store 0 1\nkey 6d0000 0000000000000001\nstore 1 0\n";

/// The header, the packet that is lost, and the one that comes out.
fn capture_text(alloc: Global) -> Result<Bytes, NoMemory> {
    let mut text = Bytes::new(alloc);
    text.append(&OUT[..24])?;
    text.append(LOST.as_slice())?;
    text.append(&OUT[24..])?;
    Ok(text)
}

/// What the check says of these files beside the capture and the script, for a server that counts packets in
/// eight groups and one that passes everything, of which one may be down.
fn answer(
    alloc: Global,
    out: &[u8],
    journal: &[u8],
    report: &[u8],
) -> Result<Option<Checked>, NoMemory> {
    let mut rules = Items::new(alloc);
    rules.push(Rule::Monitor { groups: 8 })?;
    rules.push(Rule::Pass)?;
    let spec = ChainSpec::new(1, 4, rules);
    let capture = capture_text(alloc)?;
    judged(
        alloc,
        &spec,
        capture.as_slice(),
        SCRIPT,
        out,
        journal,
        report,
    )
}

#[test]
fn the_files_of_a_run_with_a_crash_are_right(rt: HostRuntime) -> Result<(), Fail> {
    let alloc = rt.alloc();
    let yes = Some(Checked::Yes);
    assert_eq!(rt; answer(alloc, OUT.as_slice(), JOURNAL, REPORT)?, yes);
    let mut tapped = Bytes::new(alloc);
    tapped.append(REPORT)?;
    tapped.append(b"tap packets 1\n")?;
    assert_eq!(rt;
        answer(alloc, OUT.as_slice(), JOURNAL, tapped.as_slice())?,
        yes
    );
    Ok(())
}

#[test]
fn another_last_byte_is_named(rt: HostRuntime) -> Result<(), Fail> {
    let alloc = rt.alloc();
    let mut changed = OUT;
    changed[81] = 0xde;
    assert_eq!(rt;
        answer(alloc, changed.as_slice(), JOURNAL, REPORT)?,
        Some(Checked::OutDiffers { at: 81 })
    );
    Ok(())
}

#[test]
fn without_its_last_event_the_run_is_unfinished(rt: HostRuntime) -> Result<(), Fail> {
    let alloc = rt.alloc();
    let journal = &JOURNAL[..JOURNAL.len() - b"carry 1\n".len()];
    assert_eq!(rt;
        answer(alloc, OUT.as_slice(), journal, REPORT)?,
        Some(Checked::Unfinished)
    );
    Ok(())
}
