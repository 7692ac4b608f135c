//! Chain texts with the answers that they have to get.

mod every_kind;
mod failures;

use super::*;
use ftc_base::Refuse;
use ftc_mbox::ChainSpec;
use std::alloc::{AllocError, Global};
use std::process::Abort;
use std::test::Fail;

/// A text and what is wrong with it: the line and the number of the cause.
type Case = (&'static str, Option<(u64, u8)>);

/// The failures, the partitions and the count of rules of a chain, or the line and the number of the cause.
type Told = Result<(u8, u8, usize), (u64, u8)>;

/// What is told of a chain, or what is wrong with its text. Memory that is refused counts as line 0.
fn parts_of(read: Result<ChainSpec, Refuse<ChainFault>>) -> Told {
    match read {
        Ok(chain) => Ok((
            chain.failures(),
            chain.partitions(),
            chain.rules().as_slice().len(),
        )),
        Err(Refuse::Bad(fault)) => Err((fault.line, fault.cause as u8)),
        Err(Refuse::NoMemory) => Err((0, 0)),
    }
}

/// What is wrong with a text.
fn fault_of(alloc: Global, text: &[u8]) -> Option<(u64, u8)> {
    parts_of(read_chain(alloc, text)).err()
}

/// What is wrong with a text of the lines `f 0` and `partitions 4` and these.
fn fault_behind(alloc: Global, lines: &[u8]) -> Result<Option<(u64, u8)>, AllocError> {
    let mut text = b"f 0\npartitions 4\n".to_vec(alloc)?;
    text.extend_from_slice(lines)?;
    Ok(fault_of(alloc, text.as_slice()))
}

/// What is told of a text of a front, a piece so many times, and an end.
fn parts_of_many(
    alloc: Global,
    front: &str,
    piece: &str,
    times: u8,
    end: &str,
) -> Result<Told, AllocError> {
    let mut text = front.as_bytes().to_vec(alloc)?;
    for _ in 0..times {
        text.extend_from_slice(piece.as_bytes())?;
    }
    text.extend_from_slice(end.as_bytes())?;
    Ok(parts_of(read_chain(alloc, text.as_slice())))
}

/// Compares what is wrong with a text.
fn is_wrong(rt: &impl Abort, text: &str, told: Option<(u64, u8)>, wanted: Option<(u64, u8)>) {
    assert_eq!(rt; told, wanted, "{text}");
}

const WHOLE_TEXTS: [Case; 16] = [
    ("", Some((1, 2))),
    ("\n# only this\n \t\r\n", Some((4, 2))),
    ("f 0\n", Some((2, 3))),
    ("partitions 4\nf 0\n", Some((1, 2))),
    ("f 0\npass\n", Some((2, 3))),
    ("f 0 0\n", Some((1, 5))),
    ("f x\n", Some((1, 6))),
    ("f 4294967296\n", Some((1, 6))),
    ("f 16\n", Some((1, 8))),
    ("f 0\npartitions 0\n", Some((2, 8))),
    ("f 0\npartitions 65\n", Some((2, 8))),
    ("f 0\npartitions 64\npass", None),
    ("f 1\npartitions 4\nmonitor 8\n", Some((1, 11))),
    ("# f\nf 2\npartitions 4\npass\npass\n", Some((2, 11))),
    ("f 1\npartitions 4\nspare\n", Some((4, 12))),
    ("f 1\npartitions 4\nspare\nnat\n", Some((4, 13))),
];

#[test]
fn whole_texts(rt: HostRuntime) {
    for (text, wanted) in WHOLE_TEXTS {
        is_wrong(&rt, text, fault_of(rt.alloc(), text.as_bytes()), wanted);
    }
}

const MIDDLEBOXES: [Case; 40] = [
    ("pass \x07", Some((3, 1))),
    ("pass\n\n  # \x07\n\t\r", None),
    ("PASS", Some((3, 4))),
    ("pass pass", Some((3, 5))),
    ("", Some((3, 12))),
    ("spare\nmonitor 8", Some((4, 13))),
    ("spare", Some((4, 12))),
    ("spare\nmonitor x y", Some((4, 13))),
    ("monitor 256", None),
    ("monitor 257", Some((3, 8))),
    ("monitor 0", Some((3, 8))),
    ("monitor 01", Some((3, 6))),
    ("monitor", Some((3, 5))),
    (
        "nat inside 10.0.0.0/8 outside 1.1.1.1 ports 20000:20009",
        Some((3, 6)),
    ),
    (
        "nat inside 10.0.0.0/8 outside 1.1.1.1 ports 70000-x",
        Some((3, 6)),
    ),
    (
        "nat inside 10.0.0.0/8 outside 1.1.1.1 ports 0-x",
        Some((3, 8)),
    ),
    (
        "nat inside 10.0.0.0/8 outside 1.1.1.1 ports 5-4",
        Some((3, 8)),
    ),
    (
        "nat inside 10.0.0.0/8 outside 1.1.1.1 ports 5",
        Some((3, 6)),
    ),
    ("nat inside 10.0.0.0/8 outside 1.1.1.1 ports 1-65535", None),
    (
        "nat inside 10.0.0.0/8 outside 1.1.1.1 ports 1-65536",
        Some((3, 8)),
    ),
    (
        "nat inside 10.0.0.0/8 outside 10.0.0.5 port 5-4",
        Some((3, 8)),
    ),
    ("nat inside 10.0.0.0/33 at 10.0.0.5 ports 5-4", Some((3, 7))),
    ("nat inside 10.0.0.0/8 at 10.0.0.5 ports 5-4", Some((3, 4))),
    ("pass\nallow tcp any any any", Some((4, 4))),
    ("firewall\npass\nallow any any any any", Some((5, 4))),
    ("firewall\nallow icmp any any any", Some((4, 4))),
    ("firewall\n# open\n\ndeny tcp any 1.2.3 7-x", Some((6, 7))),
    ("firewall\ndeny tcp any 1.2.3.4/32 7-x", Some((4, 6))),
    ("firewall\ndeny tcp any 1.2.3.4/32 7-6", Some((4, 8))),
    ("firewall\ndeny tcp any 1.2.3.4/32 65536", Some((4, 8))),
    ("firewall\ndeny tcp any 1.2.3.4/32 0", None),
    ("balance 1.2.3.4 to 1.2.3.5", Some((3, 6))),
    ("balance 1.2.3:80 at 1.2.3.5", Some((3, 7))),
    ("balance 1.2.3.4:65536 at 1.2.3.5", Some((3, 8))),
    ("balance 1.2.3.4:80 at 1.2.3.5", Some((3, 4))),
    ("balance 1.2.3.4:80 to 1.2.3.5,", Some((3, 7))),
    ("balance 1.2.3.4:80 to 1.2.3.5, 1.2.3.6", Some((3, 5))),
    ("balance 1.2.3.4:0 to 1.2.3.5", None),
    ("balance 1.2.3.4: to 1.2.3.5", Some((3, 6))),
    ("balance 1.2.3.4:80:80 to 1.2.3.5", Some((3, 6))),
];

#[test]
fn middleboxes(rt: HostRuntime) -> Result<(), Fail> {
    for (lines, wanted) in MIDDLEBOXES {
        let told = fault_behind(rt.alloc(), lines.as_bytes())?;
        is_wrong(&rt, lines, told, wanted);
    }
    Ok(())
}

#[test]
fn a_comment_may_hold_any_byte(rt: HostRuntime) -> Result<(), Fail> {
    let told = fault_behind(rt.alloc(), b"# \xc3\xff\npass\n")?;
    is_wrong(&rt, "a comment", told, None);
    let told = fault_behind(rt.alloc(), b"pass \xc3\n")?;
    is_wrong(&rt, "a line", told, Some((3, 1)));
    Ok(())
}

/// Texts with as many servers, lines of a firewall and backends as there may be, and with one more: a front, a piece
/// and how many times it stands there, an end, and what is wrong.
const MANY: [(&str, &str, u8, &str, Option<(u64, u8)>); 6] = [
    ("f 0\npartitions 4\n", "pass\n", 15, "spare\n", None),
    (
        "f 0\npartitions 4\n",
        "pass\n",
        15,
        "spare\nspare 8\n",
        Some((19, 9)),
    ),
    (
        "f 0\npartitions 4\nfirewall\n",
        "allow any any any any\n",
        64,
        "",
        None,
    ),
    (
        "f 0\npartitions 4\nfirewall\n",
        "allow any any any any\n",
        64,
        "deny\n",
        Some((68, 10)),
    ),
    (
        "f 0\npartitions 4\nbalance 1.2.3.4:80 to 1.1.1.1",
        ",1.1.1.1",
        15,
        "",
        None,
    ),
    (
        "f 0\npartitions 4\nbalance 1.2.3.4:80 to 1.1.1.1",
        ",1.1.1.1",
        15,
        ",x",
        Some((3, 10)),
    ),
];

#[test]
fn one_more_than_there_may_be(rt: HostRuntime) -> Result<(), Fail> {
    for (front, piece, times, end, wanted) in MANY {
        let told = parts_of_many(rt.alloc(), front, piece, times, end)?;
        is_wrong(&rt, end, told.err(), wanted);
    }
    Ok(())
}
