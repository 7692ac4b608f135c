//! Beats with what has to come of them.

use crate::{Beats, BeatsFault, Watched, read_beats, summary, watch};
use ftc_base::Refuse;
use ftc_ring::Ring;
use std::alloc::Global;
use std::process::Abort;
use std::test::Fail;

/// A text for so many servers, of which so many may be down, and so many packets, and what is wrong with
/// it: the line and the number of the cause.
type Reading = (&'static str, (u8, u8, u32), Option<(u32, u8)>);

/// A text for servers, failures and packets, with a limit, and what has to come of it: the script, the
/// held lines, and how many servers were fenced and refused.
type Watching = (
    &'static str,
    (u8, u8, u32, u8),
    &'static str,
    &'static str,
    (u32, u32),
);

/// What is wrong, where beats were refused for a fault.
fn place_of(answer: Result<Beats, Refuse<BeatsFault>>) -> Option<(u32, u8)> {
    match answer.err() {
        Some(Refuse::Bad(fault)) => Some((fault.line, fault.cause as u8)),
        _ => None,
    }
}

/// Compares what is wrong with a text.
fn is_wrong(rt: &impl Abort, text: &str, told: Option<(u32, u8)>, wanted: Option<(u32, u8)>) {
    assert_eq!(rt; told, wanted, "{text}");
}

const READINGS: [Reading; 32] = [
    ("ftc-beats 1\n", (2, 1, 2), None),
    (
        "ftc-beats 1\ntick 0 0 1\ntick 1 1\ntick 1 1\ntick 2 0 1\n",
        (2, 1, 2),
        None,
    ),
    (
        "ftc-beats 1\ntick 4294967295\n",
        (1, 0, 4_294_967_295),
        None,
    ),
    ("", (2, 1, 2), Some((1, 1))),
    ("ftc-beats 1", (2, 1, 2), Some((1, 1))),
    ("f", (3, 0, 3), Some((1, 1))),
    ("ftc-beatst 1\n", (4, 0, 5), Some((1, 1))),
    ("ftc-beats 1tick 0\n", (1, 0, 1), Some((1, 1))),
    ("ftc-beats 1 \ntick 0\n", (1, 0, 1), Some((1, 1))),
    ("# beats\nftc-beats 1\n", (1, 0, 1), Some((1, 1))),
    ("ftc-beats 1\n\n", (2, 1, 2), Some((2, 2))),
    ("ftc-beats 1\ntick\n", (2, 1, 2), Some((2, 2))),
    ("ftc-beats 1\ntick \n", (2, 1, 2), Some((2, 2))),
    ("ftc-beats 1\ntick  0\n", (2, 1, 2), Some((2, 2))),
    ("ftc-beats 1\ntick 0 \n", (2, 1, 2), Some((2, 2))),
    ("ftc-beats 1\ntick 00\n", (2, 1, 2), Some((2, 2))),
    ("ftc-beats 1\ntick 4294967296\n", (2, 1, 2), Some((2, 2))),
    ("ftc-beats 1\ntick 0 7 x\n", (2, 1, 2), Some((2, 2))),
    ("ftc-beats 1\ntick 0\ntick 1", (2, 1, 2), Some((3, 2))),
    ("ftc-beats 1\nick 1", (1, 0, 1), Some((2, 2))),
    ("ftc-beats 1\ntick20 1 4 5\n", (6, 0, 5), Some((2, 2))),
    (
        "ftc-beats 1\ntick 0 0\n6tick 1\ntick 2 0\n",
        (1, 0, 2),
        Some((3, 2)),
    ),
    ("ftc-beats 1\ntick 3\n", (2, 1, 2), Some((2, 4))),
    ("ftc-beats 1\ntick 8 0 1 2 3 4 5\n", (6, 5, 2), Some((2, 4))),
    (
        "ftc-beats 1\ntick 1 0 1\ntick 1 0 122\ntick 2 0 1 2\n",
        (3, 0, 3),
        Some((3, 5)),
    ),
    ("ftc-beats 1\ntick 0 2 1\n", (2, 1, 2), Some((2, 5))),
    ("ftc-beats 1\ntick 9 1 0 2\n", (2, 1, 2), Some((2, 5))),
    ("ftc-beats 1\ntick 9 1 0\n", (2, 1, 2), Some((2, 4))),
    ("ftc-beats 1\ntick 0 1 0\n", (2, 1, 2), Some((2, 3))),
    ("ftc-beats 1\ntick 0 1 1\n", (2, 1, 2), Some((2, 3))),
    ("ftc-beats 1\ntick 2\ntick 1\n", (2, 1, 2), Some((3, 3))),
    (
        "ftc-beats 1\ntick 0 0 1 2 4 5 7 8 9 0 11 12 13 15\ntick 0 0 1 2 3 4 5 6 7 9 ",
        (16, 12, 1),
        Some((2, 3)),
    ),
];

#[test]
fn beats_are_read_or_their_first_fault_is_named(rt: HostRuntime) {
    for (text, (servers, failures, packets), place) in READINGS {
        let ring = Ring::new(servers, failures).expect(&rt, "a ring");
        let answer = read_beats(rt.alloc(), text.as_bytes(), &ring, packets);
        is_wrong(&rt, text, place_of(answer), place);
    }
}

/// Beats with so many ticks without a beat, and an end.
fn silent(alloc: Global, ticks: u32, last: &str) -> Result<String, Fail> {
    let mut text = String::new(alloc);
    text.push_str("ftc-beats 1\n")?;
    for _ in 0..ticks {
        text.push_str("tick 0\n")?;
    }
    text.push_str(last)?;
    Ok(text)
}

#[test]
fn the_tick_behind_the_last_that_may_be_is_too_many(rt: HostRuntime) -> Result<(), Fail> {
    let ring = Ring::new(2, 1).expect(&rt, "a ring");
    for (ticks, last, wanted) in [
        (1000, "", None),
        (1001, "", Some((1002, 6))),
        (1000, "x", Some((1002, 6))),
        (999, "x", Some((1001, 2))),
    ] {
        let text = silent(rt.alloc(), ticks, last)?;
        let answer = read_beats(rt.alloc(), text.as_bytes(), &ring, 2);
        is_wrong(&rt, last, place_of(answer), wanted);
    }
    Ok(())
}

const WATCHINGS: [Watching; 11] = [
    (
        "ftc-beats 1\ntick 0 0 1\ntick 1 1\ntick 1 1\ntick 2 0 1\n",
        (2, 1, 2, 2),
        "at 1 crash 0\nat 2 recover 0\n",
        "",
        (1, 0),
    ),
    (
        "ftc-beats 1\ntick 1\n",
        (2, 1, 2, 1),
        "at 1 crash 0\nat 2 recover 0\n",
        "held 1 1 0\n",
        (1, 1),
    ),
    (
        "ftc-beats 1\ntick 1 0\ntick 3\n",
        (1, 0, 8, 3),
        "",
        "",
        (0, 0),
    ),
    (
        "ftc-beats 1\ntick 0 0 2\n",
        (3, 2, 8, 1),
        "at 0 crash 1\nat 8 recover 1\n",
        "",
        (1, 0),
    ),
    (
        "ftc-beats 1\ntick 0\ntick 2\ntick 2\n",
        (1, 0, 3, 1),
        "",
        "held 0 0 0\nheld 2 0 0\nheld 2 0 0\n",
        (0, 3),
    ),
    (
        "ftc-beats 1\ntick 0 1\ntick 1 0\ntick 1\n",
        (2, 0, 1, 2),
        "",
        "held 1 1 1\n",
        (0, 1),
    ),
    (
        "ftc-beats 1\ntick 0 1 2\ntick 0 0 2\ntick 2 0\n",
        (3, 1, 2, 1),
        "at 0 crash 0\nat 0 recover 0\nat 0 crash 1\nat 2 recover 1\nat 2 crash 1\nat 2 recover 1\n",
        "held 2 2 1\n",
        (3, 1),
    ),
    (
        "ftc-beats 1\ntick 0 0 2\ntick 0 1\ntick 1 0 1 2\n",
        (3, 0, 1, 1),
        "",
        "held 0 1 1\nheld 0 0 0\nheld 0 2 2\n",
        (0, 3),
    ),
    (
        "ftc-beats 1\ntick 0 0 1\ntick 1\ntick 1 0 1\ntick 1\ntick 1 0\ntick 1 0\ntick 1 0 1\ntick 1 1\n",
        (2, 1, 1, 2),
        "at 1 crash 1\nat 1 recover 1\n",
        "",
        (1, 0),
    ),
    (
        "ftc-beats 1\ntick 1 0\ntick 1 0 1\ntick 2 0 1\ntick 2 0\ntick 2 0 1\ntick 4 1\ntick 5 0 1\n",
        (2, 1, 8, 1),
        "at 1 crash 1\nat 1 recover 1\nat 2 crash 1\nat 2 recover 1\nat 4 crash 0\nat 5 recover 0\n",
        "",
        (3, 0),
    ),
    (
        "ftc-beats 1\ntick 1 0 2 4\n",
        (6, 1, 5, 1),
        "at 1 crash 1\nat 1 crash 3\nat 1 crash 5\nat 5 recover 1\nat 5 recover 3\nat 5 recover 5\n",
        "",
        (3, 0),
    ),
];

/// What comes of a text that is right, with a limit of at least 1.
fn watched(alloc: Global, text: &str, ring: &Ring, packets: u32, limit: u8) -> Option<Watched> {
    if limit == 0 {
        return None;
    }
    match read_beats(alloc, text.as_bytes(), ring, packets) {
        Ok(beats) => watch(alloc, &beats, ring, limit, packets).ok(),
        Err(_) => None,
    }
}

/// Compares how many servers were fenced and refused.
fn counts(rt: &impl Abort, told: &Watched, fenced: u32, refused: u32) {
    assert_eq!(rt; (told.fenced, told.refused), (fenced, refused));
}

/// Compares the script and the held lines.
fn makes(rt: &impl Abort, told: &Watched, script: &str, held: &str) {
    assert!(rt; told.script.as_slice() == script.as_bytes());
    assert!(rt; told.held.as_slice() == held.as_bytes());
}

#[test]
fn beats_make_the_script_and_the_held_lines(rt: HostRuntime) {
    for (text, (servers, failures, packets, limit), script, held, (fenced, refused)) in WATCHINGS {
        let ring = Ring::new(servers, failures).expect(&rt, "a ring");
        let told = watched(rt.alloc(), text, &ring, packets, limit).expect(&rt, "right beats");
        makes(&rt, &told, script, held);
        counts(&rt, &told, fenced, refused);
    }
}

#[test]
fn what_is_told_of_a_watch(rt: HostRuntime) {
    let ring = Ring::new(2, 1).expect(&rt, "a ring");
    let told = watched(rt.alloc(), "ftc-beats 1\ntick 1\n", &ring, 2, 1).expect(&rt, "right beats");
    let text = summary(rt.alloc(), &told).expect(&rt, "memory");
    assert!(rt; text.as_slice() == b"ftc-watch 1\nfenced 1\nrefused 1\nheld 1 1 0\n".as_slice());
}
