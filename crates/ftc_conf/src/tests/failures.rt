//! Chains of which servers may be down.

use super::{Told, parts_of, parts_of_many};
use crate::{read_chain, read_chain_within};
use std::process::Abort;
use std::test::Fail;

/// A text, and what has to be told of it.
type Case = (&'static str, Told);

/// Compares what is told of a text.
fn is_told(rt: &impl Abort, text: &str, told: Told, wanted: Told) {
    assert_eq!(rt; told, wanted, "{text}");
}

const WHOLE_GRAMMAR: [Case; 9] = [
    ("f 1\npartitions 4\npass\nmonitor 8\n", Ok((1, 4, 2))),
    ("f 1\npartitions 64\nmonitor 8\nspare\n", Ok((1, 64, 2))),
    ("f 2\npartitions 1\npass\npass\nspare\n", Ok((2, 1, 3))),
    ("# two\nf 2\npartitions 4\npass\nspare\n", Err((2, 11))),
    ("f 2\npartitions 4\npass\n", Err((1, 11))),
    (
        "f 1\npartitions 4\nfirewall\nallow any any any any\n",
        Err((1, 11)),
    ),
    (
        "f 1\npartitions 4\nfirewall\nallow any any any any\npass\n",
        Ok((1, 4, 2)),
    ),
    ("f 1\npartitions 4\nspare\nspare\n", Err((5, 12))),
    ("f 0\npartitions 4\npass\n", Ok((0, 4, 1))),
];

#[test]
fn whole_grammar(rt: HostRuntime) {
    for (text, wanted) in WHOLE_GRAMMAR {
        let told = parts_of(read_chain(rt.alloc(), text.as_bytes()));
        is_told(&rt, text, told, wanted);
    }
}

#[test]
fn fifteen_of_sixteen_servers(rt: HostRuntime) -> Result<(), Fail> {
    for (end, wanted) in [("", Err((1, 11))), ("spare\n", Ok((15, 4, 16)))] {
        let told = parts_of_many(rt.alloc(), "f 15\npartitions 4\n", "pass\n", 15, end)?;
        is_told(&rt, end, told, wanted);
    }
    Ok(())
}

const NO_FAILURES: [Case; 5] = [
    ("f 0\npartitions 4\npass\nspare\n", Ok((0, 4, 2))),
    ("\nf 1\npartitions 4\npass\nspare\n", Err((2, 11))),
    ("f 15\npartitions 4\npass\n", Err((1, 11))),
    ("f 16\npartitions 4\npass\n", Err((1, 8))),
    ("f 1\npartitions 4\nspare\n", Err((4, 12))),
];

#[test]
fn within_no_failures(rt: HostRuntime) {
    for (text, wanted) in NO_FAILURES {
        let told = parts_of(read_chain_within(rt.alloc(), text.as_bytes(), 0));
        is_told(&rt, text, told, wanted);
    }
}

const ONE_FAILURE: [Case; 2] = [
    ("f 1\npartitions 4\npass\npass\npass\n", Ok((1, 4, 3))),
    ("f 2\npartitions 4\npass\npass\npass\n", Err((1, 11))),
];

#[test]
fn within_one_failure(rt: HostRuntime) {
    for (text, wanted) in ONE_FAILURE {
        let told = parts_of(read_chain_within(rt.alloc(), text.as_bytes(), 1));
        is_told(&rt, text, told, wanted);
    }
}
