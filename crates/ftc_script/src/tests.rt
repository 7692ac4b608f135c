//! Scripts with the answers that they have to get.

use crate::{Script, ScriptCause, ScriptFault, ScriptLine, read_script};
use ftc_base::{Refuse, ServerId};
use ftc_ring::Ring;
use std::alloc::Global;
use std::process::Abort;
use std::test::Fail;

/// A text and what is wrong with it: the line and the number of the cause.
type Case = (&'static str, Option<(u32, u8)>);

/// What is wrong, where a script was refused for a fault.
fn fault_in(answer: Result<Script, Refuse<ScriptFault>>) -> Option<ScriptFault> {
    match answer.err() {
        Some(Refuse::Bad(fault)) => Some(fault),
        _ => None,
    }
}

/// The server of that number, which is below 16.
fn server(rt: &impl Abort, number: u8) -> ServerId {
    ServerId::new(number).expect(rt, "a server")
}

/// What is wrong with a script for three servers, of which one may be down, and one packet.
fn fault_of(rt: &impl Abort, alloc: Global, text: &[u8]) -> Option<ScriptFault> {
    let ring = Ring::new(3, 1).expect(rt, "a ring");
    fault_in(read_script(alloc, text, &ring, 1))
}

/// Its line and the number of its cause.
fn place_of(fault: Option<ScriptFault>) -> Option<(u32, u8)> {
    match fault {
        Some(fault) => Some((fault.line, fault.cause.code())),
        None => None,
    }
}

/// Compares what is wrong with a text.
fn is_wrong(rt: &impl Abort, text: &str, told: Option<(u32, u8)>, wanted: Option<(u32, u8)>) {
    assert_eq!(rt; told, wanted, "{text}");
}

const SCRIPTS: [Case; 22] = [
    ("", None),
    ("# fail\n \t\r\n\nlose 2 0", None),
    ("at 1 crash 0\n\nat\t1  recover 0\n", None),
    (
        "at 0 crash 0\nat 0 recover 0\nat 1 crash 1\nat 1 recover 1\n",
        None,
    ),
    ("fail 0\n", Some((1, 1))),
    ("at 0 crash 0 0\n", Some((1, 1))),
    ("at 0 crash\n", Some((1, 1))),
    ("at 4294967296 crash 9\n", Some((1, 1))),
    ("lose 01 0\n", Some((1, 1))),
    ("lose 3 0\n", Some((1, 8))),
    ("at 2 crash 3\n", Some((1, 8))),
    ("at 2 crash 0\n", Some((1, 3))),
    ("lose 0 0\nlose 0 0\nlose 1 1\n", Some((3, 3))),
    ("at 1 crash 0\nat 0 recover 0\n", Some((2, 2))),
    ("at 1 crash 0\nat 0 recover 1\n", Some((2, 2))),
    ("at 0 crash 0\nat 0 crash 0\n", Some((2, 4))),
    ("at 0 recover 0\n", Some((1, 5))),
    ("at 0 crash 1\nat 0 crash 2\n", Some((2, 6))),
    ("at 0 crash 0\nat 0 crash 2\nat 0 crash 2\n", Some((2, 6))),
    ("at 0 crash 2", Some((2, 7))),
    ("at 0 crash 2\n\n", Some((3, 7))),
    ("at 0 crash 2\nfail\n", Some((2, 1))),
];

#[test]
fn the_first_faulty_line_is_named(rt: HostRuntime) {
    for (text, wanted) in SCRIPTS {
        let fault = fault_of(&rt, rt.alloc(), text.as_bytes());
        is_wrong(&rt, text, place_of(fault), wanted);
    }
}

#[test]
fn the_smallest_group_and_server_are_named(rt: HostRuntime) {
    let (group, server) = (server(&rt, 1), server(&rt, 2));
    for (text, cause) in [
        (
            "at 0 crash 1\nat 0 crash 2\n",
            ScriptCause::GroupGone { group },
        ),
        ("at 0 crash 2", ScriptCause::LeftDown { server }),
    ] {
        let wanted = ScriptFault { line: 2, cause };
        assert_eq!(rt; fault_of(&rt, rt.alloc(), text.as_bytes()), Some(wanted));
    }
}

/// Compares the steps of `TOLD`.
fn has_steps(rt: &impl Abort, script: &Script) {
    let server = server(rt, 1);
    assert_eq!(rt; script.steps(), 2);
    assert!(rt; script.steps() == 2 && script.step(0) == ScriptLine::Crash { at: 1, server });
    assert!(rt; script.steps() == 2 && script.step(1).at() == 2);
}

/// Compares what `TOLD` loses.
fn has_losses(rt: &impl Abort, script: &Script) {
    let (one, two) = (server(rt, 1), server(rt, 2));
    let told = [
        script.loses(two, 1),
        script.loses(one, 0),
        script.loses(one, 1),
    ];
    assert_eq!(rt; told, [Some(1), Some(6), None]);
}

const TOLD: &[u8] = b"lose 2 1\nat 1 crash 1\n# twice\nlose 2 1\nat 2 recover 1\nlose 1 0\n";

#[test]
fn an_accepted_script_tells_its_lines(rt: HostRuntime) -> Result<(), Fail> {
    let ring = Ring::new(3, 1).expect(&rt, "a ring");
    let Ok(script) = read_script(rt.alloc(), TOLD, &ring, 2) else {
        return Err(Fail::new("refused"));
    };
    has_steps(&rt, &script);
    has_losses(&rt, &script);
    assert_eq!(rt; (*script.ring(), script.packets()), (ring, 2));
    Ok(())
}

#[test]
fn a_script_may_be_too_long(rt: HostRuntime) -> Result<(), Fail> {
    for (letters, wanted) in [(1_048_577, Some((1, 9))), (1_048_576, None)] {
        let text = vec![in rt.alloc(); b' '; letters]?;
        let fault = fault_of(&rt, rt.alloc(), text.as_slice());
        is_wrong(&rt, "spaces", place_of(fault), wanted);
    }
    Ok(())
}
