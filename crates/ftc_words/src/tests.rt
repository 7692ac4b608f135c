ghost use Rattle.std.specs.Prelude.{◌≡◌, true};
ghost use Rattle.ftc_words.specs.Given.{texts_of};
ghost use Rattle.ftc_words.specs.Form.{has_form};

use crate::command::{Command, Mode};
use crate::forms::spelled;
use crate::matches::{matches_of, without_move};
use crate::reading::{command_of, read_command};
use clap::{ArgMatches, Error};
use std::alloc::Global;
use std::fmt::Debug;
use std::process::Abort;
use std::test::Fail;

/// Compares two values.
fn same<T: Copy + Debug + PartialEq>(rt: &impl Abort, told: T, wanted: T) {
    assert_eq!(rt; told, wanted);
}

/// The files of a run; empty names where the command is none.
fn files_of<'a>(command: &Option<Command<'a>>) -> [&'a str; 6] {
    match command {
        Some(Command::Run { names, .. }) => [
            names.chain,
            names.script,
            names.capture,
            names.out,
            names.journal,
            names.report,
        ],
        _ => [""; 6],
    }
}

/// Compares the files of a run.
fn is_of_files(rt: &impl Abort, command: &Option<Command<'_>>) {
    same(rt, files_of(command), ["c", "s", "p", "o", "j", "r"]);
}

/// How many workers have a run, or none.
fn workers_of(command: &Option<Command<'_>>) -> Option<u8> {
    match command {
        Some(
            Command::Run {
                mode: Mode::Workers { count },
                ..
            },
        ) => Some(*count),
        _ => None,
    }
}

/// The schedule of a run, or none.
fn schedule_of<'a>(command: &Option<Command<'a>>) -> Option<&'a str> {
    match command {
        Some(
            Command::Run {
                mode: Mode::Alone { schedule, .. },
                ..
            },
        ) => Some(*schedule),
        _ => None,
    }
}

/// The planned move of a run, or none: the server and the file.
fn move_of<'a>(command: &Option<Command<'a>>) -> Option<(u8, &'a str)> {
    match command {
        Some(
            Command::Run {
                mode: Mode::Alone {
                    moved: Some(moved),
                    ..
                },
                ..
            },
        ) => Some((moved.server, moved.file)),
        _ => None,
    }
}

/// What is made, or none: the packets, the seed and the capture.
fn made_of<'a>(command: &Option<Command<'a>>) -> Option<(u32, u32, &'a str)> {
    match command {
        Some(
            Command::Make {
                packets,
                seed,
                capture,
            },
        ) => Some((*packets, *seed, *capture)),
        _ => None,
    }
}

/// What clap has of the workers, of the schedule and of the other words, if it took them.
fn clap_texts_of<'a>(matches: &Result<ArgMatches<'a>, Error>) -> [Option<&'a str>; 3] {
    match matches {
        Ok(matches) => [
            matches.get_str("workers"),
            matches.get_str("alone"),
            matches.get_str("names"),
        ],
        Err(_) => [None; 3],
    }
}

#[test]
fn a_run_is_read(rt: HostRuntime) -> Result<(), Fail> {
    let words = ["run", "c", "s", "p", "o", "j", "r"];
    let command = read_command(rt.alloc(), &words)?;
    is_of_files(&rt, &command);
    Ok(())
}

#[test]
fn options_stand_anywhere_behind_the_command(rt: HostRuntime) {
    let words = [
        "run", "c", "--move", "15", "f", "s", "p", "o", "j", "--alone", "e", "r",
    ];
    let command = spelled(&words);
    is_of_files(&rt, &command);
    same(&rt, schedule_of(&command), Some("e"));
    same(&rt, move_of(&command), Some((15, "f")));
}

#[test]
fn words_of_commands(rt: HostRuntime) {
    let cases: [&[&str]; 9] = [
        &["run", "--workers", "32", "c", "s", "p", "o", "j", "r"],
        &["run", "c", "s", "p", "o", "j", "r", "--workers", "1"],
        &["run", "c", "s", "p", "o", "j", "r", "--alone", "e"],
        &["check", "c", "s", "p", "o", "j", "r"],
        &["make", "1", "0", "p"],
        &["make", "100000", "4294967295", "p"],
        &["ports", "c", "p", "j", "0"],
        &["watch", "255", "c", "p", "b", "s"],
        &["watch", "1", "c", "p", "1", "s"],
    ];
    for words in cases {
        same(&rt, spelled(words).is_some(), true);
    }
}

/// Words that spell no command.
const NO_COMMANDS: [&[&str]; 26] = [
    &[],
    &["run"],
    &["Run", "c", "s", "p", "o", "j", "r"],
    &["run", "c", "s", "p", "o", "j"],
    &["run", "c", "s", "p", "o", "j", "r", "x"],
    &["run", "c", "s", "p", "o", "j", "j"],
    &["run", "c", "s", "p", "o", "j", ""],
    &["run", "c", "s", "p", "o", "j", "-"],
    &["run", "c", "s", "p", "o", "j", "r", "--"],
    &["run", "c", "s", "p", "o", "j", "r", "--workers"],
    &["run", "c", "s", "p", "o", "j", "r", "--workers=4"],
    &["run", "c", "s", "p", "o", "j", "r", "--workers", "33"],
    &["run", "c", "s", "p", "o", "j", "r", "--workers", "0"],
    &[
        "run",
        "c",
        "s",
        "p",
        "o",
        "j",
        "r",
        "--workers",
        "4",
        "--workers",
        "4",
    ],
    &[
        "run",
        "c",
        "s",
        "p",
        "o",
        "j",
        "r",
        "--workers",
        "4",
        "--alone",
        "e",
    ],
    &["run", "c", "s", "p", "o", "j", "r", "--alone", "-e"],
    &["run", "c", "s", "p", "o", "j", "r", "--alone", "c"],
    &["run", "c", "s", "p", "o", "j", "r", "--move", "1", "f"],
    &[
        "run", "c", "s", "p", "o", "j", "r", "--alone", "e", "--move", "16", "f",
    ],
    &[
        "run", "c", "s", "p", "o", "j", "r", "--alone", "e", "--move", "1", "e",
    ],
    &["--workers", "4", "run", "c", "s", "p", "o", "j", "r"],
    &["check", "c", "s", "p", "o", "j", "r", "--alone", "e"],
    &["make", "0", "0", "p"],
    &["make", "100001", "0", "p"],
    &["ports", "c", "p", "j", "16"],
    &["watch", "01", "c", "p", "b", "s"],
];

#[test]
fn words_of_no_command(rt: HostRuntime) {
    for words in NO_COMMANDS {
        same(&rt, spelled(words).is_none(), true);
    }
}

#[test]
fn a_planned_move_is_not_built(rt: HostRuntime) -> Result<(), Fail> {
    let words = [
        "run", "c", "s", "p", "o", "j", "r", "--alone", "e", "--move", "1", "f",
    ];
    let read = read_command(rt.alloc(), &words)?;
    same(
        &rt,
        [command_of(&words).is_none(), read.is_none()],
        [true, true],
    );
    Ok(())
}

#[test]
fn a_run_by_workers_is_read(rt: HostRuntime) -> Result<(), Fail> {
    let words = ["run", "c", "s", "--workers", "32", "p", "o", "j", "r"];
    let command = read_command(rt.alloc(), &words)?;
    is_of_files(&rt, &command);
    same(&rt, workers_of(&command), Some(32));
    Ok(())
}

#[test]
fn a_run_by_a_schedule_is_read(rt: HostRuntime) -> Result<(), Fail> {
    let words = ["run", "--alone", "e", "c", "s", "p", "o", "j", "r"];
    let command = read_command(rt.alloc(), &words)?;
    is_of_files(&rt, &command);
    same(&rt, schedule_of(&command), Some("e"));
    same(&rt, move_of(&command), None);
    Ok(())
}

#[test]
fn a_make_is_read(rt: HostRuntime) -> Result<(), Fail> {
    let command = read_command(rt.alloc(), &["make", "100000", "4294967295", "p"])?;
    same(&rt, made_of(&command), Some((100_000, u32::MAX, "p")));
    Ok(())
}

/// Hands clap words with both options, and compares what it has of them.
fn are_taken<'a>(rt: &impl Abort, alloc: Global, handed: &'a [&'a str])
    requires { has_form (texts_of handed.now) ≡ true }
{
    same(rt, handed.len(), 9);
    let matches = matches_of(alloc, handed);
    same(
        rt,
        clap_texts_of(&matches),
        [Some("4"), Some("e"), Some("c")],
    );
}

/// What clap is handed of words with every option.
#[test]
fn clap_takes_what_is_left(rt: HostRuntime) -> Result<(), Fail> {
    let words = [
        "run",
        "c",
        "--move",
        "1",
        "f",
        "s",
        "--workers",
        "4",
        "p",
        "--alone",
        "e",
        "o",
    ];
    let handed = without_move(rt.alloc(), &words)?;
    are_taken(&rt, rt.alloc(), &handed);
    Ok(())
}
