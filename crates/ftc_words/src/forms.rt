//! The form of each command's words.

ghost use Rattle.std.specs.Prelude.{◌≡◌, ◌-◌, ◌++◌, ◌∷◌, true, Some, None, IfSome, option_map};
ghost use Rattle.std.specs.List.{list_all, list_any};
ghost use Rattle.std.specs.Str.{bytes_eq};
ghost use Rattle.ftc_words.specs.Given.{is_name, texts_of};
ghost use Rattle.ftc_words.specs.Shown.{shown, named_of, shown_move, shown_mode, sorted_of};
ghost use Rattle.ftc_words.specs.Command.{number_in, named, names_of, move_of, workers, mode_of, are_distinct, of_form};
ghost use Rattle.ftc_words.specs.Command.{run_form, check_form, make_form, ports_form, watch_form, plain, of_word};
ghost use Rattle.ftc_words.specs.Command.{forms, spelled, six_of, files_of, named_by, AreWorkers, IsWithin};

use crate::command::{Command, Mode, Move, Names};
use crate::limits::MOST_MISSED;
use crate::sorting::{Sorted, sort};
use ftc_base::limits::{MOST_NUMBER, MOST_RECORDS, MOST_SERVERS, MOST_THREADS};
use ftc_base::number;

/// The number that the word spells, where it lies there.
fn number_in(word: &str, least: u32, most: u32) -> Option<u32>
    ensures { result ≡ number_in least most word.now }
{
    match number(word.as_bytes(), most) {
        Ok(value) => if value >= least { Some(value) } else { None },
        Err(_) => None,
    }
}

/// The number of the server that the word names.
fn server_in(word: &str) -> Option<u8>
    ensures { result ≡ number_in 0 (MOST_SERVERS - 1) word.now }
{
    let server = number_in(word, 0, u32::from(MOST_SERVERS - 1))?;
    Some(server as u8)
}

/// The number of workers that the word says.
fn workers_in(word: &str) -> Option<u8>
    ensures number { result ≡ number_in 1 MOST_THREADS word.now }
    ensures within { IfSome result (λ count. AreWorkers (workers count)) }
{
    let count = number_in(word, 1, u32::from(MOST_THREADS))?;
    Some(count as u8)
}

/// The planned move of these two words, if there is one.
fn move_of<'a>(moved: Option<(&'a str, &'a str)>) -> Option<Option<Move<'a>>>
    ensures { option_map (option_map shown_move) result
        ≡ move_of (option_map (λ pair. (pair.0.now, pair.1.now)) moved.entry) }
{
    match moved {
        None => Some(None),
        Some((number, file)) => {
            let server = server_in(number)?;
            Some(Some(Move { server, file }))
        }
    }
}

/// What the options say of a run, where they may stand together.
fn mode_of<'a>(sorted: &Sorted<'a>) -> Option<Mode<'a>>
    ensures mode { option_map shown_mode result ≡ mode_of (sorted_of sorted.now) }
    ensures within { IfSome result (λ mode. AreWorkers (shown_mode mode)) }
{
    match sorted.workers {
        Some(count) => {
            if sorted.schedule.is_some() || sorted.moved.is_some() {
                return None;
            }
            let count = workers_in(count)?;
            Some(Mode::Workers { count })
        }
        None => match sorted.schedule {
            Some(schedule) => {
                let moved = move_of(sorted.moved)?;
                Some(Mode::Alone { schedule, moved })
            }
            None => if sorted.moved.is_some() {
                None
            } else {
                Some(Mode::Plain)
            },
        },
    }
}

fn is_in(word: &str, words: &[&str]) -> bool
    ensures { result ≡ list_any (bytes_eq word.now) (texts_of words.now) }
{
    let mut rest = words;
    while let [other, after @ ..] = rest {
        if word == *other {
            return true;
        }
        rest = after;
    }
    false
}

fn are_distinct(words: &[&str]) -> bool
    ensures { result ≡ are_distinct (texts_of words.now) }
{
    let mut rest = words;
    while let [word, after @ ..] = rest {
        if is_in(*word, after) {
            return false;
        }
        rest = after;
    }
    true
}

/// Whether the names and one more are all different.
fn differ(more: &str, names: &[&str]) -> bool
    ensures { result ≡ are_distinct (more.now ∷ texts_of names.now) }
{
    !is_in(more, names) && are_distinct(names)
}

/// Whether the names, and those that the options give, are all different.
fn all_differ(mode: &Mode<'_>, names: &[&str]) -> bool
    ensures { result ≡ are_distinct (names_of (shown_mode mode.now) ++ texts_of names.now) }
{
    match mode {
        Mode::Plain => are_distinct(names),
        Mode::Workers { .. } => are_distinct(names),
        Mode::Alone { schedule, moved } => match moved {
            None => differ(*schedule, names),
            Some(Move { file, .. }) => {
                *schedule != *file && !is_in(*schedule, names) && differ(*file, names)
            }
        },
    }
}

/// The names of six words.
fn names_in<'a>(words: &[&'a str]) -> Option<Names<'a>>
    ensures named { option_map named_of result ≡ named (texts_of words.now) }
    ensures all { IfSome result (λ names. six_of (named_of names) ≡ texts_of words.now) }
{
    match words {
        [chain, script, capture, out, journal, report] => Some(Names {
            chain: *chain,
            script: *script,
            capture: *capture,
            out: *out,
            journal: *journal,
            report: *report,
        }),
        _ => None,
    }
}

fn run_of<'a>(words: &[&'a str], mode: &Mode<'a>) -> Option<Command<'a>>
    requires { AreWorkers (shown_mode mode.now) }
    ensures command { option_map shown result ≡ of_form run_form (shown_mode mode.now) (texts_of words.now) }
    ensures distinct { IfSome result (λ command. are_distinct (files_of (shown command)) ≡ true) }
    ensures within { IfSome result (λ command. IsWithin (shown command)) }
{
    let names = names_in(words)?;
    if !all_differ(mode, words) {
        return None;
    }
    let mode = *mode;
    Some(Command::Run { names, mode })
}

fn check_of<'a>(words: &[&'a str]) -> Option<Command<'a>>
    ensures command { option_map shown result ≡ of_form check_form plain (texts_of words.now) }
    ensures distinct { IfSome result (λ command. are_distinct (files_of (shown command)) ≡ true) }
    ensures within { IfSome result (λ command. IsWithin (shown command)) }
{
    let names = names_in(words)?;
    if !are_distinct(words) {
        return None;
    }
    Some(Command::Check { names })
}

fn make_of<'a>(words: &[&'a str]) -> Option<Command<'a>>
    ensures command { option_map shown result ≡ of_form make_form plain (texts_of words.now) }
    ensures distinct { IfSome result (λ command. are_distinct (files_of (shown command)) ≡ true) }
    ensures within { IfSome result (λ command. IsWithin (shown command)) }
{
    let [packets, seed, capture] = words else {
        return None;
    };
    let packets = number_in(*packets, 1, MOST_RECORDS as u32)?;
    let seed = number_in(*seed, 0, MOST_NUMBER)?;
    let capture = *capture;
    Some(Command::Make {
        packets,
        seed,
        capture,
    })
}

fn ports_of<'a>(words: &[&'a str]) -> Option<Command<'a>>
    ensures command { option_map shown result ≡ of_form ports_form plain (texts_of words.now) }
    ensures distinct { IfSome result (λ command. are_distinct (files_of (shown command)) ≡ true) }
    ensures within { IfSome result (λ command. IsWithin (shown command)) }
{
    let [chain, capture, journal, server] = words else {
        return None;
    };
    let server = server_in(*server)?;
    if !are_distinct(&[*chain, *capture, *journal]) {
        return None;
    }
    Some(Command::Ports {
        chain: *chain,
        capture: *capture,
        journal: *journal,
        server,
    })
}

fn watch_of<'a>(words: &[&'a str]) -> Option<Command<'a>>
    ensures command { option_map shown result ≡ of_form watch_form plain (texts_of words.now) }
    ensures distinct { IfSome result (λ command. are_distinct (files_of (shown command)) ≡ true) }
    ensures within { IfSome result (λ command. IsWithin (shown command)) }
{
    let [limit, chain, capture, beats, script] = words else {
        return None;
    };
    let limit = number_in(*limit, 1, MOST_MISSED)? as u8;
    if !are_distinct(&[*chain, *capture, *beats, *script]) {
        return None;
    }
    Some(Command::Watch {
        limit,
        chain: *chain,
        capture: *capture,
        beats: *beats,
        script: *script,
    })
}

/// The command of that word, with these words besides its options.
fn of_word<'a>(word: &str, mode: &Mode<'a>, words: &[&'a str]) -> Option<Command<'a>>
    requires { AreWorkers (shown_mode mode.now) }
    ensures command { option_map shown result ≡ of_word forms word.now (shown_mode mode.now) (texts_of words.now) }
    ensures distinct { IfSome result (λ command. are_distinct (files_of (shown command)) ≡ true) }
    ensures within { IfSome result (λ command. IsWithin (shown command)) }
{
    if word == "run" {
        return run_of(words, mode);
    }
    let Mode::Plain = mode else {
        return None;
    };
    match word {
        "check" => check_of(words),
        "make" => make_of(words),
        "ports" => ports_of(words),
        "watch" => watch_of(words),
        _ => None,
    }
}

/// The command that the words are, whether it is built or not.
pub fn spelled<'a>(words: &[&'a str]) -> Option<Command<'a>>
    ensures command { option_map shown result ≡ spelled (texts_of words.now) }
    ensures distinct { IfSome result (λ command. are_distinct (files_of (shown command)) ≡ true) }
    ensures named { IfSome result (λ command. list_all is_name (named_by (shown command)) ≡ true) }
    ensures within { IfSome result (λ command. IsWithin (shown command)) }
{
    let [word, others @ ..] = words else {
        return None;
    };
    let sorted = sort(others)?;
    let mode = mode_of(&sorted)?;
    of_word(*word, &mode, sorted.plain.as_slice())
}
