//! The words as clap reads them.

ghost use Rattle.std.specs.Prelude.{◌≡◌, true, IfErr, IfOk};
ghost use Rattle.clap.specs.Words.{kind_of};
ghost use Rattle.ftc_words.specs.Given.{texts_of};
ghost use Rattle.ftc_words.specs.Form.{has_form, handed};

use clap::error::ErrorKind;
use clap::{Arg, ArgAction, ArgMatches, Command, Error};
use std::alloc::{AllocError, Global};

/// The words of a command without `--move` and its two values.
pub fn without_move<'a>(alloc: Global, words: &[&'a str]) -> Result<Vec<&'a str>, AllocError>
    ensures { IfOk result (λ others. texts_of others.items ≡ handed (texts_of words.now)) }
{
    let mut others = Vec::new(alloc);
    let [command, options @ ..] = words else {
        return Ok(others);
    };
    others.push(*command)?;
    let mut skipped: usize = 0;
    let mut rest = options;
    while let [word, after @ ..] = rest {
        if skipped > 0 {
            skipped -= 1;
        } else if *word == "--move" {
            skipped = 2;
        } else {
            others.push(*word)?;
        }
        rest = after;
    }
    Ok(others)
}

/// What clap makes of the words, the first of which is the command's. Want of memory alone refuses them.
pub fn matches_of<'a>(alloc: Global, words: &'a [&'a str]) -> Result<ArgMatches<'a>, Error>
    requires form { has_form (texts_of words.now) ≡ true }
    ensures err { IfErr result (λ error. kind_of error ≡ ErrorKind.OutOfMemory) }
{
    let workers = Arg::new(alloc, "workers")
        .long("workers")
        .action(ArgAction::Append);
    let alone = Arg::new(alloc, "alone")
        .long("alone")
        .action(ArgAction::Append);
    let names = Arg::new(alloc, "names").action(ArgAction::Append);
    let command = Command::new(alloc, "ftc")
        .arg(workers)?
        .arg(alone)?
        .arg(names)?;
    command.try_get_matches_from(words)
}
