//! From words to a command.

ghost use Rattle.std.specs.Prelude.{◌≡◌, ◌≢◌, true, None, IfSome, IfOk, IfErr, option_map};
ghost use Rattle.std.specs.List.{list_all};
ghost use Rattle.ftc_words.specs.Given.{is_name, texts_of};
ghost use Rattle.ftc_words.specs.Shown.{shown};
ghost use Rattle.ftc_words.specs.Form.{has_form};
ghost use Rattle.ftc_words.specs.Command.{command_of, is_built, are_distinct, files_of, named_by, IsWithin};

use crate::command::Command;
use crate::forms::spelled;
use crate::matches::{matches_of, without_move};
use ftc_base::NoMemory;
use std::alloc::Global;

/// The command that the words are, among those that the program has.
pub fn command_of<'a>(words: &[&'a str]) -> Option<Command<'a>>
    ensures command { option_map shown result ≡ command_of (texts_of words.now) }
    ensures built { IfSome result (λ command. is_built (shown command) ≡ true) }
    ensures distinct { IfSome result (λ command. are_distinct (files_of (shown command)) ≡ true) }
    ensures named { IfSome result (λ command. list_all is_name (named_by (shown command)) ≡ true) }
    ensures within { IfSome result (λ command. IsWithin (shown command)) }
{
    let command = spelled(words)?;
    if command.is_built() {
        Some(command)
    } else {
        None
    }
}

/// Lets clap take all words. It refuses them for want of memory alone.
fn take_all<'a>(alloc: Global, words: &'a [&'a str]) -> Result<(), NoMemory>
    requires { has_form (texts_of words.now) ≡ true }
{
    match matches_of(alloc, words) {
        Ok(_) => Ok(()),
        Err(_) => Err(NoMemory),
    }
}

/// The same, after clap has read the words as well, but for `--move` and its values. It refuses a command's words
/// for want of memory alone.
pub fn read_command<'a>(alloc: Global, words: &[&'a str]) -> Result<Option<Command<'a>>, NoMemory>
    ensures command { IfOk result (λ command. option_map shown command ≡ command_of (texts_of words.now)) }
    ensures built { IfOk result (λ command. IfSome command (λ given. is_built (shown given) ≡ true)) }
    ensures distinct { IfOk result (λ command. IfSome command (λ given. are_distinct (files_of (shown given)) ≡ true)) }
    ensures named { IfOk result (λ command. IfSome command (λ given.
        list_all is_name (named_by (shown given)) ≡ true)) }
    ensures within { IfOk result (λ command. IfSome command (λ given. IsWithin (shown given))) }
    ensures memory { IfErr result (λ _. command_of (texts_of words.now) ≢ None) }
{
    let Some(command) = command_of(words) else {
        return Ok(None);
    };
    let handed = without_move(alloc, words)?;
    take_all(alloc, &handed)?;
    Ok(Some(command))
}
