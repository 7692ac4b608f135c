//! The words of a line.

ghost use Rattle.std.specs.Prelude.{◌≡◌};
ghost use Rattle.std.specs.Str.{bytes_eq};
ghost use Rattle.ftc_base.specs.Text.{words_of};
ghost use Rattle.ftc_script.specs.Words.{number_word, event_of, at_words, lose_words, statement_of};

use crate::fault::ScriptCause;
use crate::statement::Statement;
use ftc_base::limits::MOST_NUMBER;
use ftc_base::{is_comment, number, split_word};

fn is_same(word: &[u8], text: &[u8]) -> bool
    ensures { result ≡ bytes_eq word.now text.now }
{
    word == text
}

fn number_word(word: &[u8]) -> Result<u32, ScriptCause>
    ensures { result ≡ number_word word.now }
{
    match number(word, MOST_NUMBER) {
        Ok(value) => Ok(value),
        Err(_) => Err(ScriptCause::Word),
    }
}

fn event_of(verb: &[u8], at: u32, server: u32) -> Result<Statement, ScriptCause>
    ensures { result ≡ event_of verb.now at server }
{
    if is_same(verb, b"crash") {
        Ok(Statement::Crash { at, server })
    } else if is_same(verb, b"recover") {
        Ok(Statement::Recover { at, server })
    } else {
        Err(ScriptCause::Word)
    }
}

/// What the words behind `at` say.
fn at_words(line: &[u8]) -> Result<Statement, ScriptCause>
    ensures { result ≡ at_words (words_of line.now) }
{
    let Some((number, line)) = split_word(line) else {
        return Err(ScriptCause::Word);
    };
    let Some((verb, line)) = split_word(line) else {
        return Err(ScriptCause::Word);
    };
    let Some((server, line)) = split_word(line) else {
        return Err(ScriptCause::Word);
    };
    if split_word(line).is_some() {
        return Err(ScriptCause::Word);
    }
    let at = number_word(number)?;
    let server = number_word(server)?;
    event_of(verb, at, server)
}

/// What the words behind `lose` say.
fn lose_words(line: &[u8]) -> Result<Statement, ScriptCause>
    ensures { result ≡ lose_words (words_of line.now) }
{
    let Some((link, line)) = split_word(line) else {
        return Err(ScriptCause::Word);
    };
    let Some((origin, line)) = split_word(line) else {
        return Err(ScriptCause::Word);
    };
    if split_word(line).is_some() {
        return Err(ScriptCause::Word);
    }
    let link = number_word(link)?;
    let origin = number_word(origin)?;
    Ok(Statement::Lose { link, origin })
}

/// What a line says.
pub fn statement_of(line: &[u8]) -> Result<Statement, ScriptCause>
    ensures { result ≡ statement_of (words_of line.now) }
{
    let Some((first, words)) = split_word(line) else {
        return Ok(Statement::Nothing);
    };
    if is_comment(first) {
        Ok(Statement::Nothing)
    } else if is_same(first, b"at") {
        at_words(words)
    } else if is_same(first, b"lose") {
        lose_words(words)
    } else {
        Err(ScriptCause::Word)
    }
}
