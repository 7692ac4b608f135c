//! The texts of a watch.

ghost use Rattle.std.specs.Prelude.{◌≡◌, ◌++◌, [], ◌∷◌, OnOk, IfOk, string_bytes};
ghost use Rattle.std.specs.List.{join_with_byte};
ghost use Rattle.ftc_script.specs.Plain.{words_in, plain_text};
ghost use Rattle.ftc_watch.specs.Lines.{held_words, held_text, summary};

use crate::held::Held;
use crate::watching::Watched;
use ftc_base::{Bytes, NoMemory};
use ftc_script::Statement;
use std::alloc::{AllocError, Global};

/// The line of a script.
fn line_of(alloc: Global, statement: &Statement) -> Result<String, AllocError>
    ensures { IfOk result (λ line. string_bytes line ≡ join_with_byte 32 (words_in statement.now) ++ 10 ∷ []) }
{
    match *statement {
        Statement::Nothing => format!(in alloc; "\n"),
        Statement::Crash { at, server } => format!(in alloc; "at {at} crash {server}\n"),
        Statement::Recover { at, server } => format!(in alloc; "at {at} recover {server}\n"),
        Statement::Lose { link, origin } => format!(in alloc; "lose {link} {origin}\n"),
    }
}

/// The line of a server that is held.
fn held_line(alloc: Global, held: &Held) -> Result<String, AllocError>
    ensures { IfOk result (λ line. string_bytes line ≡ join_with_byte 32 (held_words held.now) ++ 10 ∷ []) }
{
    let at = held.at;
    let server = held.server.number();
    let group = held.group.number();
    format!(in alloc; "held {at} {server} {group}\n")
}

/// The text of a script.
pub fn script_text(alloc: Global, script: &[Statement]) -> Result<Bytes, NoMemory>
    ensures { IfOk result (λ text. text ≡ plain_text script.now) }
{
    let mut out = Bytes::new(alloc);
    for statement in script {
        let line = line_of(alloc, statement)?;
        out.append(line.as_bytes())?;
    }
    Ok(out)
}

/// The text of the held lines.
pub fn held_text(alloc: Global, held: &[Held]) -> Result<Bytes, NoMemory>
    ensures { IfOk result (λ text. text ≡ held_text held.now) }
{
    let mut out = Bytes::new(alloc);
    for held in held {
        let line = held_line(alloc, held)?;
        out.append(line.as_bytes())?;
    }
    Ok(out)
}

/// What is told of a watch: how many servers were fenced and how many refused, and the held lines.
pub fn summary(alloc: Global, watched: &Watched) -> Result<Bytes, NoMemory>
    ensures { IfOk result (λ text. text ≡ summary watched.now.fenced watched.now.refused watched.now.held) }
{
    let fenced = watched.fenced;
    let refused = watched.refused;
    let counts = format!(in alloc; "ftc-watch 1\nfenced {fenced}\nrefused {refused}\n")?;
    let mut text = Bytes::new(alloc);
    text.append(counts.as_bytes())?;
    text.append(watched.held.as_slice())?;
    Ok(text)
}
