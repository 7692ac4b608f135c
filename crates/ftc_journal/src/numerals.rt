//! The numbers of a line, before their bounds are tested.

ghost use Rattle.std.specs.Prelude.{◌≡◌};
ghost use Rattle.ftc_base.specs.Refused.{IsReading};
ghost use Rattle.ftc_base.specs.Endpoint.{parts_of};
ghost use Rattle.ftc_journal.specs.Reading.{figure_of, figures_of, name_of, names_of};

use crate::fault::JournalCause;
use ftc_base::limits::MOST_NUMBER;
use ftc_base::{Items, Lexical, Refuse, number, split_part};
use std::alloc::Global;

/// The numbers of an undone visit.
#[derive(Clone, Copy)]
pub struct NameFigures {
    pub server: Option<u32>,
    pub packet: Option<u32>,
}

/// The number that a word spells, and None where that number is too large.
pub fn figure_of(word: &[u8]) -> Result<Option<u32>, JournalCause>
    ensures { result ≡ figure_of word.now }
{
    match number(word, MOST_NUMBER) {
        Ok(number) => Ok(Some(number)),
        Err(Lexical::TooLarge) => Ok(None),
        Err(Lexical::NotNumber | Lexical::NotAddress) => Err(JournalCause::Word),
    }
}

/// The numbers of some words, with one space between them.
pub fn figures_of(alloc: Global, words: &[u8]) -> Result<Items<Option<u32>>, Refuse<JournalCause>>
    ensures { IsReading result (figures_of (parts_of 32 words.now)) }
{
    let mut held = Items::new(alloc);
    let mut rest = words;
    while let Some((word, behind)) = split_part(rest, b' ') {
        let figure = figure_of(word)?;
        held.push(figure)?;
        rest = behind;
    }
    let figure = figure_of(rest)?;
    held.push(figure)?;
    Ok(held)
}

/// The numbers of an undone visit, which is written `J:P`.
fn name_of(word: &[u8]) -> Result<NameFigures, JournalCause>
    ensures { result ≡ name_of (parts_of 58 word.now) }
{
    let Some((server, packet)) = split_part(word, b':') else {
        return Err(JournalCause::Word);
    };
    if let Some((_, _)) = split_part(packet, b':') {
        return Err(JournalCause::Word);
    }
    let server = figure_of(server)?;
    let packet = figure_of(packet)?;
    Ok(NameFigures { server, packet })
}

/// The numbers of some undone visits, with one space between them.
pub fn names_of(alloc: Global, words: &[u8]) -> Result<Items<NameFigures>, Refuse<JournalCause>>
    ensures { IsReading result (names_of (parts_of 32 words.now)) }
{
    let mut held = Items::new(alloc);
    let mut rest = words;
    while let Some((word, behind)) = split_part(rest, b' ') {
        let name = name_of(word)?;
        held.push(name)?;
        rest = behind;
    }
    let name = name_of(rest)?;
    held.push(name)?;
    Ok(held)
}
