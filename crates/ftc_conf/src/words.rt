//! The words of a line, one after the other.

ghost use Rattle.std.specs.Prelude.{◌≡◌, [], ◌∷◌, IfOk, IfErr};
ghost use Rattle.std.specs.List.{list_all};
ghost use Rattle.std.specs.Str.{bytes_eq};
ghost use Rattle.ftc_base.specs.Text.{words_of};
ghost use Rattle.ftc_conf.specs.Words.{is_text_byte, fixed};
ghost use Rattle.ftc_conf.specs.Forms.{no_words};

use crate::fault::ChainCause;
use ftc_base::split_word;

fn is_text_byte(byte: u8) -> bool
    ensures { result ≡ is_text_byte byte }
{
    matches!(byte, 0x20..=0x7e | b'\t' | b'\r')
}

/// Whether all bytes of the line are text.
pub fn is_text(line: &[u8]) -> bool
    ensures { result ≡ list_all is_text_byte line.now }
{
    line.iter().all(|b| is_text_byte(*b))
}

/// Whether the word is this text.
pub fn is_same(word: &[u8], text: &[u8]) -> bool
    ensures { result ≡ bytes_eq word.now text.now }
{
    word == text
}

/// The word has to be this text.
pub fn fixed(text: &[u8], word: &[u8]) -> Result<(), ChainCause>
    ensures { result ≡ fixed text.now word.now }
{
    if is_same(word, text) {
        Ok(())
    } else {
        Err(ChainCause::UnknownWord)
    }
}

/// The next word, and the line behind it. The form has to have one there.
pub fn next_word(line: &[u8]) -> Result<(&[u8], &[u8]), ChainCause>
    ensures word { IfOk result (λ found. words_of line.now ≡ found.0.now ∷ words_of found.1.now) }
    ensures none { IfErr result (λ _. words_of line.now ≡ []) }
    ensures cause { IfErr result (λ cause. cause ≡ ChainCause.WordCount) }
{
    match split_word(line) {
        Some(found) => Ok(found),
        None => Err(ChainCause::WordCount),
    }
}

/// No word is left.
pub fn no_words(line: &[u8]) -> Result<(), ChainCause>
    ensures { result ≡ no_words (words_of line.now) }
{
    match split_word(line) {
        Some(_) => Err(ChainCause::WordCount),
        None => Ok(()),
    }
}
