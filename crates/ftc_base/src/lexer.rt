//! Where lines and words stand in a text.

ghost use Rattle.std.specs.Prelude.{◌≡◌, ◌≤◌, ◌<◌, ◌↔◌, length, true, false, drop, slice_index, slice_range, All};
ghost use Rattle.std.specs.Prelude.{IsNone, IfSome, IfNone};
ghost use Rattle.ftc_base.specs.Text.{IsLine, IsWord, is_blank};

use thiserror::Error;

/// Where a line stands in its text, and where the next one begins. The line feed is not in it.
#[derive(Clone, Copy, Debug, PartialEq, Eq)]
pub struct Line {
    pub start: usize,
    pub end: usize,
    pub next: usize,
}

/// Where a word stands in its line.
#[derive(Clone, Copy, Debug, PartialEq, Eq)]
pub struct Word {
    pub start: usize,
    pub end: usize,
}

/// Why a word isn't what was asked for.
#[derive(Clone, Copy, Debug, PartialEq, Eq, Error)]
pub enum Lexical {
    #[error("not a number")]
    NotNumber,
    #[error("a number that is too large")]
    TooLarge,
    #[error("neither an address nor a net")]
    NotAddress,
}

/// The line that begins at `from`, and None at the text's end.
pub fn line_at(text: &[u8], from: usize) -> Option<Line>
    requires { from ≤ length text.now }
    ensures none { IsNone result ↔ (from ≡ length text.now) }
    ensures line { IfSome result (IsLine text.now from) }
{
    if from == text.len() {
        return None;
    }
    let found = match text[from..].iter().position(|b| *b == b'\n') {
        Some(len) => Line {
            start: from,
            end: from + len,
            next: from + len + 1,
        },
        None => Line {
            start: from,
            end: text.len(),
            next: text.len(),
        },
    };
    Some(found)
}

/// Space, tab and carriage return separate words.
pub fn is_blank(byte: u8) -> bool
    ensures { result ≡ is_blank byte }
{
    byte == b' ' || byte == b'\t' || byte == b'\r'
}

/// The end of the blanks that begin at `from`.
fn blanks_end(line: &[u8], from: usize) -> usize
    requires { from ≤ length line.now }
    ensures after { from ≤ result }
    ensures within { result ≤ length line.now }
    ensures blanks { All (λ byte. is_blank byte ≡ true) (slice_range line.now from result) }
    ensures ended { result < length line.now → is_blank (slice_index line.now result) ≡ false }
{
    match line[from..].iter().position(|b| !is_blank(*b)) {
        Some(len) => from + len,
        None => line.len(),
    }
}

/// The end of the letters that begin at `from`.
fn letters_end(line: &[u8], from: usize) -> usize
    requires { from ≤ length line.now }
    ensures after { from ≤ result }
    ensures within { result ≤ length line.now }
    ensures letters { All (λ byte. is_blank byte ≡ false) (slice_range line.now from result) }
    ensures ended { result < length line.now → is_blank (slice_index line.now result) ≡ true }
{
    match line[from..].iter().position(|b| is_blank(*b)) {
        Some(len) => from + len,
        None => line.len(),
    }
}

/// The first word at or after `from`, and None where no word is left.
pub fn word_at(line: &[u8], from: usize) -> Option<Word>
    requires { from ≤ length line.now }
    ensures none { IfNone result (All (λ byte. is_blank byte ≡ true) (drop from line.now)) }
    ensures word { IfSome result (IsWord line.now from) }
{
    let start = blanks_end(line, from);
    if start == line.len() {
        return None;
    }
    let end = letters_end(line, start);
    Some(Word { start, end })
}
