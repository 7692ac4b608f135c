//! A text as its first line and the rest, a line as its first word and the rest, and a word as its
//! part before a separator and the rest.

ghost use Rattle.std.specs.Prelude.{◌≡◌, ◌<◌, ◌≤◌, ◌==◌, [], ◌∷◌, length, IfSome, IfNone};
ghost use Rattle.std.specs.List.{position_or_len};
ghost use Rattle.ftc_base.specs.Text.{lines_of, words_of, line_length, letters_length, blanks_length};
ghost use Rattle.ftc_base.specs.Endpoint.{parts_of};

use crate::lexer::is_blank;

fn line_len(text: &[u8]) -> usize
    ensures length { result ≡ line_length text.now }
    ensures within { result ≤ length text.now }
{
    for (i, b) in text.iter().enumerate() {
        if *b == b'\n' {
            return i;
        }
    }
    text.len()
}

fn letters_len(text: &[u8]) -> usize
    ensures length { result ≡ letters_length text.now }
    ensures within { result ≤ length text.now }
{
    for (i, b) in text.iter().enumerate() {
        if is_blank(*b) {
            return i;
        }
    }
    text.len()
}

fn blanks_len(text: &[u8]) -> usize
    ensures length { result ≡ blanks_length text.now }
    ensures within { result ≤ length text.now }
{
    for (i, b) in text.iter().enumerate() {
        if !is_blank(*b) {
            return i;
        }
    }
    text.len()
}

/// The first line without its line feed, and the text after it. None where the text has ended.
pub fn split_line(text: &[u8]) -> Option<(&[u8], &[u8])>
    ensures none { IfNone result (lines_of text.now ≡ []) }
    ensures line { IfSome result (λ found. lines_of text.now ≡ found.0.now ∷ lines_of found.1.now) }
    ensures shorter { IfSome result (λ found. length found.1.now < length text.now) }
{
    if text.is_empty() {
        return None;
    }
    let (line, rest) = text.split_at(line_len(text));
    match rest {
        [_, after @ ..] => Some((line, after)),
        [] => Some((line, rest)),
    }
}

/// The first word, and the line after it. None where no word is left.
pub fn split_word(line: &[u8]) -> Option<(&[u8], &[u8])>
    ensures none { IfNone result (words_of line.now ≡ []) }
    ensures word { IfSome result (λ found. words_of line.now ≡ found.0.now ∷ words_of found.1.now) }
    ensures shorter { IfSome result (λ found. length found.1.now < length line.now) }
{
    let (_, rest) = line.split_at(blanks_len(line));
    if rest.is_empty() {
        return None;
    }
    let (word, after) = rest.split_at(letters_len(rest));
    Some((word, after))
}

/// How many bytes stand before the first separator: all of them, where there is none.
pub fn part_len(word: &[u8], separator: u8) -> usize
    ensures length { result ≡ position_or_len (λ byte. byte == separator) word.now }
    ensures within { result ≤ length word.now }
{
    for (i, b) in word.iter().enumerate() {
        if *b == separator {
            return i;
        }
    }
    word.len()
}

/// The part before the first separator, and what stands after that. None where there is none.
pub fn split_part(word: &[u8], separator: u8) -> Option<(&[u8], &[u8])>
    ensures none { IfNone result (parts_of separator word.now ≡ word.now ∷ []) }
    ensures part { IfSome result (λ found. parts_of separator word.now ≡ found.0.now ∷ parts_of separator found.1.now) }
    ensures shorter { IfSome result (λ found. length found.1.now < length word.now) }
{
    let (part, rest) = word.split_at(part_len(word, separator));
    match rest {
        [_, after @ ..] => Some((part, after)),
        [] => None,
    }
}
