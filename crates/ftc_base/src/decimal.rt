//! Numbers in decimal.

ghost use Rattle.std.specs.Prelude.{◌≡◌};
ghost use Rattle.std.specs.List.{list_all};
ghost use Rattle.ftc_base.specs.Number.{number_of, is_digit, is_numeral};

use crate::lexer::Lexical;

fn is_digit(byte: u8) -> bool
    ensures { result ≡ is_digit byte }
{
    byte.is_ascii_digit()
}

fn are_digits(word: &[u8]) -> bool
    ensures { result ≡ list_all is_digit word.now }
{
    word.iter().all(|b| is_digit(*b))
}

fn is_numeral(word: &[u8]) -> bool
    ensures { result ≡ is_numeral word.now }
{
    match word {
        [] => false,
        [b] => is_digit(*b),
        [b, _, ..] => *b != b'0' && are_digits(word),
    }
}

/// The number that the word spells: decimal digits without a sign or a leading zero, or `0`. A number
/// above `most` is TooLarge, and every other word is NotNumber.
pub fn number(word: &[u8], most: u32) -> Result<u32, Lexical>
    ensures { result ≡ number_of word.now most }
{
    if !is_numeral(word) {
        return Err(Lexical::NotNumber);
    }
    let mut value: u64 = 0;
    for digit in word {
        value = 10 * value + u64::from(digit.saturating_sub(b'0'));
        if value > u64::from(most) {
            return Err(Lexical::TooLarge);
        }
    }
    Ok(value as u32)
}
