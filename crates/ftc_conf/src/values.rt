//! Numbers, addresses and nets, as words or parts of words.

ghost use Rattle.std.specs.Prelude.{◌≡◌, ◌≤◌, IfOk};
ghost use Rattle.ftc_base.specs.Endpoint.{IsNet};
ghost use Rattle.ftc_conf.specs.Words.{number_word, number_from_to, address_word, net_word, part_before, part_behind};
ghost use Rattle.ftc_conf.specs.Words.{has_byte};

use crate::fault::ChainCause;
use ftc_base::limits::MOST_NUMBER;
use ftc_base::{Net, address, net, number, part_len};

/// A number without a bound of its own.
pub fn number_word(word: &[u8]) -> Result<u32, ChainCause>
    ensures { result ≡ number_word word.now }
{
    match number(word, MOST_NUMBER) {
        Ok(value) => Ok(value),
        Err(_) => Err(ChainCause::BadNumber),
    }
}

/// A number from `least` to `most`.
pub fn number_from_to(least: u32, most: u32, word: &[u8]) -> Result<u32, ChainCause>
    ensures value { result ≡ number_from_to least most word.now }
    ensures least { IfOk result (λ value. least ≤ value) }
    ensures most { IfOk result (λ value. value ≤ most) }
{
    let value = number_word(word)?;
    if least <= value && value <= most {
        Ok(value)
    } else {
        Err(ChainCause::BadRange)
    }
}

/// An address of IPv4.
pub fn address_word(word: &[u8]) -> Result<u32, ChainCause>
    ensures { result ≡ address_word word.now }
{
    match address(word) {
        Ok(value) => Ok(value),
        Err(_) => Err(ChainCause::BadAddress),
    }
}

/// A net of IPv4.
pub fn net_word(word: &[u8]) -> Result<Net, ChainCause>
    ensures value { result ≡ net_word word.now }
    ensures bounds { IfOk result IsNet }
{
    match net(word) {
        Ok(value) => Ok(value),
        Err(_) => Err(ChainCause::BadAddress),
    }
}

/// The parts before and behind the first separator. Where there is none, the second part is empty.
pub fn cut(word: &[u8], separator: u8) -> (&[u8], &[u8])
    ensures before { result.0.now ≡ part_before separator word.now }
    ensures behind { result.1.now ≡ part_behind separator word.now }
{
    let (part, rest) = word.split_at(part_len(word, separator));
    match rest {
        [_, behind @ ..] => (part, behind),
        [] => (part, rest),
    }
}

/// Whether the byte stands in the word.
pub fn has_byte(word: &[u8], byte: u8) -> bool
    ensures { result ≡ has_byte byte word.now }
{
    word.contains(&byte)
}
