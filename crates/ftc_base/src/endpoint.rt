//! Addresses and nets of IPv4 (RFC 791), as words.

ghost use Rattle.std.specs.Prelude.{◌≡◌, ◌≤◌};
ghost use Rattle.ftc_base.specs.Number.{number_of};
ghost use Rattle.ftc_base.specs.Endpoint.{with_octet, address_of, net_of};

use crate::decimal::number;
use crate::lexer::Lexical;
use crate::network::Net;
use crate::split::split_part;

/// An address of which the bytes so far are known, with the byte that this part spells.
fn with_octet(high: u32, part: &[u8]) -> Result<u32, Lexical>
    requires { high ≤ 0xffffff }
    ensures { result ≡ with_octet (Ok high) (number_of part.now 255) }
{
    match number(part, 255) {
        Ok(low) => Ok(256 * high + low),
        Err(_) => Err(Lexical::NotAddress),
    }
}

/// The address that the word spells: four numbers up to 255 with dots between them, the first of them
/// the highest byte. Every other word is NotAddress.
pub fn address(word: &[u8]) -> Result<u32, Lexical>
    ensures { result ≡ address_of word.now }
{
    let Some((first, rest)) = split_part(word, b'.') else {
        return Err(Lexical::NotAddress);
    };
    let Some((second, rest)) = split_part(rest, b'.') else {
        return Err(Lexical::NotAddress);
    };
    let Some((third, fourth)) = split_part(rest, b'.') else {
        return Err(Lexical::NotAddress);
    };
    if let Some(_) = split_part(fourth, b'.') {
        return Err(Lexical::NotAddress);
    }
    let value = with_octet(0, first)?;
    let value = with_octet(value, second)?;
    let value = with_octet(value, third)?;
    with_octet(value, fourth)
}

/// The net that the word spells: an address, a slash and a number up to 32, or `any`, the net of all
/// addresses. The bits of the address below the length are cleared. Every other word is NotAddress.
pub fn net(word: &[u8]) -> Result<Net, Lexical>
    ensures { result ≡ net_of word.now }
{
    if word == b"any".as_slice() {
        return Ok(Net { base: 0, length: 0 });
    }
    let Some((address_part, length_part)) = split_part(word, b'/') else {
        return Err(Lexical::NotAddress);
    };
    if let Some(_) = split_part(length_part, b'/') {
        return Err(Lexical::NotAddress);
    }
    let Ok(whole) = address(address_part) else {
        return Err(Lexical::NotAddress);
    };
    let Ok(length) = number(length_part, 32) else {
        return Err(Lexical::NotAddress);
    };
    let size = 1u64 << (32 - length);
    let base = (u64::from(whole) / size * size) as u32;
    Ok(Net {
        base,
        length: length as u8,
    })
}
