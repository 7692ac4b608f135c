//! Ranges of ports.

ghost use Rattle.std.specs.Prelude.{◌≡◌, ◌≤◌, IfOk};
ghost use Rattle.ftc_conf.specs.Words.{ports_between, dashed_ports, ports_word};

use crate::fault::ChainCause;
use crate::limits::MOST_PORT;
use crate::values::{cut, has_byte, number_from_to, number_word};
use crate::words::is_same;

/// The ports from the first to the last.
#[derive(Clone, Copy)]
pub struct PortRange {
    pub first: u16,
    pub last: u16,
}

fn ports_between(least: u32, first_word: &[u8], last_word: &[u8]) -> Result<PortRange, ChainCause>
    ensures value { result ≡ ports_between least first_word.now last_word.now }
    ensures least { IfOk result (λ range. least ≤ range.first) }
    ensures ordered { IfOk result (λ range. range.first ≤ range.last) }
{
    let first = number_word(first_word)?;
    if first < least {
        return Err(ChainCause::BadRange);
    }
    let last = number_from_to(first, MOST_PORT, last_word)?;
    Ok(PortRange {
        first: first as u16,
        last: last as u16,
    })
}

/// The ports `A-B`, where A is at least `least`.
pub fn dashed_ports(least: u32, word: &[u8]) -> Result<PortRange, ChainCause>
    ensures value { result ≡ dashed_ports least word.now }
    ensures least { IfOk result (λ range. least ≤ range.first) }
    ensures ordered { IfOk result (λ range. range.first ≤ range.last) }
{
    let (first, last) = cut(word, b'-');
    ports_between(least, first, last)
}

/// All ports, one port `A`, or the ports `A-B`.
pub fn ports_word(word: &[u8]) -> Result<PortRange, ChainCause>
    ensures value { result ≡ ports_word word.now }
    ensures ordered { IfOk result (λ range. range.first ≤ range.last) }
{
    if is_same(word, b"any") {
        Ok(PortRange {
            first: 0,
            last: MOST_PORT as u16,
        })
    } else if has_byte(word, b'-') {
        dashed_ports(0, word)
    } else {
        ports_between(0, word, word)
    }
}
