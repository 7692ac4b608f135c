//! The words of a tick line.

ghost use Rattle.std.specs.Prelude.{◌≡◌, ◌≤◌, [], ◌∷◌, codes};
ghost use Rattle.std.specs.Str.{bytes_eq};
ghost use Rattle.ftc_base.specs.Refused.{IsReading};
ghost use Rattle.ftc_base.specs.Endpoint.{parts_of};
ghost use Rattle.ftc_base.specs.declared.limits.TheConstants.{MOST_SERVERS};
ghost use Rattle.ftc_watch.specs.Grammar.{header, number_word, numbers_from, tick_in, tick_of};

use crate::fault::BeatsCause;
use crate::members::{are_below, rises, set_of};
use crate::tick::Tick;
use ftc_base::limits::MOST_NUMBER;
use ftc_base::{Items, PacketNo, Refuse, number, split_part};
use std::alloc::Global;

/// Whether a line is the header's.
pub fn is_header(line: &[u8]) -> bool
    ensures { result ≡ bytes_eq line.now header }
{
    line == b"ftc-beats 1".as_slice()
}

fn is_tick(word: &[u8]) -> bool
    ensures { result ≡ bytes_eq word.now (codes "tick") }
{
    word == b"tick".as_slice()
}

fn number_word(word: &[u8]) -> Result<u32, BeatsCause>
    ensures { result ≡ number_word word.now }
{
    match number(word, MOST_NUMBER) {
        Ok(value) => Ok(value),
        Err(_) => Err(BeatsCause::Word),
    }
}

/// The numbers of some words, with one space between them.
fn numbers_of(alloc: Global, words: &[u8]) -> Result<Items<u32>, Refuse<BeatsCause>>
    ensures { IsReading result (numbers_from [] (parts_of 32 words.now)) }
{
    let mut held = Items::new(alloc);
    let mut rest = words;
    while let Some((word, behind)) = split_part(rest, b' ') {
        let number = number_word(word)?;
        held.push(number)?;
        rest = behind;
    }
    let number = number_word(rest)?;
    held.push(number)?;
    Ok(held)
}

/// The tick of a number of packets and of the numbers of some servers.
fn tick_at(
    servers: u8,
    packets: u32,
    last: PacketNo,
    at: PacketNo,
    numbers: &[u32],
) -> Result<Tick, BeatsCause>
    requires { servers ≤ MOST_SERVERS }
    ensures { result ≡ tick_in servers packets last (at ∷ numbers.now) }
{
    if !are_below(servers, numbers) {
        Err(BeatsCause::Range)
    } else if at > packets {
        Err(BeatsCause::Past)
    } else if at < last || !rises(numbers) {
        Err(BeatsCause::Order)
    } else {
        let servers = set_of(numbers);
        Ok(Tick { at, servers })
    }
}

/// The tick of some numbers, of which the first is that of the packets.
fn tick_in(servers: u8, packets: u32, last: PacketNo, numbers: &[u32]) -> Result<Tick, BeatsCause>
    requires { servers ≤ MOST_SERVERS }
    ensures { result ≡ tick_in servers packets last numbers.now }
{
    match numbers {
        [at, behind @ ..] => tick_at(servers, packets, last, *at, behind),
        [] => Err(BeatsCause::Word),
    }
}

/// The tick of a line, which stands behind a tick at the number `last`.
pub fn tick_of(
    alloc: Global,
    servers: u8,
    packets: u32,
    last: PacketNo,
    line: &[u8],
) -> Result<Tick, Refuse<BeatsCause>>
    requires { servers ≤ MOST_SERVERS }
    ensures { IsReading result (tick_of servers packets last (parts_of 32 line.now)) }
{
    let Some((first, words)) = split_part(line, b' ') else {
        return Err(Refuse::Bad(BeatsCause::Word));
    };
    if !is_tick(first) {
        return Err(Refuse::Bad(BeatsCause::Word));
    }
    let numbers = numbers_of(alloc, words)?;
    let tick = tick_in(servers, packets, last, numbers.as_slice())?;
    Ok(tick)
}
