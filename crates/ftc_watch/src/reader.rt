//! The beats of a text.

ghost use Rattle.std.specs.Prelude.{◌≡◌, ◌+◌, ◌≤◌, length, IfOk};
ghost use Rattle.ftc_base.specs.declared.refusal.Refuse.TheVariants as refuse;
ghost use Rattle.ftc_base.specs.Refused.{IsReading};
ghost use Rattle.ftc_base.specs.declared.limits.TheConstants.{MOST_SERVERS};
ghost use Rattle.ftc_watch.specs.declared.limits.TheConstants.{MOST_BEATS};
ghost use Rattle.ftc_watch.specs.Grammar.{latest_of, with_line, ended, placed, beats_of};

use crate::beats::Beats;
use crate::fault::{BeatsCause, BeatsFault};
use crate::limits::MOST_BEATS;
use crate::tick::Tick;
use crate::words::{is_header, tick_of};
use ftc_base::{Items, PacketNo, Refuse, split_part};
use ftc_ring::Ring;
use std::alloc::Global;

/// A fault at that line.
fn fault_at(line: u32, cause: BeatsCause) -> Refuse<BeatsFault>
    ensures { result ≡ refuse.Bad (record { line = line; cause = cause }) }
{
    Refuse::Bad(BeatsFault { line, cause })
}

/// The ticks with that of one more line.
fn with_line(
    alloc: Global,
    servers: u8,
    packets: u32,
    ticks: Items<Tick>,
    line: &[u8],
) -> Result<Items<Tick>, Refuse<BeatsFault>>
    requires servers { servers ≤ MOST_SERVERS }
    requires ticks { length ticks ≤ MOST_BEATS }
    ensures value { IsReading result (placed (2 + length ticks) (with_line servers packets ticks line.now)) }
    ensures few { IfOk result (λ next. length next ≤ MOST_BEATS) }
{
    let place = 2 + ticks.len() as u32;
    if ticks.len() >= MOST_BEATS {
        return Err(fault_at(place, BeatsCause::TooMany));
    }
    let mut ticks = ticks;
    match tick_of(alloc, servers, packets, latest_of(ticks.as_slice()), line) {
        Ok(tick) => {
            ticks.push(tick)?;
            Ok(ticks)
        }
        Err(Refuse::Bad(cause)) => Err(fault_at(place, cause)),
        Err(Refuse::NoMemory) => Err(Refuse::NoMemory),
    }
}

/// The number of the last tick, and 0 before the first.
fn latest_of(ticks: &[Tick]) -> PacketNo
    ensures { result ≡ latest_of 0 ticks.now }
{
    match ticks {
        [.., tick] => tick.at,
        [] => 0,
    }
}

/// Reads beats for a ring and a count of packets. The first faulty line wins, and in it the cause that is
/// tested first.
pub fn read_beats(
    alloc: Global,
    text: &[u8],
    ring: &Ring,
    packets: u32,
) -> Result<Beats, Refuse<BeatsFault>>
    ensures value { IsReading result (beats_of ring.now packets text.now) }
    ensures ring { IfOk result (λ beats. beats.ring ≡ ring.now) }
    ensures packets { IfOk result (λ beats. beats.packets ≡ packets) }
{
    let Some((header, lines)) = split_part(text, b'\n') else {
        return Err(fault_at(1, BeatsCause::Header));
    };
    if !is_header(header) {
        return Err(fault_at(1, BeatsCause::Header));
    }
    let servers = ring.servers();
    let mut ticks = Items::new(alloc);
    let mut rest = lines;
    while let Some((line, behind)) = split_part(rest, b'\n') {
        ticks = with_line(alloc, servers, packets, ticks, line)?;
        rest = behind;
    }
    if rest.is_empty() {
        return Ok(Beats::new(*ring, packets, ticks));
    }
    let place = 2 + ticks.len() as u32;
    if ticks.len() < MOST_BEATS {
        Err(fault_at(place, BeatsCause::Word))
    } else {
        Err(fault_at(place, BeatsCause::TooMany))
    }
}
