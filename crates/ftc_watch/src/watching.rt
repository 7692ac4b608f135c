//! The watch over all ticks.

ghost use Rattle.std.specs.Prelude.{◌≡◌, ◌≤◌, ◌<◌, length, IfOk};
ghost use Rattle.ftc_script.specs.Plain.{plain_text};
ghost use Rattle.ftc_watch.specs.Watch.{recover_all, count_all, judge_all, tick_on, ticks_on, watch_of, at_start};
ghost use Rattle.ftc_watch.specs.Watcher.{known};
ghost use Rattle.ftc_watch.specs.Lines.{is_crash, held_text, crashes_in};

use crate::beats::Beats;
use crate::printer::{held_text, script_text};
use crate::tick::Tick;
use crate::watcher::Watcher;
use ftc_base::{Bytes, NoMemory, PacketNo, ServerSet};
use ftc_ring::{Ring, server_of};
use ftc_script::Statement;
use std::alloc::Global;

/// What comes of the beats.
#[derive(Drop)]
pub struct Watched {
    /// The script: a crash of each server that was silent and could be spared, and its recovery.
    pub script: Bytes,
    /// A line for each tick at which a server was silent and could not be spared.
    pub held: Bytes,
    /// How many crash lines the script has.
    pub fenced: u32,
    /// How many held lines there are.
    pub refused: u32,
}

/// Each down server recovers.
fn recover_all(ring: &Ring, at: PacketNo, watcher: Watcher) -> Result<Watcher, NoMemory>
    ensures { IfOk result (λ next. known next ≡ recover_all ring.now at (known watcher)) }
{
    let mut watcher = watcher;
    for server in 0..ring.servers() {
        watcher = watcher.recovered(at, server)?;
    }
    Ok(watcher)
}

/// Each server has beaten or missed the tick.
fn count_all(ring: &Ring, limit: u8, beaten: ServerSet, watcher: Watcher) -> Watcher
    ensures { known result ≡ count_all ring.now limit beaten (known watcher) }
{
    let mut watcher = watcher;
    for server in 0..ring.servers() {
        watcher = watcher.counted(limit, beaten, server);
    }
    watcher
}

/// Each server that has missed enough ticks is fenced or held.
fn judge_all(ring: &Ring, limit: u8, at: PacketNo, watcher: Watcher) -> Result<Watcher, NoMemory>
    ensures { IfOk result (λ next. known next ≡ judge_all ring.now limit at (known watcher)) }
{
    let mut watcher = watcher;
    for server in 0..ring.servers() {
        watcher = watcher.judged(ring, limit, at, server_of(server))?;
    }
    Ok(watcher)
}

/// What comes of one more tick.
fn tick_on(ring: &Ring, limit: u8, watcher: Watcher, tick: &Tick) -> Result<Watcher, NoMemory>
    ensures { IfOk result (λ next. known next ≡ tick_on ring.now limit (known watcher) tick.now) }
{
    let watcher = recover_all(ring, tick.at, watcher)?;
    let watcher = count_all(ring, limit, tick.servers, watcher);
    judge_all(ring, limit, tick.at, watcher)
}

/// What comes of some ticks.
fn ticks_on(alloc: Global, ring: &Ring, limit: u8, ticks: &[Tick]) -> Result<Watcher, NoMemory>
    ensures { IfOk result (λ next. known next ≡ ticks_on ring.now limit at_start ticks.now) }
{
    let mut watcher = Watcher::new(alloc);
    for tick in ticks {
        watcher = tick_on(ring, limit, watcher, tick)?;
    }
    Ok(watcher)
}

fn is_crash(statement: &Statement) -> bool
    ensures { result ≡ is_crash statement.now }
{
    match statement {
        Statement::Crash { .. } => true,
        Statement::Nothing | Statement::Recover { .. } | Statement::Lose { .. } => false,
    }
}

/// How many lines of a script are crashes.
fn crashes_in(script: &[Statement]) -> usize
    ensures value { result ≡ crashes_in script.now }
    ensures few { result ≤ length script.now }
{
    script
        .iter()
        .filter(|statement| is_crash(statement))
        .count()
}

/// What comes of beats for their ring and their count of packets, where a server is silent that has
/// missed as many ticks in a row as the limit. At each tick first the down servers recover, then the
/// beats are counted, and then the silent servers are fenced or held; after the last tick all that are
/// down recover.
pub fn watch(
    alloc: Global,
    beats: &Beats,
    ring: &Ring,
    limit: u8,
    packets: u32,
) -> Result<Watched, NoMemory>
    requires ring { beats.now.ring ≡ ring.now }
    requires packets { beats.now.packets ≡ packets }
    requires limit { 1 ≤ limit }
    ensures script { IfOk result (λ told.
        told.script ≡ plain_text (watch_of ring.now limit packets beats.now.ticks).script) }
    ensures held { IfOk result (λ told. told.held ≡ held_text (watch_of ring.now limit packets beats.now.ticks).held) }
    ensures fenced { IfOk result (λ told.
        told.fenced ≡ crashes_in (watch_of ring.now limit packets beats.now.ticks).script) }
    ensures refused { IfOk result (λ told.
        told.refused ≡ length (watch_of ring.now limit packets beats.now.ticks).held) }
{
    let watcher = ticks_on(alloc, ring, limit, beats.ticks())?;
    let watcher = recover_all(ring, packets, watcher)?;
    let (script, held) = watcher.into_parts();
    Ok(Watched {
        script: script_text(alloc, script.as_slice())?,
        held: held_text(alloc, held.as_slice())?,
        fenced: crashes_in(script.as_slice()) as u32,
        refused: held.len() as u32,
    })
}
