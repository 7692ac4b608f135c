//! The watch over heartbeats, from its texts to the script that it makes.

ghost use Rattle.std.specs.Prelude.{◌≡◌, ◌≢◌, ◌≤◌, Err, IfOk, IfErr, OnOk, OnErr, IsErrOf, codes};
ghost use Rattle.ftc_outside.specs.Desk.{SameFiles, HasServed};
ghost use Rattle.ftc_watch.specs.Lines.{summary};
ghost use Rattle.ftc.specs.Answers.{IsWatchAnswer};
ghost use Rattle.ftc.specs.Refused.{IsTextRefused};
ghost use Rattle.ftc.specs.Watching.{watched_by, HasBeats, AreBeats, IsWrongBeats, IsWatchRefused, AreMade};
ghost use Rattle.ftc.specs.Watching.{AreMadeShort, WatchEnds};

use crate::output::write_text;
use crate::status::Status;
use crate::texts::{Setup, read_setup};
use ftc_outside::{Desk, DeskError};
use ftc_protocol::ring_of;
use ftc_ring::Ring;
use ftc_watch::{Beats, Watched, makes_a_script, read_beats, summary, watch};
use std::alloc::Global;

/// The names of the files of a watch.
#[derive(Clone, Copy)]
pub struct WatchNames<'a> {
    pub chain: &'a str,
    pub capture: &'a str,
    pub beats: &'a str,
    pub script: &'a str,
}

/// Fetches and reads the beats for a ring and a count of packets.
fn fetch_beats<D: Desk>(
    alloc: Global,
    name: &str,
    ring: &Ring,
    packets: u32,
    desk: &mut D,
) -> Result<Beats, Status>
    ensures accepted { D.tells desk.old → IfOk result (HasBeats name.now (D.file desk.old) ring.now packets) }
    ensures ring { IfOk result (λ beats. beats.ring ≡ ring.now) }
    ensures packets { IfOk result (λ beats. beats.packets ≡ packets) }
    ensures refused { D.tells desk.old → IfErr result (IsTextRefused (D.sound desk.old) (D.file desk.old) name.now
        (IsWrongBeats ring.now packets)) }
    ensures answer { IfErr result IsWatchAnswer }
    ensures files { D.tells desk.old → SameFiles (D.file desk.old) (D.file desk.new) }
    ensures served { HasServed D.tells D.sound D.faults (result ≡ Err Status.DeskFault) desk.old desk.new }
{
    let text = desk.fetch(alloc, name)?;
    let beats = read_beats(alloc, text.as_slice(), ring, packets)?;
    Ok(beats)
}

/// Fetches and reads chain, capture and beats in this order, each before the next.
fn read_watched<D: Desk>(
    alloc: Global,
    names: WatchNames<'_>,
    desk: &mut D,
) -> Result<Beats, Status>
    ensures accepted { D.tells desk.old → IfOk result (AreBeats (watched_by names.entry) (D.file desk.old)) }
    ensures refused { D.tells desk.old → IfErr result (IsWatchRefused (D.sound desk.old) (watched_by names.entry)
        (D.file desk.old)) }
    ensures answer { IfErr result IsWatchAnswer }
    ensures files { D.tells desk.old → SameFiles (D.file desk.old) (D.file desk.new) }
    ensures served { HasServed D.tells D.sound D.faults (result ≡ Err Status.DeskFault) desk.old desk.new }
{
    let setup = read_setup(alloc, names.chain, names.capture, desk)?;
    let Setup { spec, capture } = setup;
    let packets = capture.packets.len() as u32;
    let beats = fetch_beats(alloc, names.beats, &ring_of(&spec), packets, desk)?;
    Ok(beats)
}

/// Writes the script to a new file of that name, and then says what was fenced and held.
fn write_watched<D: Desk>(
    alloc: Global,
    name: &str,
    watched: &Watched,
    desk: &mut D,
) -> Result<(), DeskError>
    requires apart { name.now ≢ codes "-" }
    ensures written { D.tells desk.old → OnOk result (AreMade name.now watched.now.script
        (summary watched.now.fenced watched.now.refused watched.now.held) (D.file desk.old) (D.file desk.new)) }
    ensures refused { D.tells desk.old → OnErr result (AreMadeShort name.now watched.now.script
        (summary watched.now.fenced watched.now.refused watched.now.held) (D.file desk.old) (D.file desk.new)) }
    ensures served { HasServed D.tells D.sound D.faults (IsErrOf result DeskError.Failed) desk.old desk.new }
    ensures safe { D.tells desk.old → D.sound desk.old → IsErrOf result DeskError.Failed → ⊥ }
{
    let told = summary(alloc, watched)?;
    write_text(alloc, desk, name, &watched.script)?;
    desk.append(alloc, "-", told.as_slice())
}

/// Makes the script of some heartbeats, where a server is silent that has missed as many ticks in a row as
/// the limit.
pub fn watch_beats<D: Desk>(alloc: Global, names: WatchNames<'_>, limit: u8, desk: &mut D) -> Status
    requires apart { names.script.now ≢ codes "-" }
    requires limit { 1 ≤ limit }
    ensures ends { D.tells desk.old → WatchEnds (D.sound desk.old) limit (watched_by names.entry) (D.file desk.old)
        (D.file desk.new) result }
    ensures answer { IsWatchAnswer result }
    ensures served { HasServed D.tells D.sound D.faults (result ≡ Status.DeskFault) desk.old desk.new }
{
    makes_a_script();
    let beats = match read_watched(alloc, names, desk) {
        Ok(beats) => beats,
        Err(status) => return status,
    };
    let (ring, packets) = (beats.ring(), beats.packets());
    let Ok(watched) = watch(alloc, &beats, ring, limit, packets) else {
        return Status::NoMemory;
    };
    match write_watched(alloc, names.script, &watched, desk) {
        Ok(()) => Status::Done,
        Err(error) => Status::from(error),
    }
}
