//! A run, from its texts to the files that it writes.

ghost use Rattle.std.specs.Prelude.{◌≡◌, ◌≤◌, ◌⊎◌, ◌∷◌, [], length, OnOk, OnErr, IsErrOf};
ghost use Rattle.ftc_base.specs.declared.limits.TheConstants.{MOST_THREADS};
ghost use Rattle.ftc_outside.specs.Desk.{SameFiles, HasServed};
ghost use Rattle.ftc_words.specs.Command.{AreWorkers};
ghost use Rattle.ftc_words.specs.Shown.{named_of, shown_mode};
ghost use Rattle.ftc.specs.Done.{IsDriven, IsAny, IsChosen, AreToldAll, AreToldAtLast, WereTold, IsOutOpen};
ghost use Rattle.ftc.specs.Driven.{HasWritten, HasBegun};
ghost use Rattle.ftc.specs.Output.{SameElsewhere};
ghost use Rattle.ftc.specs.Texts.{ring_of};
ghost use Rattle.ftc.specs.Writing.{AreDifferent};

use crate::completing::complete;
use crate::drive::drive;
use crate::output::write_front;
use crate::texts::Texts;
use crate::workers::work;
use crate::writing::{write_released, write_texts};
use ftc_outside::{Desk, DeskError, Gate};
use ftc_stream::{Seen, Taps};
use ftc_words::{Mode, Names};
use std::alloc::Global;
use std::sync::Wait;
use std::thread::Threads;

/// How many workers there are where no option says it.
const USUAL_WORKERS: u8 = 4;

/// Runs on this thread, by the schedule, and then writes the files.
fn run_alone<D: Desk>(
    alloc: Global,
    names: Names<'_>,
    texts: &Texts,
    desk: &mut D,
    taps: &mut Taps,
) -> Result<(), DeskError>
    requires apart { AreDifferent (named_of names) }
    requires ring { texts.now.script.ring ≡ ring_of texts.now.spec }
    requires packets { texts.now.script.packets ≡ length texts.now.capture.packets }
    ensures done { D.tells desk.old → OnOk result (HasWritten (named_of names.entry)
        texts.now.spec texts.now.capture texts.now.script
        (IsDriven texts.now.spec texts.now.capture texts.now.script texts.now.schedule.items)
        (AreToldAll (⟦<Taps as Seen>⟧.faces taps.old) (⟦<Taps as Seen>⟧.faces taps.new))
        (⟦<Taps as Seen>⟧.faces taps.new) (D.file desk.old) (D.file desk.new)) }
    ensures failed { D.tells desk.old → IsErrOf result DeskError.Failed → HasBegun (named_of names.entry)
        texts.now.spec texts.now.capture texts.now.script
        (IsDriven texts.now.spec texts.now.capture texts.now.script texts.now.schedule.items)
        (⟦<Taps as Seen>⟧.faces taps.new) (D.file desk.old) (D.file desk.new) }
    ensures refused { D.tells desk.old → OnErr result (SameFiles (D.file desk.old) (D.file desk.new)
        ⊎ HasBegun (named_of names.entry) texts.now.spec texts.now.capture texts.now.script
        (IsDriven texts.now.spec texts.now.capture texts.now.script texts.now.schedule.items)
        (⟦<Taps as Seen>⟧.faces taps.new) (D.file desk.old) (D.file desk.new)) }
    ensures served { HasServed D.tells D.sound D.faults (IsErrOf result DeskError.Failed) desk.old desk.new }
    ensures safe { D.tells desk.old → D.sound desk.old → IsErrOf result DeskError.Failed → ⊥ }
{
    let driven = drive(alloc, texts)?;
    let released = driven.serial.released();
    write_released(alloc, names.out, desk, taps, &texts.capture, released)?;
    write_texts(alloc, names, desk, taps, texts, &driven)
}

/// Runs by so many workers, writes what is released while they run, and writes the other files then.
fn run_by_workers<R: Threads + Wait + Sync, D: Desk, G: Gate>(
    rt: &R,
    alloc: Global,
    names: Names<'_>,
    workers: u8,
    texts: &Texts,
    desk: &mut D,
    gate: &G,
    taps: &mut Taps,
) -> Result<(), DeskError>
    requires apart { AreDifferent (named_of names) }
    requires workers { (1 ≤ workers) × (workers ≤ MOST_THREADS) }
    requires ring { texts.now.script.ring ≡ ring_of texts.now.spec }
    requires packets { texts.now.script.packets ≡ length texts.now.capture.packets }
    ensures done { D.tells desk.old → OnOk result (HasWritten (named_of names.entry)
        texts.now.spec texts.now.capture texts.now.script IsAny
        (AreToldAtLast (⟦<Taps as Seen>⟧.faces taps.old) (⟦<Taps as Seen>⟧.faces taps.new))
        (⟦<Taps as Seen>⟧.faces taps.new) (D.file desk.old) (D.file desk.new)) }
    ensures refused { D.tells desk.old → OnErr result (
        SameElsewhere ((named_of names.entry).out ∷ []) (D.file desk.old) (D.file desk.new)
        ⊎ HasBegun (named_of names.entry) texts.now.spec texts.now.capture texts.now.script IsAny
        (⟦<Taps as Seen>⟧.faces taps.new) (D.file desk.old) (D.file desk.new)) }
    ensures served { HasServed D.tells D.sound D.faults (IsErrOf result DeskError.Failed) desk.old desk.new }
    ensures safe { D.tells desk.old → D.sound desk.old → IsErrOf result DeskError.Failed → ⊥ }
{
    let (out, capture) = (names.out, &texts.capture);
    write_front(alloc, desk, out, capture)?;
    let worked = work(rt, alloc, texts, workers, gate, out, desk, taps)?;
    let released = worked.driven.serial.released();
    complete(alloc, out, desk, taps, capture, &worked.put, released)?;
    write_texts(alloc, names, desk, taps, texts, &worked.driven)
}

/// Runs as the mode says: on one thread by a schedule, or by workers.
pub fn run_texts<R: Threads + Wait + Sync, D: Desk, G: Gate>(
    rt: &R,
    alloc: Global,
    names: Names<'_>,
    mode: Mode<'_>,
    texts: &Texts,
    desk: &mut D,
    gate: &G,
    taps: &mut Taps,
) -> Result<(), DeskError>
    requires apart { AreDifferent (named_of names) }
    requires workers { AreWorkers (shown_mode mode) }
    requires ring { texts.now.script.ring ≡ ring_of texts.now.spec }
    requires packets { texts.now.script.packets ≡ length texts.now.capture.packets }
    ensures done { D.tells desk.old → OnOk result (HasWritten (named_of names.entry)
        texts.now.spec texts.now.capture texts.now.script
        (IsChosen (shown_mode mode.entry) texts.now.spec texts.now.capture texts.now.script texts.now.schedule.items)
        (WereTold (shown_mode mode.entry) (⟦<Taps as Seen>⟧.faces taps.old) (⟦<Taps as Seen>⟧.faces taps.new))
        (⟦<Taps as Seen>⟧.faces taps.new) (D.file desk.old) (D.file desk.new)) }
    ensures failed { D.tells desk.old → IsErrOf result DeskError.Failed →
        IsOutOpen (named_of names.entry) (shown_mode mode.entry) (D.file desk.old) (D.file desk.new)
        ⊎ HasBegun (named_of names.entry) texts.now.spec texts.now.capture texts.now.script
        (IsChosen (shown_mode mode.entry) texts.now.spec texts.now.capture texts.now.script texts.now.schedule.items)
        (⟦<Taps as Seen>⟧.faces taps.new) (D.file desk.old) (D.file desk.new) }
    ensures refused { D.tells desk.old → OnErr result (SameFiles (D.file desk.old) (D.file desk.new)
        ⊎ (IsOutOpen (named_of names.entry) (shown_mode mode.entry) (D.file desk.old) (D.file desk.new)
        ⊎ HasBegun (named_of names.entry) texts.now.spec texts.now.capture texts.now.script
        (IsChosen (shown_mode mode.entry) texts.now.spec texts.now.capture texts.now.script texts.now.schedule.items)
        (⟦<Taps as Seen>⟧.faces taps.new) (D.file desk.old) (D.file desk.new))) }
    ensures served { HasServed D.tells D.sound D.faults (IsErrOf result DeskError.Failed) desk.old desk.new }
    ensures safe { D.tells desk.old → D.sound desk.old → IsErrOf result DeskError.Failed → ⊥ }
{
    match mode {
        Mode::Alone { .. } => run_alone(alloc, names, texts, desk, taps),
        Mode::Workers { count } => {
            run_by_workers(rt, alloc, names, count, texts, desk, gate, taps)
        }
        Mode::Plain => { run_by_workers(rt, alloc, names, USUAL_WORKERS, texts, desk, gate, taps) }
    }
}
