//! A run's files are written, and its taps are told.

ghost use Rattle.std.specs.Prelude.{◌≡◌, ◌≤◌, Some, OnOk, OnErr, IsErrOf, length};
ghost use Rattle.std.specs.List.{AllByRecursion};
ghost use Rattle.ftc_journal.specs.Text.{spelling};
ghost use Rattle.ftc_outside.specs.Desk.{SameButAt, HasServed};
ghost use Rattle.ftc_outside.specs.Tap.{HasNoFeed};
ghost use Rattle.ftc_protocol.specs.Setting.{setting_of};
ghost use Rattle.ftc_report.specs.Output.{out_bytes, AreWritable};
ghost use Rattle.ftc_report.specs.Report.{report_of};
ghost use Rattle.ftc_serial.specs.Held.{rules_of, serial_state};
ghost use Rattle.ftc_serial.specs.Packets.{bytes_of_packets};
ghost use Rattle.ftc_stream.specs.Taps.{AreLeft};
ghost use Rattle.ftc_words.specs.Shown.{named_of};
ghost use Rattle.ftc.specs.Done.{lines_of};
ghost use Rattle.ftc.specs.Driven.{IsFinishedRun};
ghost use Rattle.ftc.specs.Output.{MayHold};
ghost use Rattle.ftc.specs.Texts.{ring_of};
ghost use Rattle.ftc.specs.Writing.{AreApart, AreTextsWritten, AreTextsCut};

use crate::drive::{Driven, report_of};
use crate::output::{write_journal, write_out, write_text};
use crate::texts::Texts;
use ftc_base::ReleasedList;
use ftc_outside::{Desk, DeskError};
use ftc_pcap::Capture;
use ftc_stream::{Seen, Taps};
use ftc_words::Names;
use std::alloc::Global;

/// Writes the released packets to a new file of that name, and tells the taps of them.
pub fn write_released<D: Desk>(
    alloc: Global,
    name: &str,
    desk: &mut D,
    taps: &mut Taps,
    capture: &Capture,
    released: &ReleasedList,
) -> Result<(), DeskError>
    requires { AreWritable capture.now.packets released.now }
    ensures written { D.tells desk.old → OnOk result (D.file desk.new name.now
        ≡ Some (out_bytes capture.now released.now)) }
    ensures told { OnOk result (AreLeft released.now (⟦<Taps as Seen>⟧.faces taps.old)
        (⟦<Taps as Seen>⟧.faces taps.new)) }
    ensures refused { D.tells desk.old → OnErr result (MayHold (D.file desk.old name.now) (D.file desk.new name.now)
        (out_bytes capture.now released.now)) }
    ensures others { D.tells desk.old → SameButAt name.now (D.file desk.old) (D.file desk.new) }
    ensures served { HasServed D.tells D.sound D.faults (IsErrOf result DeskError.Failed) desk.old desk.new }
    ensures safe { D.tells desk.old → D.sound desk.old → IsErrOf result DeskError.Failed → ⊥ }
{
    write_out(alloc, desk, name, capture, released)?;
    taps.tell_all(alloc, released.as_slice())?;
    Ok(())
}

/// Writes the journal, and then the report with the lines of the taps that are left.
pub fn write_texts<D: Desk>(
    alloc: Global,
    names: Names<'_>,
    desk: &mut D,
    taps: &Taps,
    texts: &Texts,
    driven: &Driven<'_>,
) -> Result<(), DeskError>
    requires apart { AreApart (named_of names) }
    requires ring { texts.now.script.ring ≡ ring_of texts.now.spec }
    requires packets { texts.now.script.packets ≡ length texts.now.capture.packets }
    requires finished { IsFinishedRun
        (setting_of texts.now.spec (bytes_of_packets texts.now.capture.packets) texts.now.script)
        driven.now.chain.journal (serial_state driven.now.serial) }
    requires rules { rules_of driven.now.serial ≡ texts.now.spec.rules }
    ensures written { D.tells desk.old → OnOk result (AreTextsWritten (named_of names.entry)
        (spelling driven.now.chain.journal)
        (report_of (setting_of texts.now.spec (bytes_of_packets texts.now.capture.packets) texts.now.script)
        driven.now.chain.journal (lines_of (⟦<Taps as Seen>⟧.faces taps.now)))
        (D.file desk.old) (D.file desk.new)) }
    ensures plain { OnOk result (AllByRecursion HasNoFeed (lines_of (⟦<Taps as Seen>⟧.faces taps.now))) }
    ensures refused { D.tells desk.old → OnErr result (AreTextsCut (named_of names.entry)
        (spelling driven.now.chain.journal)
        (report_of (setting_of texts.now.spec (bytes_of_packets texts.now.capture.packets) texts.now.script)
        driven.now.chain.journal) (lines_of (⟦<Taps as Seen>⟧.faces taps.now))
        (D.file desk.old) (D.file desk.new)) }
    ensures served { HasServed D.tells D.sound D.faults (IsErrOf result DeskError.Failed) desk.old desk.new }
    ensures safe { D.tells desk.old → D.sound desk.old → IsErrOf result DeskError.Failed → ⊥ }
{
    write_journal(alloc, desk, names.journal, driven.chain.journal())?;
    let lines = taps.lines(alloc)?;
    let report = report_of(alloc, texts, driven, &lines)?;
    write_text(alloc, desk, names.report, &report)
}
