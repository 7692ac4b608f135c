//! Writing the files of a run.

ghost use Rattle.std.specs.Prelude.{◌≡◌, ◌≤◌, ◌++◌, ℕ, List, OnOk, OnErr, IsErrOf, Some, None};
ghost use Rattle.std.specs.List.{flat_map};
ghost use Rattle.ftc_outside.specs.Desk.{SameButAt, MayHaveGrownAt, HasServed};
ghost use Rattle.ftc_journal.specs.Text.{spelling};
ghost use Rattle.ftc_report.specs.Output.{released_record, out_bytes, IsWritable, AreWritable};
ghost use Rattle.ftc.specs.Output.{MayHold, IsMovedOn};

use ftc_base::{Bytes, NoMemory, Released, ReleasedList};
use ftc_journal::{Journal, print};
use ftc_outside::{Desk, DeskError};
use ftc_pcap::{Capture, write_header, write_packet};
use std::alloc::Global;

/// How long a piece gets before it is written.
const PIECE: usize = 65_536;

/// Adds the record of a released packet to the piece.
fn add_record(
    alloc: Global,
    capture: &Capture,
    released: &Released,
    piece: &mut Bytes,
) -> Result<(), NoMemory>
    requires { IsWritable capture.now.packets released.now }
    ensures ok { OnOk result (piece.new ≡ piece.old ++ released_record capture.now released.now) }
    ensures err { OnErr result (piece.new ≡ piece.old) }
{
    let bytes = released.bytes.as_slice();
    write_packet(alloc, capture, released.packet, bytes, piece)
}

/// Adds a long piece to the file, and goes on with an empty one.
fn flush_long<D: Desk>(
    alloc: Global,
    desk: &mut D,
    name: &str,
    piece: &mut Bytes,
) -> Result<(), DeskError>
    ensures moved { D.tells desk.old → OnOk result (IsMovedOn (D.file desk.old name.now) piece.old
        (D.file desk.new name.now) piece.new) }
    ensures refused { D.tells desk.old → OnErr result (MayHaveGrownAt name.now piece.old (D.file desk.old)
        (D.file desk.new)) }
    ensures others { D.tells desk.old → SameButAt name.now (D.file desk.old) (D.file desk.new) }
    ensures served { HasServed D.tells D.sound D.faults (IsErrOf result DeskError.Failed) desk.old desk.new }
    ensures absent { D.sound desk.old → IsErrOf result DeskError.Failed → D.file desk.old name.now ≡ None }
{
    if piece.len() < PIECE {
        return Ok(());
    }
    desk.append(alloc, name, piece.as_slice())?;
    *piece = Bytes::new(alloc);
    Ok(())
}

/// Adds a first piece and the records of released packets in this order to a file. The file grows by large pieces.
pub fn append_records<D: Desk>(
    alloc: Global,
    desk: &mut D,
    name: &str,
    capture: &Capture,
    first: Bytes,
    released: &[Released],
) -> Result<(), DeskError>
    requires { AreWritable capture.now.packets released.now }
    ensures grown { D.tells desk.old → (held : List ℕ) → D.file desk.old name.now ≡ Some held →
        OnOk result (D.file desk.new name.now
        ≡ Some ((held ++ first) ++ flat_map (released_record capture.now) released.now)) }
    ensures refused { D.tells desk.old → (held : List ℕ) → D.file desk.old name.now ≡ Some held →
        OnErr result (MayHold (D.file desk.old name.now) (D.file desk.new name.now)
        ((held ++ first) ++ flat_map (released_record capture.now) released.now)) }
    ensures others { D.tells desk.old → SameButAt name.now (D.file desk.old) (D.file desk.new) }
    ensures served { HasServed D.tells D.sound D.faults (IsErrOf result DeskError.Failed) desk.old desk.new }
    ensures absent { D.tells desk.old → D.sound desk.old → IsErrOf result DeskError.Failed →
        D.file desk.old name.now ≡ None }
{
    let mut piece = first;
    for packet in released {
        flush_long(alloc, desk, name, &mut piece)?;
        add_record(alloc, capture, packet, &mut piece)?;
    }
    desk.append(alloc, name, piece.as_slice())
}

/// Writes the capture's header to a new file of that name.
pub fn write_front<D: Desk>(
    alloc: Global,
    desk: &mut D,
    name: &str,
    capture: &Capture,
) -> Result<(), DeskError>
    ensures written { D.tells desk.old → OnOk result (D.file desk.new name.now ≡ Some capture.now.header) }
    ensures others { D.tells desk.old → SameButAt name.now (D.file desk.old) (D.file desk.new) }
    ensures served { HasServed D.tells D.sound D.faults (IsErrOf result DeskError.Failed) desk.old desk.new }
    ensures safe { D.tells desk.old → D.sound desk.old → IsErrOf result DeskError.Failed → ⊥ }
{
    let mut header = Bytes::new(alloc);
    write_header(capture, &mut header)?;
    write_text(alloc, desk, name, &header)
}

/// Writes the capture's header, and the records of the released packets in this order, to a new file of that name.
pub fn write_out<D: Desk>(
    alloc: Global,
    desk: &mut D,
    name: &str,
    capture: &Capture,
    released: &ReleasedList,
) -> Result<(), DeskError>
    requires { AreWritable capture.now.packets released.now }
    ensures written { D.tells desk.old → OnOk result (D.file desk.new name.now
        ≡ Some (out_bytes capture.now released.now)) }
    ensures refused { D.tells desk.old → OnErr result (MayHold (D.file desk.old name.now) (D.file desk.new name.now)
        (out_bytes capture.now released.now)) }
    ensures others { D.tells desk.old → SameButAt name.now (D.file desk.old) (D.file desk.new) }
    ensures served { HasServed D.tells D.sound D.faults (IsErrOf result DeskError.Failed) desk.old desk.new }
    ensures safe { D.tells desk.old → D.sound desk.old → IsErrOf result DeskError.Failed → ⊥ }
{
    desk.make(alloc, name)?;
    let mut header = Bytes::new(alloc);
    write_header(capture, &mut header)?;
    append_records(alloc, desk, name, capture, header, released.as_slice())
}

/// Writes a text to a new file of that name.
pub fn write_text<D: Desk>(
    alloc: Global,
    desk: &mut D,
    name: &str,
    text: &Bytes,
) -> Result<(), DeskError>
    ensures written { D.tells desk.old → OnOk result (D.file desk.new name.now ≡ Some text.now) }
    ensures refused { D.tells desk.old → OnErr result (MayHold (D.file desk.old name.now)
        (D.file desk.new name.now) text.now) }
    ensures others { D.tells desk.old → SameButAt name.now (D.file desk.old) (D.file desk.new) }
    ensures served { HasServed D.tells D.sound D.faults (IsErrOf result DeskError.Failed) desk.old desk.new }
    ensures safe { D.tells desk.old → D.sound desk.old → IsErrOf result DeskError.Failed → ⊥ }
{
    desk.make(alloc, name)?;
    desk.append(alloc, name, text.as_slice())
}

/// Writes the text of the journal to a new file of that name.
pub fn write_journal<D: Desk>(
    alloc: Global,
    desk: &mut D,
    name: &str,
    journal: &Journal,
) -> Result<(), DeskError>
    ensures written { D.tells desk.old → OnOk result (D.file desk.new name.now ≡ Some (spelling journal.now.items)) }
    ensures refused { D.tells desk.old → OnErr result (MayHold (D.file desk.old name.now) (D.file desk.new name.now)
        (spelling journal.now.items)) }
    ensures others { D.tells desk.old → SameButAt name.now (D.file desk.old) (D.file desk.new) }
    ensures served { HasServed D.tells D.sound D.faults (IsErrOf result DeskError.Failed) desk.old desk.new }
    ensures safe { D.tells desk.old → D.sound desk.old → IsErrOf result DeskError.Failed → ⊥ }
{
    let text = print(alloc, journal)?;
    write_text(alloc, desk, name, &text)
}
