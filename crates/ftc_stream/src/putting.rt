//! One record is put.

ghost use Rattle.std.specs.Prelude.{◌≡◌, ◌≢◌, ◌≤◌, ◌⊎◌, true, false, None, IsOk, IsErrOf, IfOk, OnOk, OnErr, codes};
ghost use Rattle.ftc_outside.specs.Desk.{SameButAt, GrewAt, MayHaveGrownAt, HasServed};
ghost use Rattle.ftc_stream.specs.Faults.{fault_of};
ghost use Rattle.ftc_stream.specs.Records.{is_writable, released_record};
ghost use Rattle.ftc_stream.specs.Taps.{AreTold, AreToldInPart};
ghost use Rattle.ftc_stream.specs.declared.fault.PutFault.TheVariants as fault;

use crate::fault::PutFault;
use crate::taps::{Seen, Taps};
use ftc_base::limits::MOST_CAPTURED;
use ftc_base::{Bytes, NoMemory, Released};
use ftc_outside::Desk;
use ftc_pcap::{Capture, write_packet};
use std::alloc::Global;

/// Whether the item has a record.
fn is_writable(capture: &Capture, item: &Released) -> bool
    ensures { result ≡ is_writable capture.now.packets item.now }
{
    (item.packet as usize) < capture.packets.len() && item.bytes.len() <= MOST_CAPTURED
}

/// The record of an item that has one.
fn record_of(alloc: Global, capture: &Capture, item: &Released) -> Result<Bytes, NoMemory>
    requires { is_writable capture.now.packets item.now ≡ true }
    ensures { IfOk result (λ bytes. bytes ≡ released_record capture.now item.now) }
{
    let mut record = Bytes::new(alloc);
    write_packet(
        alloc,
        capture,
        item.packet,
        item.bytes.as_slice(),
        &mut record,
    )?;
    Ok(record)
}

/// Appends the item's record to the file, and then tells each tap of it. An item that has no record is
/// passed over.
pub fn put<D: Desk>(
    alloc: Global,
    item: &Released,
    capture: &Capture,
    out: &str,
    desk: &mut D,
    taps: &mut Taps,
) -> Result<(), PutFault>
    ensures grown { D.tells desk.old → is_writable capture.now.packets item.now ≡ true →
        OnOk result (GrewAt out.now (released_record capture.now item.now) (D.file desk.old) (D.file desk.new)) }
    ensures told { is_writable capture.now.packets item.now ≡ true →
        OnOk result (AreTold item.now (⟦<Taps as Seen>⟧.faces taps.old) (⟦<Taps as Seen>⟧.faces taps.new)) }

    ensures passed_over { is_writable capture.now.packets item.now ≡ false → IsOk result }
    ensures desk_stays { is_writable capture.now.packets item.now ≡ false → desk.new ≡ desk.old }
    ensures taps_stay { is_writable capture.now.packets item.now ≡ false →
        ⟦<Taps as Seen>⟧.faces taps.new ≡ ⟦<Taps as Seen>⟧.faces taps.old }

    // Where it is refused, a front of the record was appended and no tap was told, or the whole record was
    // and the taps up to some place were told.
    ensures part { D.tells desk.old → OnErr result (MayHaveGrownAt out.now (released_record capture.now item.now)
        (D.file desk.old) (D.file desk.new)) }
    ensures told_in_part { OnErr result (
        AreToldInPart item.now (⟦<Taps as Seen>⟧.faces taps.old) (⟦<Taps as Seen>⟧.faces taps.new)) }
    ensures whole_first { D.tells desk.old → OnErr result (
        (⟦<Taps as Seen>⟧.faces taps.new ≡ ⟦<Taps as Seen>⟧.faces taps.old) ⊎
        GrewAt out.now (released_record capture.now item.now) (D.file desk.old) (D.file desk.new)) }
    ensures untold { IsErrOf result PutFault.Failed →
        ⟦<Taps as Seen>⟧.faces taps.new ≡ ⟦<Taps as Seen>⟧.faces taps.old }

    ensures others { D.tells desk.old → SameButAt out.now (D.file desk.old) (D.file desk.new) }
    ensures served { HasServed D.tells D.sound D.faults (IsErrOf result PutFault.Failed) desk.old desk.new }
    ensures absent { D.sound desk.old → IsErrOf result PutFault.Failed →
        (D.file desk.old out.now ≡ None) × (out.now ≢ codes "-") }
{
    if !is_writable(capture, item) {
        return Ok(());
    }
    let record = record_of(alloc, capture, item)?;
    desk.append(alloc, out, record.as_slice())?;
    taps.tell(alloc, item)?;
    Ok(())
}
