//! OUT is completed: workers wrote a part of it.

ghost use Rattle.std.specs.Prelude.{◌≡◌, ◌↔◌, ◌≤◌, ◌++◌, ℕ, true, false, List, length, drop, Some, None, OnOk, IsErrOf};
ghost use Rattle.ftc_base.specs.declared.released.Released.{Released as AReleased};
ghost use Rattle.ftc_outside.specs.Desk.{SameButAt, HasServed};
ghost use Rattle.ftc_outside.specs.Tap.{Face};
ghost use Rattle.ftc_report.specs.Output.{out_bytes, AreWritable};
ghost use Rattle.ftc_stream.specs.Records.{writable, records};
ghost use Rattle.ftc_stream.specs.Taps.{AreLeft};
ghost use Rattle.ftc.specs.Completing.{AreToldBehind};

use crate::output::append_records;
use crate::writing::write_released;
use ftc_base::{Bytes, Released, ReleasedList};
use ftc_outside::{Desk, DeskError};
use ftc_pcap::Capture;
use ftc_stream::{Seen, Taps, none_is_passed_over};
use std::alloc::Global;

/// Whether two released packets are one.
fn are_same(one: &Released, other: &Released) -> bool
    ensures { (result ≡ true) ↔ (one.now ≡ other.now) }
{
    one.packet == other.packet && one.bytes.as_slice() == other.bytes.as_slice()
}

/// Whether the first of these released packets are those that were put.
fn are_first(put: &[Released], released: &[Released]) -> bool
    ensures yes { result ≡ true → released.now ≡ put.now ++ drop (length put.now) released.now }
    ensures no { result ≡ false → (rest : List AReleased) → released.now ≡ put.now ++ rest → ⊥ }
{
    if put.len() > released.len() {
        return false;
    }
    for place in 0..put.len() {
        if !are_same(&put[place], &released[place]) {
            return false;
        }
    }
    true
}

/// Puts the released packets that weren't put yet: it adds their records to the file of that name and tells the taps of
/// them. Where what was put isn't the first of them, the file is made again and all are put.
pub fn complete<D: Desk>(
    alloc: Global,
    name: &str,
    desk: &mut D,
    taps: &mut Taps,
    capture: &Capture,
    put: &ReleasedList,
    released: &ReleasedList,
) -> Result<(), DeskError>
    requires { AreWritable capture.now.packets released.now }
    ensures written { D.tells desk.old →
        D.file desk.old name.now ≡ Some (capture.now.header ++ records capture.now put.now) →
        OnOk result (D.file desk.new name.now ≡ Some (out_bytes capture.now released.now)) }
    ensures told { OnOk result (AreToldBehind (writable capture.now put.now) released.now
        (⟦<Taps as Seen>⟧.faces taps.old) (⟦<Taps as Seen>⟧.faces taps.new)) }
    ensures others { D.tells desk.old → SameButAt name.now (D.file desk.old) (D.file desk.new) }
    ensures served { HasServed D.tells D.sound D.faults (IsErrOf result DeskError.Failed) desk.old desk.new }
    ensures absent { D.tells desk.old → D.sound desk.old → IsErrOf result DeskError.Failed →
        D.file desk.old name.now ≡ None }
{
    none_is_passed_over();
    let (put, all) = (put.as_slice(), released.as_slice());
    if !are_first(put, all) {
        return write_released(alloc, name, desk, taps, capture, released);
    }
    let rest = &all[put.len()..];
    append_records(alloc, desk, name, capture, Bytes::new(alloc), rest)?;
    taps.tell_all(alloc, rest)?;
    Ok(())
}
