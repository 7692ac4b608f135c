//! The bytes of the packets that came out.

ghost use Rattle.std.specs.Prelude.{◌≡◌, ◌++◌, OnOk, IfOk};
ghost use Rattle.ftc_report.specs.Output.{released_record, out_bytes, IsWritable, AreWritable};

use ftc_base::{Bytes, NoMemory, Released, ReleasedList};
use ftc_pcap::{Capture, write_header, write_packet};
use std::alloc::Global;

/// Adds the record of a released packet.
fn append_record(
    alloc: Global,
    capture: &Capture,
    released: &Released,
    out: &mut Bytes,
) -> Result<(), NoMemory>
    requires { IsWritable capture.now.packets released.now }
    ensures { OnOk result (out.new ≡ out.old ++ released_record capture.now released.now) }
{
    let bytes = released.bytes.as_slice();
    write_packet(alloc, capture, released.packet, bytes, out)
}

/// The capture's header, and the records of the released packets in this order.
pub fn out_of(alloc: Global, capture: &Capture, released: &ReleasedList) -> Result<Bytes, NoMemory>
    requires { AreWritable capture.now.packets released.now }
    ensures { IfOk result (λ bytes. bytes ≡ out_bytes capture.now released.now) }
{
    let mut out = Bytes::new(alloc);
    write_header(capture, &mut out)?;
    for packet in released.as_slice() {
        append_record(alloc, capture, packet, &mut out)?;
    }
    Ok(out)
}
