//! Writing a capture, piece by piece.

ghost use Rattle.std.specs.Prelude.{◌≡◌, ◌≤◌, ◌<◌, ◌++◌, length, OnOk, OnErr, IfSome, slice_get};
ghost use Rattle.ftc_pcap.specs.Grammar.{record_bytes, rewritten};

use crate::capture::Capture;
use crate::head::{Head, append_head};
use ftc_base::limits::MOST_CAPTURED;
use ftc_base::{Bytes, NoMemory, PacketNo};
use std::alloc::Global;

/// Adds the capture's header at the end.
pub fn write_header(capture: &Capture, out: &mut Bytes) -> Result<(), NoMemory>
    ensures ok { OnOk result (out.new ≡ out.old ++ capture.now.header) }
    ensures err { OnErr result (out.new ≡ out.old) }
{
    out.append(&capture.header)
}

/// Adds a record at the end: the packet of that number, with these bytes in place of its own. Its
/// stamps and its original length stay, and its captured length is that of the bytes.
pub fn write_packet(
    alloc: Global,
    capture: &Capture,
    number: PacketNo,
    bytes: &[u8],
    out: &mut Bytes,
) -> Result<(), NoMemory>
    requires known { number < length capture.now.packets }
    requires short { length bytes.now ≤ MOST_CAPTURED }
    ensures ok { OnOk result (IfSome (slice_get capture.now.packets number) (λ packet. out.new ≡ out.old
        ++ record_bytes capture.now.big (rewritten packet bytes.now))) }
    ensures err { OnErr result (out.new ≡ out.old) }
{
    let packet = capture.packets.at(number as usize);
    let head = Head {
        seconds: packet.seconds,
        fraction: packet.fraction,
        captured: bytes.len() as u32,
        original: packet.original,
    };
    let mut record = Bytes::new(alloc);
    append_head(capture.big, head, &mut record)?;
    record.append(bytes)?;
    out.append(record.as_slice())
}
