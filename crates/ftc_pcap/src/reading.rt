//! Reading a capture.

ghost use Rattle.std.specs.Prelude.{◌≡◌, ◌≤◌, ◌<◌, ◌++◌, length, Some, OnOk, IfOk, IfErr};
ghost use Rattle.ftc_pcap.specs.Grammar.{record_bytes, capture_bytes, IsPacket, IsCapture, front_cause, Spells};
ghost use Rattle.ftc_pcap.specs.Grammar.{Refuses};
ghost use Rattle.ftc_pcap.specs.Placing.{RefusesRecord, placed_at};

use crate::capture::{Capture, CaptureCause, CaptureFault};
use crate::head::{HEAD_BYTES, split_head};
use crate::header::{HEADER_BYTES, header_order};
use crate::packets::{Packet, Packets};
use ftc_base::limits::{MOST_CAPTURE_BYTES, MOST_CAPTURED, MOST_RECORDS};
use ftc_base::{Bytes, Refuse};
use std::alloc::Global;

/// The capture of the header and no packets yet, and the bytes after the header.
fn split_header(alloc: Global, text: &[u8]) -> Result<(Capture, &[u8]), CaptureCause>
    ensures right { IfOk result (λ found. IsCapture found.0) }
    ensures parts { IfOk result (λ found. text.now ≡ capture_bytes found.0 ++ found.1.now) }
    ensures size { OnOk result (length text.now ≤ MOST_CAPTURE_BYTES) }
    ensures fault { IfErr result (λ cause. front_cause text.now ≡ Some cause) }
{
    if text.len() > MOST_CAPTURE_BYTES {
        return Err(CaptureCause::TooBig);
    }
    let (front, rest) = text.split_at(HEADER_BYTES.min(text.len()));
    let big = header_order(front)?;
    let mut header = [0; HEADER_BYTES];
    header.copy_from_slice(front);
    let capture = Capture {
        header,
        big,
        packets: Packets::new(alloc),
    };
    Ok((capture, rest))
}

/// The record at the front, behind so many others, and the bytes after it.
fn split_record(
    alloc: Global,
    big: bool,
    count: usize,
    bytes: &[u8],
) -> Result<(Packet, &[u8]), Refuse<CaptureCause>>
    ensures parts { IfOk result (λ found. bytes.now ≡ record_bytes big found.0 ++ found.1.now) }
    ensures packet { IfOk result (λ found. IsPacket found.0) }
    ensures few { OnOk result (count < MOST_RECORDS) }
    ensures fault { IfErr result (RefusesRecord big count bytes.now) }
    ensures shorter { IfOk result (λ found. length found.1.now < length bytes.now) }
{
    if count >= MOST_RECORDS {
        return Err(Refuse::Bad(CaptureCause::TooMany));
    }
    if bytes.len() < HEAD_BYTES {
        return Err(Refuse::Bad(CaptureCause::Cut));
    }
    let (head, after) = split_head(big, bytes);
    let captured = head.captured as usize;
    if captured > MOST_CAPTURED {
        return Err(Refuse::Bad(CaptureCause::RecordTooLong));
    }
    if after.len() < captured {
        return Err(Refuse::Bad(CaptureCause::Cut));
    }
    let (held, rest) = after.split_at(captured);
    let mut copy = Bytes::new(alloc);
    copy.append(held)?;
    let packet = Packet {
        seconds: head.seconds,
        fraction: head.fraction,
        original: head.original,
        bytes: copy,
    };
    Ok((packet, rest))
}

/// The refusal of the record that begins at that byte.
fn placed_at(at: u64, refusal: Refuse<CaptureCause>) -> Refuse<CaptureFault>
    ensures { result ≡ placed_at at refusal }
{
    match refusal {
        Refuse::Bad(cause) => Refuse::Bad(CaptureFault { at, cause }),
        Refuse::NoMemory => Refuse::NoMemory,
    }
}

/// Reads a capture file in libpcap's classic form, of version 2.4 and Ethernet frames. Zone, sigfigs
/// and snaplen are free. The refusal is the first fault.
pub fn read_capture(alloc: Global, text: &[u8]) -> Result<Capture, Refuse<CaptureFault>>
    ensures found { IfOk result (Spells text.now) }
    ensures fault { IfErr result (Refuses text.now) }
{
    let (mut capture, mut rest) = match split_header(alloc, text) {
        Ok(found) => found,
        Err(cause) => return Err(Refuse::Bad(CaptureFault { at: 0, cause })),
    };
    while !rest.is_empty() {
        let at = (text.len() - rest.len()) as u64;
        match split_record(alloc, capture.big, capture.packets.len(), rest) {
            Ok((packet, after)) => {
                capture.packets.push(packet)?;
                rest = after;
            }
            Err(refusal) => return Err(placed_at(at, refusal)),
        }
    }
    Ok(capture)
}
