//! What is captured are bytes. A contract knows that of a list where an item of it has been read.

ghost use Rattle.std.specs.List.{AllByRecursion};
ghost use Rattle.ftc_packet.specs.Layout.{AreBytes};
ghost use Rattle.ftc_serial.specs.Packets.{bytes_of_packets};

use ftc_pcap::Packets;

/// A packet is of bytes.
fn are_bytes(captured: &[u8])
    ensures { AreBytes captured.now }
{
    if !captured.is_empty() {
        let _first = captured[0];
    }
}

/// The packets of a capture are of bytes.
pub fn are_of_bytes(packets: &Packets)
    ensures { AllByRecursion AreBytes (bytes_of_packets packets.now) }
{
    for place in 0..packets.len() {
        are_bytes(packets.at(place).bytes.as_slice());
    }
}
