//! Another address and port for one end of a packet's flow.

ghost use Rattle.std.specs.Prelude.{◌≡◌, ◌+◌, ◌/◌, ◌%◌, ◌<◌, length};
ghost use Rattle.ftc_packet.specs.Check.{IsRight};
ghost use Rattle.ftc_packet.specs.Flow.{IsFlow, flow_in};
ghost use Rattle.ftc_packet.specs.Layout.{AreBytes};
ghost use Rattle.ftc_packet.specs.Rewrite.{ChangesOnlyDestination, ChangesOnlySource};
ghost use Rattle.ftc_packet.specs.Rewrite.{address_place as place_of_address};
ghost use Rattle.ftc_packet.specs.Rewrite.{new_header_checksum as header_checksum_of};
ghost use Rattle.ftc_packet.specs.Rewrite.{new_transport_checksum as transport_checksum_of};
ghost use Rattle.ftc_packet.specs.Rewrite.{port_place as place_of_port, updated_for_address as checksum_for_address};
ghost use Rattle.ftc_packet.specs.Rewrite.{with_address, with_destination, with_end, with_source};
ghost use Rattle.ftc_packet.specs.Rewrite.{written_checksum as checksum_written};

use crate::layout::{
    DESTINATION_PORT, IPV4_CHECKSUM, IPV4_DESTINATION, IPV4_PROTOCOL, IPV4_SOURCE, SOURCE_PORT,
    UDP, checksum_place, put_word, transport_start, word_at,
};
use crate::sum::updated;

/// One end of a flow.
#[derive(Clone, Copy)]
enum End {
    Source,
    Destination,
}

/// Gives a flow packet another source address and port, and updates both checksums for them.
///
/// A UDP checksum of 0, which says that there is none, stays 0, and one that would become 0 is
/// written as `0xffff` (RFC 768).
pub fn set_source(bytes: &mut [u8], address: u32, port: u16)
    requires { IsFlow bytes.old }
    ensures same { bytes.new ≡ with_source bytes.old address port }
    ensures length { length bytes.new ≡ length bytes.old }
    ensures flow { IsFlow bytes.new }
    ensures named { flow_in bytes.new ≡
        record (flow_in bytes.old) { source = address; source_port = port } }
    ensures others { ChangesOnlySource bytes.old bytes.new }
    ensures right { IsRight bytes.old → IsRight bytes.new }
{
    set_end(bytes, End::Source, address, port);
}

/// Gives a flow packet another destination address and port, and updates both checksums for them.
///
/// A UDP checksum of 0, which says that there is none, stays 0, and one that would become 0 is
/// written as `0xffff` (RFC 768).
pub fn set_destination(bytes: &mut [u8], address: u32, port: u16)
    requires { IsFlow bytes.old }
    ensures same { bytes.new ≡ with_destination bytes.old address port }
    ensures length { length bytes.new ≡ length bytes.old }
    ensures flow { IsFlow bytes.new }
    ensures named { flow_in bytes.new ≡
        record (flow_in bytes.old) { destination = address; destination_port = port } }
    ensures others { ChangesOnlyDestination bytes.old bytes.new }
    ensures right { IsRight bytes.old → IsRight bytes.new }
{
    set_end(bytes, End::Destination, address, port);
}

/// Gives an end of a flow packet another address and port, and updates both checksums for them.
#[tactic(auto, unfolding(crate::specs::Rewrite::with_end))]
fn set_end(bytes: &mut [u8], end: End, address: u32, port: u16)
    requires { IsFlow bytes.old }
    ensures same { bytes.new ≡ with_end bytes.old end address port }
    ensures right { IsRight bytes.old → IsRight bytes.new }
{
    let header_checksum = new_header_checksum(bytes, end, address);
    let transport_checksum = new_transport_checksum(bytes, end, address, port);
    let transport = transport_start(bytes);
    let checksum_at = transport + checksum_place(bytes[IPV4_PROTOCOL]);

    put_address(bytes, address_place(end), address);
    put_word(bytes, IPV4_CHECKSUM, header_checksum);
    put_word(bytes, transport + port_place(end), port);
    put_word(bytes, checksum_at, transport_checksum);
}

/// The checksum of the IPv4 header once an end has another address.
#[tactic(auto, unfolding(crate::specs::Rewrite::new_header_checksum))]
fn new_header_checksum(bytes: &[u8], end: End, address: u32) -> u16
    requires { IsFlow bytes.now }
    ensures { result ≡ header_checksum_of bytes.now end address }
{
    let checksum = word_at(bytes, IPV4_CHECKSUM);
    updated_for_address(checksum, bytes, address_place(end), address)
}

/// The transport checksum once an end has another address and port.
#[tactic(auto, unfolding(crate::specs::Rewrite::new_transport_checksum))]
fn new_transport_checksum(bytes: &[u8], end: End, address: u32, port: u16) -> u16
    requires { IsFlow bytes.now }
    ensures checksum { result ≡ transport_checksum_of bytes.now end address port }
    ensures read { AreBytes bytes.now }
{
    let transport = transport_start(bytes);
    let protocol = bytes[IPV4_PROTOCOL];
    let before = word_at(bytes, transport + checksum_place(protocol));
    let addressed = updated_for_address(before, bytes, address_place(end), address);
    let after = updated(addressed, word_at(bytes, transport + port_place(end)), port);
    written_checksum(protocol, before, after)
}

/// A checksum once the address at a place, which is under it, has become another.
fn updated_for_address(checksum: u16, bytes: &[u8], at: usize, address: u32) -> u16
    requires { at + 3 < length bytes.now }
    ensures { result ≡ checksum_for_address checksum bytes.now at address }
{
    let (high, low) = halves(address);
    updated(
        updated(checksum, word_at(bytes, at), high),
        word_at(bytes, at + 2),
        low,
    )
}

/// Writes an address at a place.
fn put_address(bytes: &mut [u8], at: usize, address: u32)
    requires { at + 3 < length bytes.old }
    ensures { bytes.new ≡ with_address bytes.old at address }
{
    let (high, low) = halves(address);
    put_word(bytes, at, high);
    put_word(bytes, at + 2, low);
}

/// The high and the low word of an address.
fn halves(address: u32) -> (u16, u16)
    ensures high { result.0 ≡ address / 65536 }
    ensures low { result.1 ≡ address % 65536 }
{
    ((address >> 16) as u16, (address & 0xffff) as u16)
}

/// Where an end's address stands.
fn address_place(end: End) -> usize
    ensures { result ≡ place_of_address end }
{
    match end {
        End::Source => IPV4_SOURCE,
        End::Destination => IPV4_DESTINATION,
    }
}

/// Where an end's port stands in the transport header.
fn port_place(end: End) -> usize
    ensures { result ≡ place_of_port end }
{
    match end {
        End::Source => SOURCE_PORT,
        End::Destination => DESTINATION_PORT,
    }
}

/// The transport checksum to write where it was `before` and the update gave `after`.
fn written_checksum(protocol: u8, before: u16, after: u16) -> u16
    ensures { result ≡ checksum_written protocol before after }
{
    match (protocol, before, after) {
        (UDP, 0, _) => 0,
        (UDP, _, 0) => 0xffff,
        _ => after,
    }
}
