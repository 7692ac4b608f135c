//! Whether the checksums of a packet are right.

ghost use Rattle.std.specs.Prelude.{◌≡◌, ◌≤◌, ◌⊎◌, ◌↔◌, true, length, MatchOption, IsTrue};
ghost use Rattle.ftc_packet.specs.Check.{AreSumsRight, HasNoChecksum, IsRight, IsWhole, header_sum};
ghost use Rattle.ftc_packet.specs.Check.{transport_sum as sum_of_transport};
ghost use Rattle.ftc_packet.specs.Flow.{IsFlow};

use crate::flow::is_flow;
use crate::layout::{
    ETHERNET_HEADER, IPV4_OPTIONS, IPV4_PROTOCOL, IPV4_SOURCE, UDP, UDP_CHECKSUM, datagram_end,
    fixed_header, transport_start, word_at,
};
use crate::sum::{RIGHT, add, add_words};

/// Whether both checksums of a flow packet are right, or None where it is no flow packet or the
/// capture doesn't hold the whole datagram.
///
/// The datagram's length is the IPv4 total length, also in the pseudo header of UDP, whose own
/// length field isn't examined. UDP with the checksum 0 has none (RFC 768), which counts as right.
pub fn sums_right(bytes: &[u8]) -> Option<bool>
    ensures right { (result ≡ Some true) ↔ IsRight bytes.now }
    ensures exact { MatchOption result
        (¬ (IsFlow bytes.now × IsWhole bytes.now))
        (λ right. IsFlow bytes.now × IsWhole bytes.now
        × (IsTrue right ↔ AreSumsRight bytes.now)) }
{
    if !is_flow(bytes) || !is_whole(bytes) {
        return None;
    }
    Some(header_right(bytes) && transport_right(bytes))
}

/// Whether the capture holds the whole datagram, and the datagram the transport header.
fn is_whole(bytes: &[u8]) -> bool
    requires { IsFlow bytes.now }
    ensures { IsTrue result ↔ IsWhole bytes.now }
{
    let end = datagram_end(bytes);
    transport_start(bytes) + fixed_header(bytes[IPV4_PROTOCOL]) <= end && end <= bytes.len()
}

/// Whether the checksum of the IPv4 header is right.
#[tactic(auto, unfolding(crate::specs::Check::header_sum, crate::specs::Check::ipv4_header, crate::specs::Layout::transport_start))]
fn header_right(bytes: &[u8]) -> bool
    requires { IsFlow bytes.now }
    ensures { IsTrue result ↔ (header_sum bytes.now ≡ RIGHT) }
{
    add_words(0, &bytes[ETHERNET_HEADER..transport_start(bytes)]) == RIGHT
}

/// Whether the transport checksum is right, or UDP has none.
fn transport_right(bytes: &[u8]) -> bool
    requires flow { IsFlow bytes.now }
    requires whole { IsWhole bytes.now }
    ensures { IsTrue result ↔
        ((sum_of_transport bytes.now ≡ RIGHT) ⊎ HasNoChecksum bytes.now) }
{
    transport_sum(bytes) == RIGHT
        || (bytes[IPV4_PROTOCOL] == UDP
            && word_at(bytes, transport_start(bytes) + UDP_CHECKSUM) == 0)
}

/// The sum of the pseudo header and the segment.
fn transport_sum(bytes: &[u8]) -> u16
    requires flow { IsFlow bytes.now }
    requires whole { IsWhole bytes.now }
    ensures { result ≡ sum_of_transport bytes.now }
{
    let transport = transport_start(bytes);
    let end = datagram_end(bytes);
    let length = (end - transport) as u16;
    let addresses = add_words(0, &bytes[IPV4_SOURCE..IPV4_OPTIONS]);
    let pseudo_header = add(add(addresses, u16::from(bytes[IPV4_PROTOCOL])), length);
    add_words(pseudo_header, &bytes[transport..end])
}
