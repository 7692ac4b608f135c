//! The flow that a packet belongs to.

ghost use Rattle.std.specs.Prelude.{◌≡◌, ◌≤◌, ◌↔◌, length, MatchOption, IsTrue};
ghost use Rattle.ftc_packet.specs.Flow.{IsFlow, flow_found, flow_in};

use crate::layout::{
    DESTINATION_PORT, ETHERTYPE, ETHERTYPE_IPV4, IPV4, IPV4_DESTINATION, IPV4_FRAGMENT,
    IPV4_HEADER_WORDS, IPV4_OPTIONS, IPV4_PROTOCOL, IPV4_SOURCE, IPV4_VERSION, SOURCE_PORT, TCP,
    UDP, address_at, fixed_header, transport_start, word_at,
};

/// The two ends of a packet's flow, and its protocol.
#[derive(Clone, Copy, Debug, PartialEq, Eq)]
pub struct Flow {
    /// The protocol's number: 6 for TCP, 17 for UDP.
    pub protocol: u8,
    /// The IPv4 address that the packet comes from, its first byte highest.
    pub source: u32,
    pub source_port: u16,
    /// The IPv4 address that the packet goes to, its first byte highest.
    pub destination: u32,
    pub destination_port: u16,
}

/// The flag that more fragments follow, and the fragment offset (RFC 791).
const FRAGMENT_BITS: u16 = 0x3fff;

/// Whether the packet is a flow packet.
pub(crate) fn is_flow(bytes: &[u8]) -> bool
    ensures { IsTrue result ↔ IsFlow bytes.now }
{
    if bytes.len() < IPV4_OPTIONS {
        return false;
    }
    let protocol = bytes[IPV4_PROTOCOL];
    word_at(bytes, ETHERTYPE) == ETHERTYPE_IPV4
        && bytes[IPV4_VERSION] >> 4 == IPV4
        && bytes[IPV4_VERSION] & 0x0f >= IPV4_HEADER_WORDS
        && word_at(bytes, IPV4_FRAGMENT) & FRAGMENT_BITS == 0
        && (protocol == TCP || protocol == UDP)
        && transport_start(bytes) + fixed_header(protocol) <= bytes.len()
}

/// The flow of a flow packet, and None for every other packet.
///
/// A flow packet is an IPv4 datagram on Ethernet that is no fragment and carries TCP or UDP,
/// captured at least up to the end of the transport header's fixed part. The IPv4 total length
/// isn't examined.
#[tactic(auto, unfolding(crate::specs::Flow::flow_in))]
pub fn flow_of(bytes: &[u8]) -> Option<Flow>
    ensures computed { result ≡ flow_found bytes.now }
    ensures exact { MatchOption result
        (¬ IsFlow bytes.now)
        (λ flow. IsFlow bytes.now × (flow ≡ flow_in bytes.now)) }
{
    if !is_flow(bytes) {
        return None;
    }
    let transport = transport_start(bytes);
    Some(Flow {
        protocol: bytes[IPV4_PROTOCOL],
        source: address_at(bytes, IPV4_SOURCE),
        source_port: word_at(bytes, transport + SOURCE_PORT),
        destination: address_at(bytes, IPV4_DESTINATION),
        destination_port: word_at(bytes, transport + DESTINATION_PORT),
    })
}
