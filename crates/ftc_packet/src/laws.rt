//! Laws of the definitions that contracts cite, each the contract of a function that does nothing.

ghost use Rattle.std.specs.Prelude.{◌≡◌};
ghost use Rattle.ftc_packet.specs.Laws.{FlowsAreFound, UpdatesRecompute, UpdatesStayRight};

use crate::layout::{
    DESTINATION_PORT, ETHERNET_HEADER, ETHERTYPE, ETHERTYPE_IPV4, IPV4, IPV4_CHECKSUM,
    IPV4_DESTINATION, IPV4_FRAGMENT, IPV4_HEADER_WORDS, IPV4_OPTIONS, IPV4_PROTOCOL, IPV4_SOURCE,
    IPV4_TOTAL_LENGTH, IPV4_VERSION, SOURCE_PORT, TCP, TCP_CHECKSUM, TCP_HEADER, UDP, UDP_CHECKSUM,
    UDP_HEADER,
};

/// Where the fields of Ethernet and IPv4 stand, and what they hold in an IPv4 packet (RFC 894, RFC 791).
pub fn law_of_datagrams()
    ensures ethertype { (ETHERTYPE ≡ 12) × (ETHERTYPE_IPV4 ≡ 0x0800) }
    ensures header { (ETHERNET_HEADER ≡ 14) × (IPV4_VERSION ≡ 14) × (IPV4 ≡ 4) × (IPV4_HEADER_WORDS ≡ 5) }
    ensures fields { (IPV4_TOTAL_LENGTH ≡ 16) × (IPV4_FRAGMENT ≡ 20) × (IPV4_PROTOCOL ≡ 23) × (IPV4_CHECKSUM ≡ 24) }
    ensures addresses { (IPV4_SOURCE ≡ 26) × (IPV4_DESTINATION ≡ 30) × (IPV4_OPTIONS ≡ 34) }
    ensures protocols { (TCP ≡ 6) × (UDP ≡ 17) }
{}

/// Where the fields of TCP and UDP stand in their headers (RFC 9293, RFC 768).
pub fn law_of_segments()
    ensures ports { (SOURCE_PORT ≡ 0) × (DESTINATION_PORT ≡ 2) }
    ensures tcp { (TCP_HEADER ≡ 20) × (TCP_CHECKSUM ≡ 16) }
    ensures udp { (UDP_HEADER ≡ 8) × (UDP_CHECKSUM ≡ 6) }
{}

/// A flow is found exactly in a flow packet, and it is the flow that the packet's fields name.
pub fn law_of_flows()
    ensures { FlowsAreFound }
{}

/// A checksum that is updated for one changed word, by equation 3 of RFC 1624, is right where it
/// was right before, and it is the checksum that a sum of all words gives, up to the two zeros of
/// one's complement.
///
/// One of the words that stay has to be above zero. Over bare lists of words, where all but the
/// changed one may be zero, the law is false: with the checksum `0xfffe` over the word 1, which
/// becomes 0, the sum of all words becomes 0. Every flow packet has such a word in both sums: the
/// first one of its IPv4 header, and the protocol in the pseudo header.
pub fn law_of_updates()
    ensures stay_right { UpdatesStayRight }
    ensures recompute { UpdatesRecompute }
{}
