//! Where the fields of a packet stand, and its words of 16 bits.

ghost use Rattle.std.specs.Prelude.{◌≡◌, ◌+◌, ◌*◌, ◌<◌, ◌≤◌, length};
ghost use Rattle.ftc_packet.specs.Layout.{address_at as address_of, checksum_place as place_of_checksum};
ghost use Rattle.ftc_packet.specs.Layout.{datagram_end as end_of_datagram, fixed_header as length_of_fixed_header};
ghost use Rattle.ftc_packet.specs.Layout.{transport_start as start_of_transport, with_word, word_at as word_of};

use byteorder::{BigEndian, ByteOrder};

/// The EtherType, in 16 bits.
pub(crate) const ETHERTYPE: usize = 12;
/// The EtherType of IPv4.
pub(crate) const ETHERTYPE_IPV4: u16 = 0x0800;
/// The length of an Ethernet header, behind which the IPv4 header begins.
pub(crate) const ETHERNET_HEADER: usize = 14;

/// The version in the high 4 bits, and in the low 4 how many words of 32 bits the header has
/// (RFC 791).
pub(crate) const IPV4_VERSION: usize = ETHERNET_HEADER;
/// The length of the datagram with its IPv4 header, in 16 bits.
pub(crate) const IPV4_TOTAL_LENGTH: usize = ETHERNET_HEADER + 2;
/// Three flags and the fragment offset, in 16 bits.
pub(crate) const IPV4_FRAGMENT: usize = ETHERNET_HEADER + 6;
/// The number of the protocol behind the header.
pub(crate) const IPV4_PROTOCOL: usize = ETHERNET_HEADER + 9;
/// The checksum of the IPv4 header.
pub(crate) const IPV4_CHECKSUM: usize = ETHERNET_HEADER + 10;
/// The source address, in 32 bits.
pub(crate) const IPV4_SOURCE: usize = ETHERNET_HEADER + 12;
/// The destination address, in 32 bits.
pub(crate) const IPV4_DESTINATION: usize = ETHERNET_HEADER + 16;
/// The options, behind the fixed part of the IPv4 header.
pub(crate) const IPV4_OPTIONS: usize = ETHERNET_HEADER + 20;

/// The version of IPv4.
pub(crate) const IPV4: u8 = 4;
/// How many words of 32 bits an IPv4 header has without options.
pub(crate) const IPV4_HEADER_WORDS: u8 = 5;

/// The protocol number of TCP.
pub(crate) const TCP: u8 = 6;
/// The protocol number of UDP.
pub(crate) const UDP: u8 = 17;

/// The source port, from the start of the transport header (RFC 9293, RFC 768).
pub(crate) const SOURCE_PORT: usize = 0;
/// The destination port, from the start of the transport header.
pub(crate) const DESTINATION_PORT: usize = 2;
/// The checksum of a TCP header, from its start.
pub(crate) const TCP_CHECKSUM: usize = 16;
/// The length of a TCP header without options.
pub(crate) const TCP_HEADER: usize = 20;
/// The checksum of a UDP header, from its start.
pub(crate) const UDP_CHECKSUM: usize = 6;
/// The length of a UDP header.
pub(crate) const UDP_HEADER: usize = 8;

/// The word at a place.
pub(crate) fn word_at(bytes: &[u8], at: usize) -> u16
    requires { at + 1 < length bytes.now }
    ensures { result ≡ word_of bytes.now at }
{
    BigEndian::read_u16(&bytes[at..])
}

/// The IPv4 address at a place.
pub(crate) fn address_at(bytes: &[u8], at: usize) -> u32
    requires { at + 3 < length bytes.now }
    ensures { result ≡ address_of bytes.now at }
{
    BigEndian::read_u32(&bytes[at..])
}

/// Writes a word at a place.
pub(crate) fn put_word(bytes: &mut [u8], at: usize, word: u16)
    requires { at + 1 < length bytes.old }
    ensures { bytes.new ≡ with_word bytes.old at word }
{
    BigEndian::write_u16(&mut bytes[at..], word);
}

/// Where the transport header begins: behind the IPv4 header with its options.
#[tactic(auto, unfolding(crate::specs::Layout::transport_start))]
pub(crate) fn transport_start(bytes: &[u8]) -> usize
    requires { IPV4_OPTIONS ≤ length bytes.now }
    ensures start { result ≡ start_of_transport bytes.now }
    ensures least { ETHERNET_HEADER ≤ result }
    ensures most { result ≤ ETHERNET_HEADER + 4 * 15 }
{
    ETHERNET_HEADER + 4 * usize::from(bytes[IPV4_VERSION] & 0x0f)
}

/// Where the datagram ends by its IPv4 total length.
pub(crate) fn datagram_end(bytes: &[u8]) -> usize
    requires { IPV4_OPTIONS ≤ length bytes.now }
    ensures end { result ≡ end_of_datagram bytes.now }
    ensures most { result ≤ ETHERNET_HEADER + 0xffff }
{
    ETHERNET_HEADER + usize::from(word_at(bytes, IPV4_TOTAL_LENGTH))
}

/// The length of the fixed part of the transport header of TCP or UDP.
pub(crate) fn fixed_header(protocol: u8) -> usize
    ensures { result ≡ length_of_fixed_header protocol }
{
    if protocol == TCP {
        TCP_HEADER
    } else {
        UDP_HEADER
    }
}

/// Where the checksum stands in the transport header of TCP or UDP.
pub(crate) fn checksum_place(protocol: u8) -> usize
    ensures place { result ≡ place_of_checksum protocol }
    ensures most { result ≤ TCP_CHECKSUM }
{
    if protocol == TCP {
        TCP_CHECKSUM
    } else {
        UDP_CHECKSUM
    }
}
