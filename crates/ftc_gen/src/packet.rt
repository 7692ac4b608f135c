//! One packet of a generated capture.

ghost use Rattle.std.specs.Prelude.{◌≡◌, ◌+◌};
ghost use Rattle.ftc_packet.specs.Sum.{checksum_of};
ghost use Rattle.ftc_gen.specs.Packet.{host_of, port_of, ipv4, udp, ipv4_checksum, udp_checksum, packet_of};
ghost use Rattle.ftc_gen.specs.Capture.{record_of};

/// How many bytes a record has: 16 before its packet, and 42 of the packet.
pub const RECORD: usize = 58;

/// The last byte of the source address.
fn host_of(place: u32, seed: u32) -> u8
    ensures { result ≡ host_of place seed }
{
    1 + ((u64::from(place) + u64::from(seed)) % 200) as u8
}

fn port_of(place: u32) -> u16
    ensures { result ≡ port_of place }
{
    if place % 10 == 9 { 81 } else { 80 }
}

/// The checksum of words with this plain sum.
fn checksum_of(total: u32) -> u16
    ensures { result ≡ checksum_of total }
{
    if total == 0 {
        return 0xffff;
    }
    0xffff - ((total - 1) % 0xffff + 1) as u16
}

/// The sum of the words of both addresses.
fn addresses_sum(host: u8) -> u32
    ensures { result ≡ 0x0a00 + host + 0xc633 + 0x640a }
{
    0x0a00 + u32::from(host) + 0xc633 + 0x640a
}

fn ipv4_checksum(identification: u16, host: u8) -> u16
    ensures { result ≡ ipv4_checksum identification host }
{
    checksum_of(0x4500 + 28 + u32::from(identification) + 0x4011 + addresses_sum(host))
}

fn udp_checksum(host: u8, port: u16) -> u16
    ensures { result ≡ udp_checksum host port }
{
    let checksum = checksum_of(addresses_sum(host) + 17 + 8 + 5000 + u32::from(port) + 8);
    if checksum == 0 { 0xffff } else { checksum }
}

/// The record of the packet at that place, with its stamp and its lengths.
pub fn record_of(seed: u32, place: u32) -> [u8; RECORD]
    ensures { result ≡ record_of seed place }
{
    let host = host_of(place, seed);
    let port = port_of(place);
    let identification = (place % 65_536) as u16;
    let [second, minor, major, last] = place.to_le_bytes();
    let [high, low] = identification.to_be_bytes();
    let [ipv4_high, ipv4_low] = ipv4_checksum(identification, host).to_be_bytes();
    let [port_high, port_low] = port.to_be_bytes();
    let [udp_high, udp_low] = udp_checksum(host, port).to_be_bytes();
    [
        second, minor, major, last, 0, 0, 0, 0, 42, 0, 0, 0, 42, 0, 0, 0, 2, 0, 0, 0, 0, 1, 2, 0,
        0, 0, 0, 2, 8, 0, 0x45, 0, 0, 28, high, low, 0, 0, 64, 17, ipv4_high, ipv4_low, 10, 0, 0,
        host, 198, 51, 100, 10, 0x13, 0x88, port_high, port_low, 0, 8, udp_high, udp_low,
    ]
}
