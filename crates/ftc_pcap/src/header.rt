//! The header of a capture, in the classic libpcap format (pcap-savefile(5)).

ghost use Rattle.std.specs.Prelude.{◌≡◌, ◌≤◌, length, IfOk, IfErr, Some};
ghost use Rattle.ftc_pcap.specs.Grammar.{is_magic, magic_order, header_cause, IsHeader};

use crate::capture::CaptureCause;
use crate::number::{number_of, short_of};

/// How many bytes a header has.
pub const HEADER_BYTES: usize = 24;

/// The magic number of a capture whose stamps are in microseconds.
const MICROSECONDS: u32 = 0xa1b2_c3d4;

/// The magic number of a capture whose stamps are in nanoseconds.
const NANOSECONDS: u32 = 0xa1b2_3c4d;

/// Where the major version stands, in two bytes.
const MAJOR_AT: usize = 4;

/// The major version that is read.
const MAJOR: u16 = 2;

/// Where the minor version stands, in two bytes.
const MINOR_AT: usize = 6;

/// The minor version that is read.
const MINOR: u16 = 4;

/// Where the link type stands, in four bytes.
const LINK_TYPE_AT: usize = 20;

/// The link type of Ethernet frames.
const ETHERNET: u32 = 1;

fn is_magic(number: u32) -> bool
    ensures { result ≡ is_magic number }
{
    number == MICROSECONDS || number == NANOSECONDS
}

/// The byte order in which the header begins with a magic number.
fn magic_order(header: &[u8]) -> Option<bool>
    requires { 4 ≤ length header.now }
    ensures { result ≡ magic_order header.now }
{
    if is_magic(number_of(true, header)) {
        return Some(true);
    }
    if is_magic(number_of(false, header)) {
        return Some(false);
    }
    None
}

/// The byte order of a right header, or what is wrong with the header.
pub fn header_order(header: &[u8]) -> Result<bool, CaptureCause>
    requires { length header.now ≤ HEADER_BYTES }
    ensures right { IfOk result (λ big. IsHeader big header.now) }
    ensures wrong { IfErr result (λ cause. header_cause header.now ≡ Some cause) }
{
    if header.len() < 4 {
        return Err(CaptureCause::Cut);
    }
    let Some(big) = magic_order(header) else {
        return Err(CaptureCause::NotCapture);
    };
    if header.len() < HEADER_BYTES {
        return Err(CaptureCause::Cut);
    }
    if short_of(big, &header[MAJOR_AT..]) != MAJOR || short_of(big, &header[MINOR_AT..]) != MINOR {
        return Err(CaptureCause::Version);
    }
    if number_of(big, &header[LINK_TYPE_AT..]) != ETHERNET {
        return Err(CaptureCause::LinkType);
    }
    Ok(big)
}
