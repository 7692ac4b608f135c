//! Numbers in a byte order that is known only when the text is read: `big` says that it is
//! big-endian.

ghost use Rattle.std.specs.Prelude.{◌≡◌, ◌≤◌, ◌++◌, length, OnOk};
ghost use Rattle.ftc_pcap.specs.Grammar.{number_of, short_of, number_bytes};

use byteorder::{BigEndian, ByteOrder, LittleEndian};
use ftc_base::{Bytes, NoMemory};

/// The number in the first four bytes.
#[tactic(auto, unfolding(crate::specs::Grammar::number_of))]
pub fn number_of(big: bool, bytes: &[u8]) -> u32
    requires { 4 ≤ length bytes.now }
    ensures { result ≡ number_of big bytes.now }
{
    if big {
        BigEndian::read_u32(bytes)
    } else {
        LittleEndian::read_u32(bytes)
    }
}

/// The number in the first two bytes.
#[tactic(auto, unfolding(crate::specs::Grammar::short_of))]
pub fn short_of(big: bool, bytes: &[u8]) -> u16
    requires { 2 ≤ length bytes.now }
    ensures { result ≡ short_of big bytes.now }
{
    if big {
        BigEndian::read_u16(bytes)
    } else {
        LittleEndian::read_u16(bytes)
    }
}

/// Adds the number's four bytes at the end.
#[tactic(auto, unfolding(crate::specs::Grammar::number_bytes))]
pub fn append_number(big: bool, number: u32, out: &mut Bytes) -> Result<(), NoMemory>
    ensures { OnOk result (out.new ≡ out.old ++ number_bytes big number) }
{
    let mut four = [0; 4];
    if big {
        BigEndian::write_u32(&mut four, number);
    } else {
        LittleEndian::write_u32(&mut four, number);
    }
    out.append(&four)
}
