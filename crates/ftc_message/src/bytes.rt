//! Numbers of several bytes, the highest byte first.

ghost use Rattle.std.specs.Prelude.{◌≡◌, ◌++◌, ◌∷◌, length, OnOk};
ghost use Rattle.ftc_message.specs.Numbers.{number_bytes, number_of};

use byteorder::{BigEndian, ByteOrder};
use ftc_base::{Bytes, NoMemory};

/// The number that four bytes say.
#[tactic(auto, unfolding(crate::specs::Numbers::number_of))]
pub fn word_of(bytes: &[u8]) -> u32
    requires { length bytes.now ≡ 4 }
    ensures { result ≡ number_of 4 bytes.now }
{
    BigEndian::read_u32(bytes)
}

/// The number that eight bytes say.
#[tactic(auto, unfolding(crate::specs::Numbers::number_of))]
pub fn number_of(bytes: &[u8]) -> u64
    requires { length bytes.now ≡ 8 }
    ensures { result ≡ number_of 8 bytes.now }
{
    BigEndian::read_u64(bytes)
}

/// Adds the number's four bytes at the end.
#[tactic(auto, unfolding(crate::specs::Numbers::number_bytes))]
pub fn append_word(number: u32, out: &mut Bytes) -> Result<(), NoMemory>
    ensures { OnOk result (out.new ≡ out.old ++ number_bytes 4 number) }
{
    let mut four = [0; 4];
    BigEndian::write_u32(&mut four, number);
    out.append(&four)
}

/// Adds a partition and its number at the end, in one piece: 1 byte and 8.
#[tactic(auto, unfolding(crate::specs::Numbers::number_bytes))]
pub fn append_entry(partition: u8, number: u64, out: &mut Bytes) -> Result<(), NoMemory>
    ensures { OnOk result (out.new ≡ out.old ++ partition ∷ number_bytes 8 number) }
{
    let [a, b, c, d, e, f, g, h] = number.to_be_bytes();
    out.append(&[partition, a, b, c, d, e, f, g, h])
}

/// Adds a partition, its flag and its number at the end, in one piece: 1 byte, 1 and 8.
#[tactic(auto, unfolding(crate::specs::Numbers::number_bytes))]
pub fn append_part(partition: u8, flag: u8, number: u64, out: &mut Bytes) -> Result<(), NoMemory>
    ensures { OnOk result (out.new ≡ out.old ++ partition ∷ flag ∷ number_bytes 8 number) }
{
    let [a, b, c, d, e, f, g, h] = number.to_be_bytes();
    out.append(&[partition, flag, a, b, c, d, e, f, g, h])
}
