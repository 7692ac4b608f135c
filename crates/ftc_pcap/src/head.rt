//! What stands before the captured bytes of a record.

ghost use Rattle.std.specs.Prelude.{◌≡◌, ◌≤◌, ◌+◌, ◌++◌, length, OnOk};
ghost use Rattle.ftc_pcap.specs.Grammar.{number_bytes, head_bytes, captured_length};

use crate::number::{append_number, number_of};
use ftc_base::{Bytes, NoMemory};

/// How many bytes a head has.
pub const HEAD_BYTES: usize = 16;

/// The numbers of a head: the two of the stamp, and the captured and the original length.
#[derive(Clone, Copy)]
pub struct Head {
    pub seconds: u32,
    pub fraction: u32,
    pub captured: u32,
    pub original: u32,
}

/// The number at the front, and the bytes after it.
fn split_number(big: bool, bytes: &[u8]) -> (u32, &[u8])
    requires { 4 ≤ length bytes.now }
    ensures parts { bytes.now ≡ number_bytes big result.0 ++ result.1.now }
    ensures shorter { length bytes.now ≡ length result.1.now + 4 }
{
    let (front, rest) = bytes.split_at(4);
    (number_of(big, front), rest)
}

/// The head at the front, and the bytes after it.
pub fn split_head(big: bool, bytes: &[u8]) -> (Head, &[u8])
    requires { HEAD_BYTES ≤ length bytes.now }
    ensures parts { bytes.now ≡ head_bytes big result.0.seconds result.0.fraction result.0.captured result.0.original
        ++ result.1.now }
    ensures captured { result.0.captured ≡ captured_length big bytes.now }
    ensures shorter { length bytes.now ≡ length result.1.now + HEAD_BYTES }
{
    let (seconds, rest) = split_number(big, bytes);
    let (fraction, rest) = split_number(big, rest);
    let (captured, rest) = split_number(big, rest);
    let (original, rest) = split_number(big, rest);
    let head = Head {
        seconds,
        fraction,
        captured,
        original,
    };
    (head, rest)
}

/// Adds the head's bytes at the end.
pub fn append_head(big: bool, head: Head, out: &mut Bytes) -> Result<(), NoMemory>
    ensures { OnOk result (out.new ≡ out.old ++ head_bytes big head.seconds head.fraction head.captured head.original) }
{
    append_number(big, head.seconds, out)?;
    append_number(big, head.fraction, out)?;
    append_number(big, head.captured, out)?;
    append_number(big, head.original, out)
}
