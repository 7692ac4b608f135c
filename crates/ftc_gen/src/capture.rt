//! A generated capture.

ghost use Rattle.std.specs.Prelude.{◌≡◌, IfOk};
ghost use Rattle.ftc_gen.specs.Capture.{generated};

use crate::packet::record_of;
use ftc_base::{Bytes, NoMemory};
use std::alloc::Global;

/// The header of a little-endian capture of Ethernet, version 2.4, with stamps in microseconds.
const HEADER: [u8; 24] = [
    0xd4, 0xc3, 0xb2, 0xa1, 2, 0, 4, 0, 0, 0, 0, 0, 0, 0, 0, 0, 0xff, 0xff, 0, 0, 1, 0, 0, 0,
];

/// The bytes of a capture of so many packets, each a second after the one before. Which hosts they come
/// from depends on the seed.
pub fn generate(alloc: Global, count: u32, seed: u32) -> Result<Bytes, NoMemory>
    ensures { IfOk result (λ capture. capture ≡ generated count seed) }
{
    let mut capture = Bytes::new(alloc);
    capture.append(&HEADER)?;
    for place in 0..count {
        capture.append(&record_of(seed, place))?;
    }
    Ok(capture)
}
