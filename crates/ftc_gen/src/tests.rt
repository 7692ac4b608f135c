//! The bytes of generated captures, as a hand would write them.

use crate::generate;
use std::process::Abort;
use std::test::Fail;

/// The first record of seed 0: second 0, from 10.0.0.1 to port 80.
const FIRST: [u8; 58] = [
    0, 0, 0, 0, 0, 0, 0, 0, 42, 0, 0, 0, 42, 0, 0, 0, 2, 0, 0, 0, 0, 1, 2, 0, 0, 0, 0, 2, 8, 0,
    0x45, 0, 0, 28, 0, 0, 0, 0, 64, 17, 0x46, 0x93, 10, 0, 0, 1, 198, 51, 100, 10, 0x13, 0x88, 0,
    80, 0, 8, 0xb7, 0xc7,
];

/// Compares what stands behind a header.
fn has_behind(rt: &impl Abort, capture: &[u8], wanted: &[u8]) {
    assert!(rt; capture.len() > 24);
    assert_eq!(rt; &capture[24..], wanted);
}

#[test]
fn one_packet(rt: HostRuntime) -> Result<(), Fail> {
    let capture = generate(rt.alloc(), 1, 0)?;
    assert_eq!(rt; capture.len(), 82);
    has_behind(&rt, capture.as_slice(), &FIRST);
    Ok(())
}
