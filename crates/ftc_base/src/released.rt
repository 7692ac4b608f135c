//! Released packets.

use crate::bytes::Bytes;
use crate::ids::PacketNo;
use crate::items::Items;

/// A packet that left the chain, with the bytes that it then had.
#[derive(Debug, Drop)]
pub struct Released {
    pub packet: PacketNo,
    pub bytes: Bytes,
}

/// Released packets, in the order of their release.
pub type ReleasedList = Items<Released>;
