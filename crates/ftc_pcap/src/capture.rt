//! What a capture is, and what is wrong with a text that is none.

use crate::packets::Packets;
use thiserror::Error;

/// A capture file.
#[derive(Drop)]
pub struct Capture {
    /// The file's first 24 bytes: magic, version, zone, sigfigs, snaplen and link type.
    pub header: [u8; 24],
    /// Whether the file's numbers are big-endian.
    pub big: bool,
    /// The packets, in file order.
    pub packets: Packets,
}

/// What is wrong with a text that is no capture.
#[derive(Clone, Copy, Debug, PartialEq, Eq, Error)]
pub enum CaptureCause {
    #[error("not a capture")]
    NotCapture = 1,
    #[error("not version 2.4")]
    Version = 2,
    #[error("the link type is not Ethernet")]
    LinkType = 3,
    #[error("more captured bytes than a record may have")]
    RecordTooLong = 4,
    #[error("the file ends too early")]
    Cut = 5,
    #[error("more records than a capture may have")]
    TooMany = 6,
    #[error("more bytes than a capture may have")]
    TooBig = 7,
}

/// The first fault of a text, and the byte at which the header or the record with it begins.
#[derive(Clone, Copy, Debug, PartialEq, Eq)]
pub struct CaptureFault {
    pub at: u64,
    pub cause: CaptureCause,
}
