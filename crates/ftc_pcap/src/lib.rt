//! Captures in libpcap's classic form: reading and writing, in either byte order, with stamps in
//! microseconds or in nanoseconds.
#![tactic(auto)]

mod capture;
mod head;
mod header;
mod laws;
mod number;
mod packets;
mod reading;
mod writing;

pub use capture::{Capture, CaptureCause, CaptureFault};
pub use laws::{one_fault, one_number, one_reading, round_trip};
pub use packets::{Packet, Packets};
pub use reading::read_capture;
pub use writing::{write_header, write_packet};

#[cfg(test)]
mod tests;
