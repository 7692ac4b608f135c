//! Messages between servers: the packet, the logs that ride with it, its needs and what is known of
//! the tails; and the frame of bytes that a message has on a link.
#![tactic(auto)]

mod bytes;
mod commits_bytes;
mod decoding;
mod encoding;
mod fault;
mod field;
mod laws;
mod log;
mod log_bytes;
mod logs;
mod logs_bytes;
mod message;
mod need;
mod need_bytes;
mod part_bytes;
mod parts;
mod rising;
mod seen;
mod writes;

pub use commits_bytes::{append_commits, commits_at};
pub use decoding::decode;
pub use encoding::encode;
pub use fault::{FieldFault, FrameCause, FrameFault};
pub use laws::{logs_in_order, needs_in_order, numbers, one_spelling, read_again, sameness};
pub use log::Log;
pub use log_bytes::{LogPlace, append_log, log_at};
pub use logs::{LogList, Logs};
pub use message::Message;
pub use need::{Need, Needs};
pub use need_bytes::{append_needs, needs_at};
pub use seen::Seen;

#[cfg(test)]
mod tests;
