//! The two ends of the chain: the buffer behind the last server, which withholds packets until what
//! they need is known at the tails, and the forwarder in front of the first, which takes logs on that
//! come round the ring.
#![tactic(auto)]

mod buffer;
mod forwarder;
mod held;
mod known;
mod lack;
mod laws;
mod looking;
mod stretch;

pub use buffer::{Buffer, Freed, Withheld};
pub use forwarder::{Forwarder, propagating};
pub use laws::{due_packets, released_packets};

#[cfg(test)]
mod tests;
