//! The links between the servers: queues of frames that may lose messages.
#![tactic(auto)]

mod link;
mod queued;

pub use link::{Link, Sent};

#[cfg(test)]
mod tests;
