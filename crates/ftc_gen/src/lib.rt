//! Captures that are made from two numbers: how many packets, and a seed.
#![tactic(auto)]

mod capture;
mod laws;
mod packet;

pub use capture::generate;
pub use laws::is_a_capture;

#[cfg(test)]
mod tests;
