//! A chain driven by one thread: a schedule is played, and what is left is done in order.
#![tactic(auto)]

mod finishing;
mod playing;
mod quitting;

pub use finishing::finish;
pub use playing::{play, run};
pub use quitting::quit_all;

#[cfg(test)]
mod tests;
