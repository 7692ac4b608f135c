//! The serial chain: the same middleboxes, one visit at a time, with nothing replicated. What the
//! replicated chain does is judged by it.
#![tactic(auto)]

mod advance;
mod laws;
mod opening;
mod position;
mod serial;
mod step;
mod visit;

pub use laws::{removal, removal_from_history, what_is_taken_in_turn, what_it_reads};
pub use opening::empty_stores;
pub use position::Place;
pub use serial::{BadStep, NotWaiting, Serial};
pub use step::{Step, Trace};
pub use visit::{Told, take};

#[cfg(test)]
mod tests;
