//! The report of a run: what became of each packet, what the middleboxes have, and what the taps say. And the
//! bytes of the packets that came out.
#![tactic(auto)]

mod counts;
mod fates;
mod laws;
mod over;
mod printer;
mod released;
mod stores;
mod summaries;
mod taps;

pub use laws::released_fit;
pub use over::{chain_after, report};
pub use printer::print;
pub use released::out_of;
pub use summaries::summary;

#[cfg(test)]
mod tests;
