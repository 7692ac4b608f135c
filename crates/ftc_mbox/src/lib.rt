//! The rules of a chain's middleboxes.
#![tactic(auto)]

mod asking;
mod change;
mod laws;
mod monitor;
mod plan;
mod rule;
mod spec;

pub use asking::ask;
pub use change::change_packet;
pub use laws::{law_of_turns, law_of_visits};
pub use plan::Plan;
pub use rule::{Rule, Rules, copy_rules};
pub use spec::ChainSpec;

#[cfg(test)]
mod tests;
