//! How a server gets what it lacks from another: the whole replica of a group, or the logs that the
//! other still keeps.
#![tactic(auto)]

mod fetching;
mod laws;
mod pulling;

pub use fetching::fetch_one;
pub use laws::in_turn;
pub use pulling::pull_one;

#[cfg(test)]
mod tests;
