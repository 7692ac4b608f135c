//! The servers of a chain and the links between them, and what each event of the protocol does to them.
#![tactic(auto)]

mod applying;
mod beginning;
mod carrying;
mod committing;
mod crashing;
mod entering;
mod laws;
mod leaving;
mod making;
mod network;
mod opening;
mod places;
mod pulling;
mod reading;
mod recovering;
mod releasing;
mod reviving;
mod taking;
mod visiting;

pub use laws::{what_runs_may_be_visited, what_slots_ask};
pub use network::Network;

#[cfg(test)]
mod tests;
