//! The store of a middlebox: a map from keys to values.
#![tactic(auto)]

mod pairs;
mod store;

pub use pairs::{Answers2, Pair};
pub use store::Store;

#[cfg(test)]
mod tests;
