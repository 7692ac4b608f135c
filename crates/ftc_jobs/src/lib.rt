//! What the servers of a chain may do next, and in which order it is done where nobody chooses.
#![tactic(auto)]

mod all;
mod applies;
mod beside;
mod first;
mod legal;
mod lines;
mod links;
mod places;
mod quiet;
mod tasks;
mod works;

pub use all::{Jobs, all_jobs};
pub use beside::{free_visit, other_job};
pub use first::first_job;
pub use legal::is_legal;
pub use links::oldest_at;

#[cfg(test)]
mod tests;
