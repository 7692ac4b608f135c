//! Vectors of partition numbers: which log may be applied, which log a replica has, and what the
//! tails of the groups are known to have.
#![tactic(auto)]

mod advance;
mod commits;
mod group_vectors;
mod laws;
mod marks;
mod order;
mod vector;

pub use advance::{bump, numbers_at};
pub use commits::Commits;
pub use group_vectors::GroupVectors;
pub use laws::{applying, covering, groups, merging, numbers, order_tests};
pub use marks::{Marks, need_of};
pub use order::{covers, ready};
pub use vector::{Vector, merge};

#[cfg(test)]
mod tests;
