//! The lock table of a server's partitions: who holds what, and who gives way to whom.
#![tactic(auto)]

mod acquired;
mod table;

pub use acquired::Acquired;
pub use table::LockTable;

#[cfg(test)]
mod tests;
