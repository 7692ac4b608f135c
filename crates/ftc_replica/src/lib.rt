//! The replica that a member of a group has: the store of the group's middlebox, the vector of the
//! changes in it, and the logs that others may still lack.
#![tactic(auto)]

mod awaited;
mod coverage;
mod dropping;
mod kept;
mod laws;
mod replica;
mod waits;

pub use kept::Kept;
pub use laws::covering;
pub use replica::Replica;
pub use waits::{Wait, Waits};

#[cfg(test)]
mod tests;
