//! The ring of servers and its replication groups: group j is server j and the f servers after it.
#![tactic(auto)]

mod distance;
mod laws;
mod live;
mod membership;
mod recovery;
mod ring;

pub use distance::{apart, next_of, server_of};
pub use laws::{admissible, distances, ends, groups, origins, recoveries, steps, the_live};
pub use ring::Ring;

#[cfg(test)]
mod tests;
