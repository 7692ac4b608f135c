//! One server of a chain: the head of its own group, its replicas of the groups before it, what it knows
//! of the tails, the messages that it holds, and, at the two ends of the chain, buffer and forwarder.
#![tactic(auto)]

mod answers;
mod applying;
mod committing;
mod held;
mod laws;
mod looking;
mod noting;
mod numbering;
mod opening;
mod passing;
mod reading;
mod recovering;
mod replicas;
mod server;
mod standing;
mod taking;
mod tickets;
mod visited;
mod waiting;
mod waking;
mod watching;
mod work;

pub use answers::CommitAnswer;
pub use ftc_txn::ReadAnswer;
pub use held::{HeldMessage, HeldMessages};
pub use laws::rising;
pub use recovering::{GroupReplica, GroupReplicas};
pub use replicas::is_had;
pub use server::Server;
pub use work::Work;

#[cfg(test)]
mod tests;
