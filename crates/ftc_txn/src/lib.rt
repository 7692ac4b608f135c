//! Packet transactions of one server: reads under locks, and commits that make all writes at once.
#![tactic(auto)]

mod answers;
mod head;
mod laws;
mod logged;
mod slots;
mod touched;
mod transaction;
mod turn;

pub use answers::{HeadCommit, ReadAnswer};
pub use head::Head;
pub use laws::{foreseen_logs, holdings, logs, transactions};

#[cfg(test)]
mod tests;
