//! The reader of chain texts.
#![tactic(auto)]

mod adding;
mod balance;
mod draft;
mod fault;
mod finish;
mod firewall;
mod forms;
mod laws;
pub mod limits;
mod lines;
mod nat;
mod plain;
mod ports;
mod reader;
mod statement;
mod values;
mod words;

pub use fault::{ChainCause, ChainFault};
pub use laws::{bounded, fits, unbounded, wider};
pub use plain::reads_back;
pub use reader::{read_chain, read_chain_within};

#[cfg(test)]
mod tests;
