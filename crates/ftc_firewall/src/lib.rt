//! A stateful firewall: lines that allow or deny a connection's first packet.
#![tactic(auto)]

mod firewall;
mod rule;

pub use firewall::ask;
pub use rule::{FireLine, FireLines, FirewallRule};

#[cfg(test)]
mod tests;
