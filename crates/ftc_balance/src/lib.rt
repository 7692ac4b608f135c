//! A load balancer: clients of one address and port are spread over backends, each client to one.
#![tactic(auto)]

mod balance;
mod rule;

pub use balance::ask;
pub use rule::{Backends, BalanceRule};

#[cfg(test)]
mod tests;
