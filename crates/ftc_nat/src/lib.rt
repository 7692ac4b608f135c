//! Network address translation: inside endpoints share one outside address.
#![tactic(auto)]

mod keys;
mod nat;
mod rule;

pub use nat::ask;
pub use rule::NatRule;

#[cfg(test)]
mod tests;
