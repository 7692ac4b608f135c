//! What the lines so far say.

use ftc_firewall::FirewallRule;
use ftc_mbox::Rules;

/// The number of the line `f F`, and where that line stands.
#[derive(Clone, Copy)]
pub struct Failures {
    pub number: u8,
    pub line: u64,
}

/// A chain of which some lines are read.
#[derive(Drop)]
pub struct Draft {
    pub failures: Option<Failures>,
    pub partitions: Option<u8>,
    /// The rules of the servers, but for a firewall whose lines may still follow.
    pub rules: Rules,
    /// That firewall.
    pub firewall: Option<FirewallRule>,
    /// How many of the servers are spare.
    pub spares: u8,
}
