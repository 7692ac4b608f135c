//! The rule of a firewall.

use ftc_base::{Items, Net};

/// A line: whether it allows or denies the flows of a protocol (None: of TCP and UDP) from one net to
/// another, whose destination port is from `low` to `high`.
#[derive(Clone, Copy, Debug, PartialEq, Eq)]
pub struct FireLine {
    pub allow: bool,
    pub protocol: Option<u8>,
    pub source: Net,
    pub destination: Net,
    pub low: u16,
    pub high: u16,
}

/// Lines in order.
pub type FireLines = Items<FireLine>;

/// The first line that matches a flow decides, and a flow that no line matches is denied.
#[derive(Debug, Drop)]
pub struct FirewallRule {
    pub lines: FireLines,
}
