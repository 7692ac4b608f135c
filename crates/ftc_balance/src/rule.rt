//! The rule of a balancer.

use ftc_base::Items;

/// The addresses of servers that share the load.
pub type Backends = Items<u32>;

/// Flows to `address` and `port` go to the backends in turn, at the same port.
#[derive(Debug, Drop)]
pub struct BalanceRule {
    pub address: u32,
    pub port: u16,
    pub backends: Backends,
}
