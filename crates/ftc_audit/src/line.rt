//! What the middleboxes of a run gave whom.

use ftc_base::Items;

/// A translator's outside port, and the inside endpoint that goes out by it.
#[derive(Clone, Copy, Debug, PartialEq, Eq)]
pub struct PortLine {
    pub outside: u16,
    pub protocol: u8,
    pub address: u32,
    pub port: u16,
}

/// Lines of a translator's port table.
pub type PortLines = Items<PortLine>;

/// A balancer's backend, by its address, and the client endpoint that is sent there.
#[derive(Clone, Copy, Debug, PartialEq, Eq)]
pub struct ClientLine {
    pub backend: u32,
    pub protocol: u8,
    pub address: u32,
    pub port: u16,
}
