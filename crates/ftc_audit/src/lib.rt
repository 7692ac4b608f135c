//! What an operator reads from a run: which outside port a translator gave an inside endpoint, and from how many
//! endpoints the released packets come.
#![tactic(auto)]

mod captured;
mod cause;
mod endpoint;
mod laws;
mod line;
mod table;
mod tap;
mod text;

pub use cause::PortsCause;
pub use endpoint::Endpoint;
pub use laws::{backends_stay, one_table, packets_stay_bytes, ports_are_apart};
pub use line::{ClientLine, PortLine, PortLines};
pub use table::ports;
pub use tap::AuditTap;
pub use text::ports_text;

#[cfg(test)]
mod tests;
