//! Why there is no port table.

use thiserror::Error;

/// Why there is no port table.
#[derive(Clone, Copy, Debug, PartialEq, Eq, Error)]
pub enum PortsCause {
    /// The middlebox of that server is no translator, or there is no such server.
    #[error("not a nat")]
    NotNat,
    /// The steps are no run: the first that isn't legal, by its place from 0.
    #[error("step {place}")]
    BadStep { place: u64 },
}
