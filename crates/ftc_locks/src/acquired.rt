//! The answer to a request for a partition.

use ftc_base::{WorkerId, WorkerSet};

/// What comes of a request for a partition.
#[derive(Clone, Copy, Debug, PartialEq, Eq)]
pub enum Acquired {
    /// The worker holds the partition. The wounded were in its way and lost all that they held.
    Granted { wounded: WorkerSet },
    /// This worker is in its way, and older.
    Blocked { holder: WorkerId },
}
