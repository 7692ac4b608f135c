//! How a slot stands before a read or a commit.

use ftc_base::WorkerId;

/// What a slot's next read or commit has to do with.
#[derive(Clone, Copy, Debug)]
pub(crate) enum Turn {
    /// The slot runs nothing.
    Idle,
    /// What it runs was wounded by this worker.
    Wounded { by: WorkerId },
    /// What it runs isn't wounded, and has this age.
    Unwounded { age: u64 },
}
