//! What comes of a commit.

use ftc_base::{Key, WorkerId};

/// What comes of the commit of a visit.
#[derive(Clone, Copy, Debug, PartialEq, Eq)]
pub enum CommitAnswer {
    /// The visit is made.
    Done,
    /// This older worker's transaction took a partition, and the slot begins again.
    Wounded { by: WorkerId },
    /// The slot runs nothing.
    Idle,
    /// The rule asks for this key after the slot's answers.
    Unfinished { key: Key },
    /// There was no memory, and the server is as it was.
    NoMemory,
}
