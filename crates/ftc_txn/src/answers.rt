//! What reads and commits answer.

use ftc_base::{Value, WorkerId};
use ftc_message::Log;

/// What comes of a read.
#[derive(Clone, Copy, Debug, PartialEq, Eq)]
pub enum ReadAnswer {
    /// The store has this at the key, and the slot holds the key's partition.
    Value(Option<Value>),
    /// This older worker's transaction is in the way.
    Blocked { holder: WorkerId },
    /// This older worker's transaction took a partition, and the slot begins again.
    Wounded { by: WorkerId },
    /// The slot runs nothing.
    Idle,
    /// The rule doesn't ask for this key.
    NotAsked,
}

/// What comes of a commit.
#[derive(Debug, Drop)]
pub enum HeadCommit {
    /// The writes are made. The log is what the other members of the group need, where anything was read.
    Done(Option<Log>),
    /// This older worker's transaction took a partition, and the slot begins again.
    Wounded { by: WorkerId },
    /// The slot runs nothing.
    Idle,
    /// There was no memory for the writes, and nothing changed.
    NoMemory,
}
