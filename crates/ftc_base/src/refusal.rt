//! Why a call was refused.

ghost use Rattle.std.specs.Prelude.{◌≡◌};
ghost use Rattle.ftc_base.specs.declared.refusal.Refuse.TheVariants as refuse;

use std::alloc::{AllocError, AllocFailed};
use thiserror::Error;

/// Memory was refused.
#[derive(Clone, Copy, Debug, PartialEq, Eq, Error)]
#[error("out of memory")]
pub struct NoMemory;

/// A text or a value was outside its form, or memory was refused.
#[derive(Clone, Copy, Debug, PartialEq, Eq)]
pub enum Refuse<F> {
    /// What is wrong.
    Bad(F),
    /// Memory was refused.
    NoMemory,
}

impl From<AllocError> for NoMemory {
    fn from(_error: AllocError) -> NoMemory {
        NoMemory
    }
}

impl<T: Drop> From<AllocFailed<T>> for NoMemory {
    fn from(_error: AllocFailed<T>) -> NoMemory {
        NoMemory
    }
}

impl<F> From<NoMemory> for Refuse<F> {
    ghost from_gives = { λ _ refused. refused ≡ refuse.NoMemory };

    fn from(_error: NoMemory) -> Refuse<F> {
        Refuse::NoMemory
    }
}
