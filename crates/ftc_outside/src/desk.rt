//! Files by name, and a count of faults.

ghost use Rattle.std.specs.Prelude.{◌≡◌, ◌≢◌, ◌≤◌, ◌++◌, [], List, ℕ, Option, Some, None, IfOk, OnOk, OnErr, IsErrOf};
ghost use Rattle.std.specs.Prelude.{codes};
ghost use Rattle.ftc_outside.specs.declared.desk.DeskError.TheVariants as error;
ghost use Rattle.ftc_outside.specs.Desk.{SameFiles, SameButAt, EmptiedAt, GrewAt, MayHaveEmptiedAt, MayHaveGrownAt};
ghost use Rattle.ftc_outside.specs.Desk.{HasServed};

use ftc_base::{Bytes, NoMemory};
use std::alloc::{AllocError, AllocFailed, Global};
use thiserror::Error;

/// Why a call on a desk was refused.
#[derive(Clone, Copy, Debug, PartialEq, Eq, Error)]
pub enum DeskError {
    /// The desk's own fault, which its count tells.
    #[error("the desk failed")]
    Failed,
    /// Memory was refused.
    #[error("out of memory")]
    NoMemory,
}

impl From<NoMemory> for DeskError {
    ghost from_gives = { λ _ found. found ≡ error.NoMemory };

    fn from(_error: NoMemory) -> DeskError {
        DeskError::NoMemory
    }
}

impl From<AllocError> for DeskError {
    ghost from_gives = { λ _ found. found ≡ error.NoMemory };

    fn from(_error: AllocError) -> DeskError {
        DeskError::NoMemory
    }
}

impl<T: Drop> From<AllocFailed<T>> for DeskError {
    ghost from_gives = { λ _ found. found ≡ error.NoMemory };

    fn from(_error: AllocFailed<T>) -> DeskError {
        DeskError::NoMemory
    }
}

/// Files by name. The name `-` is standard output, which needs no `make`.
///
/// A desk counts its own faults. A desk that tells its files says by them what each call does.
pub trait Desk {
    /// Whether it tells its files.
    ghost tells: { Self → Type 0 };

    /// The bytes of the file of that name, if there is one.
    ghost file: { Self → List ℕ → Option (List ℕ) };

    /// How often a call has failed. The count never falls.
    ghost faults: { Self → ℕ };

    /// Whether a call fails only where there is no such file.
    ghost sound: { Self → Type 0 };

    /// The bytes of the file.
    fn fetch(&mut self, alloc: Global, name: &str) -> Result<Bytes, DeskError>
        ensures bytes { tells self.old → IfOk result (λ bytes. file self.old name.now ≡ Some bytes) }
        ensures files { tells self.old → SameFiles (file self.old) (file self.new) }
        ensures served { HasServed tells sound faults (IsErrOf result DeskError.Failed) self.old self.new }
        ensures absent { sound self.old → IsErrOf result DeskError.Failed → file self.old name.now ≡ None };

    /// Leaves an empty file of that name.
    fn make(&mut self, alloc: Global, name: &str) -> Result<(), DeskError>
        ensures made { tells self.old → OnOk result (EmptiedAt name.now (file self.new)) }
        ensures refused { tells self.old → OnErr result (MayHaveEmptiedAt name.now (file self.old) (file self.new)) }
        ensures others { tells self.old → SameButAt name.now (file self.old) (file self.new) }
        ensures served { HasServed tells sound faults (IsErrOf result DeskError.Failed) self.old self.new }
        ensures absent { sound self.old → IsErrOf result DeskError.Failed → ⊥ };

    /// Adds the bytes at the file's end.
    fn append(&mut self, alloc: Global, name: &str, bytes: &[u8]) -> Result<(), DeskError>
        ensures grown { tells self.old → OnOk result (GrewAt name.now bytes.now (file self.old) (file self.new)) }
        ensures refused { tells self.old →
            OnErr result (MayHaveGrownAt name.now bytes.now (file self.old) (file self.new)) }
        ensures others { tells self.old → SameButAt name.now (file self.old) (file self.new) }
        ensures served { HasServed tells sound faults (IsErrOf result DeskError.Failed) self.old self.new }
        ensures absent { sound self.old → IsErrOf result DeskError.Failed → (file self.old name.now ≡ None)
            × (name.now ≢ codes "-") };
}
