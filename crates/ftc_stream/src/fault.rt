//! Why a put was refused.

ghost use Rattle.std.specs.Prelude.{◌≡◌};
ghost use Rattle.ftc_stream.specs.Faults.{fault_of};
ghost use Rattle.ftc_stream.specs.declared.fault.PutFault.TheVariants as fault;

use ftc_base::NoMemory;
use ftc_outside::DeskError;
use thiserror::Error;

/// Why a put was refused.
#[derive(Clone, Copy, Debug, PartialEq, Eq, Error)]
pub enum PutFault {
    /// The desk's fault.
    #[error("the desk failed")]
    Failed,
    /// Memory was refused.
    #[error("out of memory")]
    NoMemory,
}

impl From<NoMemory> for PutFault {
    ghost from_gives = { λ _ ending. ending ≡ fault.NoMemory };

    fn from(_error: NoMemory) -> PutFault {
        PutFault::NoMemory
    }
}

impl From<DeskError> for PutFault {
    ghost from_gives = { λ error ending. ending ≡ fault_of error };

    fn from(error: DeskError) -> PutFault {
        match error {
            DeskError::Failed => PutFault::Failed,
            DeskError::NoMemory => PutFault::NoMemory,
        }
    }
}
