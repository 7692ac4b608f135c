//! What is wrong with bytes that are no frame.

ghost use Rattle.std.specs.Prelude.{◌≡◌};
ghost use Rattle.ftc_base.specs.declared.refusal.Refuse.TheVariants as refuse;

use ftc_base::Refuse;
use thiserror::Error;

/// What is wrong with a field of a frame.
#[derive(Clone, Copy, Debug, PartialEq, Eq, Error)]
pub enum FrameCause {
    #[error("not a frame")]
    Magic = 1,
    #[error("the frame ends too early")]
    Cut = 2,
    #[error("a group, partition, key or log that does not rise")]
    Order = 3,
    #[error("a number out of its bounds")]
    Range = 4,
    #[error("bytes behind the end")]
    Trailing = 5,
}

/// The first fault of a frame, and the byte at which the field with it begins.
#[derive(Clone, Copy, Debug, PartialEq, Eq)]
pub struct FrameFault {
    pub at: u64,
    pub cause: FrameCause,
}

/// The first fault of a part of a frame, and how many bytes are left from the field with it on.
#[derive(Clone, Copy, Debug, PartialEq, Eq)]
pub struct FieldFault {
    pub left: usize,
    pub cause: FrameCause,
}

impl From<FieldFault> for Refuse<FieldFault> {
    ghost from_gives = { λ fault refused. refused ≡ refuse.Bad fault };

    fn from(fault: FieldFault) -> Refuse<FieldFault> {
        Refuse::Bad(fault)
    }
}
