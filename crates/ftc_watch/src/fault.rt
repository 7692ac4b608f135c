//! Why a beats text is refused.

ghost use Rattle.std.specs.Prelude.{◌≡◌};
ghost use Rattle.ftc_base.specs.declared.refusal.Refuse.TheVariants as refuse;

use ftc_base::Refuse;
use thiserror::Error;

/// What is wrong with a line. Within a line the causes are tested in this order: TooMany, Word, Range,
/// Past, Order. The first line is tested for Header alone.
#[derive(Clone, Copy, Debug, PartialEq, Eq, Error)]
pub enum BeatsCause {
    #[error("the first line is no header")]
    Header = 1,
    #[error("a line that isn't of the form")]
    Word = 2,
    #[error("numbers that don't rise")]
    Order = 3,
    #[error("a number behind all packets")]
    Past = 4,
    #[error("a server that the ring doesn't have")]
    Range = 5,
    #[error("too many lines")]
    TooMany = 6,
}

/// The first line that is wrong, from 1, and why.
#[derive(Clone, Copy, Debug, PartialEq, Eq)]
pub struct BeatsFault {
    pub line: u32,
    pub cause: BeatsCause,
}

impl From<BeatsCause> for Refuse<BeatsCause> {
    ghost from_gives = { λ cause refused. refused ≡ refuse.Bad cause };

    fn from(cause: BeatsCause) -> Refuse<BeatsCause> {
        Refuse::Bad(cause)
    }
}
