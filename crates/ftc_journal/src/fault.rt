//! Why a journal's text is refused.

ghost use Rattle.std.specs.Prelude.{◌≡◌};
ghost use Rattle.ftc_base.specs.declared.refusal.Refuse.TheVariants as refuse;

use ftc_base::Refuse;
use thiserror::Error;

/// What is wrong with a line. Within a line Cut is tested first, then all its words, and then the bounds
/// of its numbers.
#[derive(Clone, Copy, Debug, PartialEq, Eq, Error)]
pub enum JournalCause {
    #[error("the first line is no header")]
    Header = 1,
    #[error("a line that has none of the forms")]
    Word = 2,
    #[error("a number out of its bounds")]
    Range = 3,
    #[error("a last line without a line feed")]
    Cut = 4,
}

/// The first line that is wrong, from 1, and why.
#[derive(Clone, Copy, Debug, PartialEq, Eq)]
pub struct JournalFault {
    pub line: u64,
    pub cause: JournalCause,
}

impl From<JournalCause> for Refuse<JournalCause> {
    ghost from_gives = { λ cause refused. refused ≡ refuse.Bad cause };

    fn from(cause: JournalCause) -> Refuse<JournalCause> {
        Refuse::Bad(cause)
    }
}
