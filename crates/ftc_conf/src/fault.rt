//! Why a chain text is refused.

ghost use Rattle.std.specs.Prelude.{◌≡◌};
ghost use Rattle.ftc_base.specs.declared.refusal.Refuse.TheVariants as refuse;

use ftc_base::Refuse;
use thiserror::Error;

/// What is wrong with a line. Within a line the causes are tested in this order: NotText; NoFailures,
/// NoPartitions or UnknownWord, by the first word; SpareOrder; TooManyServers, or TooManyItems for a
/// firewall's line; WordCount; and then those of the words, from left to right. Empty and Replicas are
/// tested behind the last line, in this order.
#[derive(Clone, Copy, Debug, PartialEq, Eq, Error)]
pub enum ChainCause {
    #[error("the line has a byte that is no text")]
    NotText = 1,
    #[error("the first line is not `f F`")]
    NoFailures = 2,
    #[error("the second line is not `partitions P`")]
    NoPartitions = 3,
    #[error("a word that is not known at its place")]
    UnknownWord = 4,
    #[error("too many words or too few")]
    WordCount = 5,
    #[error("not a number")]
    BadNumber = 6,
    #[error("neither an address nor a net")]
    BadAddress = 7,
    #[error("a number out of its bounds")]
    BadRange = 8,
    #[error("more servers than a chain can have")]
    TooManyServers = 9,
    #[error("too many firewall lines or backends")]
    TooManyItems = 10,
    #[error("too few servers for so many failures")]
    Replicas = 11,
    #[error("no middlebox")]
    Empty = 12,
    #[error("a middlebox behind a spare server")]
    SpareOrder = 13,
}

/// The first line that is wrong, from 1, and why. A line that is missing is one more than the count of
/// lines.
#[derive(Clone, Copy, Debug, PartialEq, Eq)]
pub struct ChainFault {
    pub line: u64,
    pub cause: ChainCause,
}

impl From<ChainCause> for Refuse<ChainCause> {
    ghost from_gives = { λ cause refused. refused ≡ refuse.Bad cause };

    fn from(cause: ChainCause) -> Refuse<ChainCause> {
        Refuse::Bad(cause)
    }
}
