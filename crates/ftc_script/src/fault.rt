//! Why a script is refused.

ghost use Rattle.std.specs.Prelude.{◌≡◌};
ghost use Rattle.ftc_base.specs.declared.refusal.Refuse.TheVariants as refuse;
ghost use Rattle.ftc_script.specs.Codes.{code_of};

use ftc_base::{Refuse, ServerId};
use thiserror::Error;

/// What is wrong with a line. Within a line the causes are tested in this order: Word, Link, Past,
/// Order, NotUp or NotDown, GroupGone. LeftDown is tested behind the last line, and TooLong before the
/// first.
#[derive(Clone, Copy, Debug, PartialEq, Eq, Error)]
pub enum ScriptCause {
    #[error("the line has none of the forms")]
    Word,
    #[error("an earlier number than on the line before")]
    Order,
    #[error("a number behind all packets")]
    Past,
    #[error("a crash of a server that is down")]
    NotUp,
    #[error("a recovery of a server that is up")]
    NotDown,
    /// The smallest group of which no member is left.
    #[error("a group without a live server")]
    GroupGone { group: ServerId },
    /// The smallest server that stays down.
    #[error("a server that stays down")]
    LeftDown { server: ServerId },
    #[error("a link or a server that the ring doesn't have")]
    Link,
    #[error("a script that is too long")]
    TooLong,
}

impl ScriptCause {
    /// Its number.
    pub fn code(&self) -> u8
        ensures { result ≡ code_of self.now }
    {
        match self {
            ScriptCause::Word => 1,
            ScriptCause::Order => 2,
            ScriptCause::Past => 3,
            ScriptCause::NotUp => 4,
            ScriptCause::NotDown => 5,
            ScriptCause::GroupGone { .. } => 6,
            ScriptCause::LeftDown { .. } => 7,
            ScriptCause::Link => 8,
            ScriptCause::TooLong => 9,
        }
    }
}

/// The first line that is wrong, from 1, and why. A server that stays down is wrong at the line behind
/// the last one.
#[derive(Clone, Copy, Debug, PartialEq, Eq)]
pub struct ScriptFault {
    pub line: u32,
    pub cause: ScriptCause,
}

impl From<ScriptCause> for Refuse<ScriptCause> {
    ghost from_gives = { λ cause refused. refused ≡ refuse.Bad cause };

    fn from(cause: ScriptCause) -> Refuse<ScriptCause> {
        Refuse::Bad(cause)
    }
}
