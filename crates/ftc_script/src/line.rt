//! The lines of a script.

ghost use Rattle.std.specs.Prelude.{◌≡◌};
ghost use Rattle.ftc_script.specs.Steps.{at_of};

use ftc_base::{PacketNo, ServerId};

/// What happens to a server when so many packets have entered.
#[derive(Clone, Copy, Debug, PartialEq, Eq)]
pub enum ScriptLine {
    /// The server stops.
    Crash { at: PacketNo, server: ServerId },
    /// The server is replaced.
    Recover { at: PacketNo, server: ServerId },
}

impl ScriptLine {
    /// How many packets have entered then.
    pub fn at(&self) -> PacketNo
        ensures { result ≡ at_of self.now }
    {
        match self {
            ScriptLine::Crash { at, .. } | ScriptLine::Recover { at, .. } => *at,
        }
    }
}

/// A link, named by the server that it leaves, loses the message of that origin. The line is its number
/// in the text, from 1.
#[derive(Clone, Copy, Debug, PartialEq, Eq)]
pub struct LoseLine {
    pub line: u32,
    pub link: ServerId,
    pub origin: PacketNo,
}
