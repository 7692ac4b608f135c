//! What a line may say.

use ftc_base::PacketNo;

/// What a line says, before it is tested whether the ring has the server or the link.
#[derive(Clone, Copy)]
pub enum Statement {
    /// Nothing: it is a comment, or it has no words.
    Nothing,
    /// `at P crash K`.
    Crash { at: PacketNo, server: u32 },
    /// `at P recover K`.
    Recover { at: PacketNo, server: u32 },
    /// `lose L P`.
    Lose { link: u32, origin: PacketNo },
}
