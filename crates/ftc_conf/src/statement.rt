//! What a line may say.

use ftc_firewall::FireLine;
use ftc_mbox::Rule;

/// The form of a line of the middleboxes, which its first word tells.
#[derive(Clone, Copy)]
pub enum Form {
    Pass,
    Monitor,
    Nat,
    Firewall,
    /// `allow` or `deny`.
    FireLine { allow: bool },
    Balance,
    Spare,
}

/// What a line says.
#[derive(Drop)]
pub enum Statement {
    /// Nothing: it is a comment, or it has no words.
    Nothing,
    /// How many servers may be down at once.
    Failures(u8),
    /// In how many partitions the keys of a middlebox lie.
    Partitions(u8),
    /// A middlebox other than a firewall.
    Middlebox(Rule),
    /// A firewall, whose lines follow.
    Firewall,
    /// A line of the firewall.
    FireLine(FireLine),
    /// A server that only replicates.
    Spare,
}
