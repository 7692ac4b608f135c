//! Limits of a journal's text.

ghost use Rattle.std.specs.Prelude.{◌≡◌};

/// Servers, groups and links of a text of version 1 are below this number.
pub const FIRST_SERVERS: u8 = 8;

/// The limits, as numbers.
pub fn law_of_limits()
    ensures { FIRST_SERVERS ≡ 8 }
{}
