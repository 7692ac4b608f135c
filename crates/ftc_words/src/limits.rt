//! Limits of the numbers among the words that no other crate needs.

ghost use Rattle.std.specs.Prelude.{◌≡◌};

/// Ticks that a server may miss before it is fenced: the greatest limit that `watch` takes.
pub const MOST_MISSED: u32 = 255;

/// The limits, as numbers.
pub fn law_of_limits()
    ensures { MOST_MISSED ≡ 255 }
{}
