//! Limits of a beats text.

ghost use Rattle.std.specs.Prelude.{◌≡◌};

/// Ticks of a beats text.
pub const MOST_BEATS: usize = 1_000;

/// The limits, as numbers.
pub fn law_of_limits()
    ensures { MOST_BEATS ≡ 1000 }
{}
