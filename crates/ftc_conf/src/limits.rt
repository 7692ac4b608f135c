//! Bounds of the numbers in a chain text. Each is the greatest number that is accepted.

ghost use Rattle.std.specs.Prelude.{◌≡◌};

use ftc_base::limits::MOST_SERVERS;

/// The number of the line `f F`: how many servers of a chain may be down at once.
pub const MOST_FAILURES: u8 = MOST_SERVERS - 1;

/// A port of TCP or UDP.
pub const MOST_PORT: u32 = 65_535;

/// The bounds, as numbers.
pub fn law_of_limits()
    ensures failures { MOST_FAILURES ≡ 15 }
    ensures port { MOST_PORT ≡ 65535 }
{}
