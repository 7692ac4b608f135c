//! Where two texts differ.

ghost use Rattle.std.specs.Prelude.{◌≡◌, ◌↔◌, IsNone, IfSome};
ghost use Rattle.ftc_check.specs.Difference.{IsFirstDifference};

/// The first place where the texts differ or one of them has ended, and None where they are the same.
pub fn first_difference(one: &[u8], other: &[u8]) -> Option<u64>
    ensures same { IsNone result ↔ (one.now ≡ other.now) }
    ensures first { IfSome result (IsFirstDifference one.now other.now) }
{
    let shared = one.len().min(other.len());
    for place in 0..shared {
        if one[place] != other[place] {
            return Some(place as u64);
        }
    }
    if one.len() == other.len() {
        None
    } else {
        Some(shared as u64)
    }
}
