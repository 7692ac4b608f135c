//! One's complement sums of words of 16 bits, which the checksums of IPv4, TCP and UDP are made of.

ghost use Rattle.std.specs.Prelude.{◌≡◌, ◌+◌, sum};
ghost use Rattle.ftc_packet.specs.Sum.{ones_complement, updated_checksum, words};

/// The sum of words that hold a right checksum: zero in one's complement.
pub(crate) const RIGHT: u16 = 0xffff;

/// The sum of two words: a carry out is added at the low end.
#[tactic(auto, unfolding(crate::specs::Sum::ones_complement))]
pub(crate) fn add(left: u16, right: u16) -> u16
    ensures { result ≡ ones_complement (left + right) }
{
    let (sum, carry) = left.overflowing_add(right);
    sum + u16::from(carry)
}

/// The sum of `start` and the big-endian words of `bytes`. A zero byte pads an odd last byte.
pub(crate) fn add_words(start: u16, bytes: &[u8]) -> u16
    ensures { result ≡ ones_complement (start + sum (words bytes.now)) }
{
    let mut sum = start;
    let mut rest = bytes;
    while let [high, low, after @ ..] = rest {
        sum = add(sum, u16::from_be_bytes([*high, *low]));
        rest = after;
    }
    match rest {
        [high] => add(sum, u16::from_be_bytes([*high, 0])),
        _ => sum,
    }
}

/// The checksum once a word under it has changed, by equation 3 of RFC 1624. A word that stays
/// leaves the checksum as it was.
#[tactic(auto, unfolding(crate::specs::Sum::updated_checksum))]
pub(crate) fn updated(checksum: u16, before: u16, after: u16) -> u16
    ensures { result ≡ updated_checksum checksum before after }
{
    if before == after {
        checksum
    } else {
        !add(add(!checksum, !before), after)
    }
}
