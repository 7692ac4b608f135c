//! Nets of IPv4 (RFC 791).

ghost use Rattle.std.specs.Prelude.{◌≡◌};

/// A net: the addresses whose first `length` bits, of 32, are those of `base`. In a net that is read
/// from a text the length is at most 32, and the other bits of `base` are 0.
#[derive(Clone, Copy, Debug, PartialEq, Eq)]
pub struct Net {
    pub base: u32,
    pub length: u8,
}

impl Net {
    ghost use Rattle.ftc_base.specs.Endpoint.{contains};

    /// Whether the address is in the net.
    pub fn contains(&self, address: u32) -> bool
        ensures { result ≡ contains self.now address }
    {
        let size = 1u64 << (32u8.saturating_sub(self.length));
        u64::from(address) / size == u64::from(self.base) / size
    }
}
