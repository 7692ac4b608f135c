//! The rule of a translator.

use ftc_base::Net;

/// Endpoints of the net `inside` are seen from outside at the address `outside`, which is not in that
/// net, each at a port of its own from `first` to `last`.
#[derive(Clone, Copy, Debug, PartialEq, Eq)]
pub struct NatRule {
    pub inside: Net,
    pub outside: u32,
    pub first: u16,
    pub last: u16,
}
