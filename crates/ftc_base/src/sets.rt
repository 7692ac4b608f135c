//! Sets of small numbers, in place.

ghost use Rattle.std.specs.Prelude.{◌≡◌, ◌<◌, ◌^◌, ℕ, ◌==◌, ◌||◌, ◌&&◌, not, false};
ghost use Rattle.ftc_base.specs.Sets.{has};

use crate::limits::MOST_MEMBERS;
use std::marker::Model;

/// A set of numbers below `MOST_MEMBERS`.
#[derive(Clone, Copy, Debug, PartialEq, Eq)]
struct NumberSet {
    /// Number n is a member where bit n is set.
    bits: u64,
}

impl Model for NumberSet {
    ghost use Rattle.std.specs.Prelude.{ℕ, ◌<◌, ◌^◌};

    ghost Value = { ℕ };

    ghost view = { λ set. set.bits };

    ghost invariant = { λ set. set.bits < 2 ^ 64 };

    ghost inverse = { λ bits. record { bits = bits } };
}

impl NumberSet {
    /// The set without a member.
    fn new() -> NumberSet
        ensures { (member : ℕ) → has result member ≡ false }
    {
        NumberSet { bits: 0 }
    }

    /// The set with that number.
    fn with(self, number: u8) -> NumberSet
        requires { number < MOST_MEMBERS }
        ensures { (member : ℕ) → has result member ≡ (member == number || has self member) }
    {
        NumberSet {
            bits: self.bits | (1 << number),
        }
    }

    /// The set without that number.
    fn without(self, number: u8) -> NumberSet
        requires { number < MOST_MEMBERS }
        ensures { (member : ℕ) → has result member ≡ (not (member == number) && has self member) }
    {
        NumberSet {
            bits: self.bits & !(1 << number),
        }
    }

    /// Whether the number is a member.
    fn has(self, number: u8) -> bool
        requires { number < MOST_MEMBERS }
        ensures { result ≡ has self number }
    {
        (self.bits >> number) & 1 == 1
    }
}

/// A set of servers.
#[derive(Clone, Copy, Debug, PartialEq, Eq)]
pub struct ServerSet {
    members: NumberSet,
}

impl Model for ServerSet {
    ghost use Rattle.std.specs.Prelude.{ℕ};

    ghost Value = { ℕ };

    ghost view = { λ set. set.members };

    ghost inverse = { λ members. record { members = members } };
}

impl ServerSet {
    /// The set without a member.
    pub fn new() -> ServerSet
        ensures { (member : ℕ) → has result member ≡ false }
    {
        ServerSet {
            members: NumberSet::new(),
        }
    }

    /// The set with that server.
    pub fn with(self, number: u8) -> ServerSet
        requires { number < MOST_MEMBERS }
        ensures { (member : ℕ) → has result member ≡ (member == number || has self member) }
    {
        ServerSet {
            members: self.members.with(number),
        }
    }

    /// The set without that server.
    pub fn without(self, number: u8) -> ServerSet
        requires { number < MOST_MEMBERS }
        ensures { (member : ℕ) → has result member ≡ (not (member == number) && has self member) }
    {
        ServerSet {
            members: self.members.without(number),
        }
    }

    /// Whether the server is a member.
    pub fn has(self, number: u8) -> bool
        requires { number < MOST_MEMBERS }
        ensures { result ≡ has self number }
    {
        self.members.has(number)
    }
}

/// A set of partitions.
#[derive(Clone, Copy, Debug, PartialEq, Eq)]
pub struct PartSet {
    members: NumberSet,
}

impl Model for PartSet {
    ghost use Rattle.std.specs.Prelude.{ℕ};

    ghost Value = { ℕ };

    ghost view = { λ set. set.members };

    ghost inverse = { λ members. record { members = members } };
}

impl PartSet {
    /// The set without a member.
    pub fn new() -> PartSet
        ensures { (member : ℕ) → has result member ≡ false }
    {
        PartSet {
            members: NumberSet::new(),
        }
    }

    /// The set with that partition.
    pub fn with(self, number: u8) -> PartSet
        requires { number < MOST_MEMBERS }
        ensures { (member : ℕ) → has result member ≡ (member == number || has self member) }
    {
        PartSet {
            members: self.members.with(number),
        }
    }

    /// The set without that partition.
    pub fn without(self, number: u8) -> PartSet
        requires { number < MOST_MEMBERS }
        ensures { (member : ℕ) → has result member ≡ (not (member == number) && has self member) }
    {
        PartSet {
            members: self.members.without(number),
        }
    }

    /// Whether the partition is a member.
    pub fn has(self, number: u8) -> bool
        requires { number < MOST_MEMBERS }
        ensures { result ≡ has self number }
    {
        self.members.has(number)
    }
}

/// A set of worker slots.
#[derive(Clone, Copy, Debug, PartialEq, Eq)]
pub struct WorkerSet {
    members: NumberSet,
}

impl Model for WorkerSet {
    ghost use Rattle.std.specs.Prelude.{ℕ};

    ghost Value = { ℕ };

    ghost view = { λ set. set.members };

    ghost inverse = { λ members. record { members = members } };
}

impl WorkerSet {
    /// The set without a member.
    pub fn new() -> WorkerSet
        ensures { (member : ℕ) → has result member ≡ false }
    {
        WorkerSet {
            members: NumberSet::new(),
        }
    }

    /// The set with that slot.
    pub fn with(self, number: u8) -> WorkerSet
        requires { number < MOST_MEMBERS }
        ensures { (member : ℕ) → has result member ≡ (member == number || has self member) }
    {
        WorkerSet {
            members: self.members.with(number),
        }
    }

    /// The set without that slot.
    pub fn without(self, number: u8) -> WorkerSet
        requires { number < MOST_MEMBERS }
        ensures { (member : ℕ) → has result member ≡ (not (member == number) && has self member) }
    {
        WorkerSet {
            members: self.members.without(number),
        }
    }

    /// Whether the slot is a member.
    pub fn has(self, number: u8) -> bool
        requires { number < MOST_MEMBERS }
        ensures { result ≡ has self number }
    {
        self.members.has(number)
    }
}

/// Two sets with the same members are equal.
pub fn same_members()
    ensures { (one other : ℕ) → ((member : ℕ) → has one member ≡ has other member) → one ≡ other }
{}
