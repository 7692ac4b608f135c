//! Keys and values of a middlebox's store, which hold their bytes in place.

ghost use Rattle.std.specs.Prelude.{◌≡◌, ◌≤◌, ◌↔◌, [], length, IsSome, IfSome, nat_eq};
ghost use Rattle.std.specs.Int.{to_be_bytes, w16, w32, w64};
ghost use Rattle.std.proofs.Common.{rules};
ghost use Rattle.std.specs.Cmp.{partial_order_from_own_ties};
ghost use Rattle.std.specs.Cmp.Lexicographic.{pointwise, slice_cmp};
ghost use Rattle.std.specs.Cmp.Rules.{comparing, hashing};
ghost use Rattle.std.specs.Hash as hashed;
ghost use Rattle.std.specs.Ordering.{nat_cmp, as_partial_cmp};

use crate::limits::{MOST_KEY_BYTES, MOST_VALUE_BYTES};
use std::cmp::Ordering;
use std::hash::{Hash, Hasher};
use std::marker::Model;

/// A key: at least one byte, and at most `MOST_KEY_BYTES`. Keys are ordered by their bytes.
#[derive(Clone, Copy, Debug)]
pub struct Key {
    bytes: [u8; MOST_KEY_BYTES],
    len: u8,
}

impl Model for Key {
    ghost use Rattle.std.specs.Prelude.{◌≡◌, ◌≤◌, ◌-◌, ◌++◌, ℕ, List, take, drop, length, replicate, refl};
    ghost use Rattle.ftc_base.specs.Padding.{padded, padded-take, length-front};
    ghost use Rattle.ftc_base.specs.declared.limits.TheConstants.{MOST_KEY_BYTES};

    ghost Value = { List ℕ };

    ghost view = { λ key. take key.len key.bytes };

    ghost invariant = { λ key. (length key.bytes ≡ MOST_KEY_BYTES) × (1 ≤ key.len) × (key.len ≤ MOST_KEY_BYTES)
        × (drop key.len key.bytes ≡ replicate (MOST_KEY_BYTES - key.len) 0) };

    ghost inverse = { λ bytes. record { bytes = padded MOST_KEY_BYTES bytes; len = length bytes } };

    ghost inverse_ok = { λ key held. rw (
      padded-take MOST_KEY_BYTES key.bytes key.len held.0 held.2 held.3,
      length-front MOST_KEY_BYTES key.bytes key.len held.0 held.2,
    ) refl };
}

impl Key {
    /// The key of these bytes.
    pub fn new(bytes: &[u8]) -> Option<Key>
        ensures within { IsSome result ↔ ((1 ≤ length bytes.now) × (length bytes.now ≤ MOST_KEY_BYTES)) }
        ensures same { IfSome result (λ key. key ≡ bytes.now) }
    {
        if bytes.is_empty() || bytes.len() > MOST_KEY_BYTES {
            return None;
        }
        let mut held = [0; MOST_KEY_BYTES];
        held[..bytes.len()].copy_from_slice(bytes);
        Some(Key {
            bytes: held,
            len: bytes.len() as u8,
        })
    }

    /// Its bytes.
    pub fn as_slice(&self) -> &[u8]
        ensures same { result.now ≡ self.now }
        ensures some { 1 ≤ length result.now }
        ensures within { length result.now ≤ MOST_KEY_BYTES }
    {
        &self.bytes[..self.len as usize]
    }
}

/// The key of one zero byte. It fills the unused places of a list of fixed room.
impl Default for Key {
    fn default() -> Key {
        Key {
            bytes: [0; MOST_KEY_BYTES],
            len: 1,
        }
    }
}

impl PartialEq for Key {
    ghost eq = { pointwise nat_eq };

    ghost laws = { Prim.search (comparing, rules) };

    fn eq(&self, other: &Key) -> bool {
        self.as_slice() == other.as_slice()
    }
}

impl Eq for Key {
    ghost laws = { Prim.search (comparing, rules) };
}

impl PartialOrd for Key {
    ghost partial_cmp = { as_partial_cmp (slice_cmp nat_cmp) };

    ghost laws = { partial_order_from_own_ties (Prim.search (comparing, rules)) (Prim.search (comparing, rules)) };

    fn partial_cmp(&self, other: &Key) -> Option<Ordering> {
        Some(self.cmp(other))
    }
}

impl Ord for Key {
    ghost cmp = { slice_cmp nat_cmp };

    ghost total = { Prim.search (comparing, rules) };

    ghost matches_partial_cmp = { Prim.search (comparing, rules) };

    ghost matches_eq = { Prim.search (comparing, rules) };

    fn cmp(&self, other: &Key) -> Ordering {
        self.as_slice().cmp(&other.as_slice())
    }
}

impl Hash for Key {
    ghost hash_input = { hashed.slice hashed.u8 };

    ghost respects_eq = { Prim.search (hashing, rules) };

    fn hash<H: Hasher>(&self, state: &mut H) {
        self.as_slice().hash(state);
    }
}

/// A value: at most `MOST_VALUE_BYTES` bytes.
#[derive(Clone, Copy, Debug)]
pub struct Value {
    bytes: [u8; MOST_VALUE_BYTES],
    len: u8,
}

impl Model for Value {
    ghost use Rattle.std.specs.Prelude.{◌≡◌, ◌≤◌, ◌-◌, ◌++◌, ℕ, List, take, drop, length, replicate, refl};
    ghost use Rattle.ftc_base.specs.Padding.{padded, padded-take, length-front};
    ghost use Rattle.ftc_base.specs.declared.limits.TheConstants.{MOST_VALUE_BYTES};

    ghost Value = { List ℕ };

    ghost view = { λ value. take value.len value.bytes };

    ghost invariant = { λ value. (length value.bytes ≡ MOST_VALUE_BYTES) × (value.len ≤ MOST_VALUE_BYTES)
        × (drop value.len value.bytes ≡ replicate (MOST_VALUE_BYTES - value.len) 0) };

    ghost inverse = { λ bytes. record { bytes = padded MOST_VALUE_BYTES bytes; len = length bytes } };

    ghost inverse_ok = { λ value held. rw (
      padded-take MOST_VALUE_BYTES value.bytes value.len held.0 held.1 held.2,
      length-front MOST_VALUE_BYTES value.bytes value.len held.0 held.1,
    ) refl };
}

impl Value {
    /// The value of these bytes.
    pub fn new(bytes: &[u8]) -> Option<Value>
        ensures within { IsSome result ↔ (length bytes.now ≤ MOST_VALUE_BYTES) }
        ensures same { IfSome result (λ value. value ≡ bytes.now) }
    {
        if bytes.len() > MOST_VALUE_BYTES {
            return None;
        }
        Some(Value::of_front(bytes))
    }

    /// Its bytes.
    pub fn as_slice(&self) -> &[u8]
        ensures same { result.now ≡ self.now }
        ensures within { length result.now ≤ MOST_VALUE_BYTES }
    {
        &self.bytes[..self.len as usize]
    }
}

impl Value {
    /// The value of no bytes.
    pub fn empty() -> Value
        ensures { result ≡ [] }
    {
        Value::of_front(&[])
    }

    /// The number in 16 bits, the high byte first.
    pub fn from_u16(number: u16) -> Value
        ensures { result ≡ to_be_bytes w16 number }
    {
        Value::of_front(&number.to_be_bytes())
    }

    /// The number in 32 bits, the high byte first.
    pub fn from_u32(number: u32) -> Value
        ensures { result ≡ to_be_bytes w32 number }
    {
        Value::of_front(&number.to_be_bytes())
    }

    /// The number in 64 bits, the high byte first.
    pub fn from_u64(number: u64) -> Value
        ensures { result ≡ to_be_bytes w64 number }
    {
        Value::of_front(&number.to_be_bytes())
    }

    /// The value of bytes that are few enough.
    fn of_front(bytes: &[u8]) -> Value
        requires { length bytes.now ≤ MOST_VALUE_BYTES }
        ensures { result ≡ bytes.now }
    {
        let mut held = [0; MOST_VALUE_BYTES];
        held[..bytes.len()].copy_from_slice(bytes);
        Value {
            bytes: held,
            len: bytes.len() as u8,
        }
    }
}

/// The value of no bytes.
impl Default for Value {
    fn default() -> Value {
        Value {
            bytes: [0; MOST_VALUE_BYTES],
            len: 0,
        }
    }
}

impl PartialEq for Value {
    ghost eq = { pointwise nat_eq };

    ghost laws = { Prim.search (comparing, rules) };

    fn eq(&self, other: &Value) -> bool {
        self.as_slice() == other.as_slice()
    }
}

impl Eq for Value {
    ghost laws = { Prim.search (comparing, rules) };
}
