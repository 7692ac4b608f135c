//! The pairs of a table, in a list or in a table of their own.

ghost use Rattle.std.specs.Prelude.{◌≡◌, ℕ, List, map, IfOk, OnOk, nat_eq};
ghost use Rattle.std.specs.Cmp.Lexicographic.{pointwise, slice_cmp};
ghost use Rattle.std.specs.HashMap.{IsUnique, get};
ghost use Rattle.std.specs.List.Sorted.{IsPermutation, IsSortedByKey};
ghost use Rattle.std.specs.Ordering.{nat_cmp};
ghost use Rattle.ftc_store.specs.Pairs.{pair_of};

use ftc_base::{Items, Key, Value};
use std::alloc::{AllocError, Global};
use std::collections::HashMap;

/// A key and the value there.
#[derive(Clone, Copy, Debug, PartialEq, Eq)]
pub struct Pair {
    pub key: Key,
    pub value: Value,
}

/// Pairs by rising key bytes.
pub type Answers2 = Items<Pair>;

/// The pairs of a table, in the table's order.
pub(crate) fn pairs_of(alloc: Global, held: &HashMap<Key, Value>) -> Result<Vec<Pair>, AllocError>
    ensures pairs { IfOk result (λ pairs. pairs.items ≡ map pair_of held.now.entries) }
    ensures unique { IsUnique (pointwise nat_eq) held.now }
{
    held.iter()
        .map(|(key, value)| Pair {
            key: *key,
            value: *value,
        })
        .collect(alloc)
}

/// Brings pairs into the order of their keys.
pub(crate) fn sort_pairs(pairs: &mut Vec<Pair>) -> Result<(), AllocError>
    ensures permutation { IsPermutation pairs.old.items pairs.new.items }
    ensures sorted { OnOk result (IsSortedByKey (λ pair. pair.key) (slice_cmp nat_cmp) pairs.new.items) }
{
    pairs.sort_by_key(|pair| pair.key)
}

/// A table with the same pairs.
pub(crate) fn copy_of(
    alloc: Global,
    held: &HashMap<Key, Value>,
) -> Result<HashMap<Key, Value>, AllocError>
    ensures { IfOk result (λ copy. (key : List ℕ) →
        get (pointwise nat_eq) copy key ≡ get (pointwise nat_eq) held.now key) }
{
    held.iter()
        .map(|(key, value)| (*key, *value))
        .collect(alloc)
}
