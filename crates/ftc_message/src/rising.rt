//! Lists that rise, into which items are put at their places.

ghost use Rattle.std.specs.Prelude.{◌≡◌, ◌<◌, ◌≤◌, ◌+◌, Bool, length, vec_len, vec_capacity, OnOk, OnErr};
ghost use Rattle.std.specs.Cmp.{IsStrictWeakOrder};
ghost use Rattle.std.specs.List.{prefix_len};
ghost use Rattle.ftc_message.specs.Ordered.{with_item, with_items};
ghost use Rattle.ftc_message.specs.Rises.{Rises, TieNone};

use ftc_base::NoMemory;
use std::mem;

/// What has a place in a list that rises.
pub(crate) trait Placed: Drop {
    /// Whether the first stands before the second.
    ghost is_before: { Self → Self → Bool };

    /// How many of the items, which rise, stand before this one.
    fn place_among(&self, items: &[Self]) -> usize
        requires { Rises is_before items.now }
        ensures place { result ≡ prefix_len (λ item. is_before item self.now) items.now }
        ensures within { result ≤ length items.now };

    ghost is_order: { IsStrictWeakOrder is_before };
}

/// Puts an item at its place among others, which rise. There is room for it.
pub(crate) fn put<T: Placed>(list: &mut Vec<T>, item: T)
    requires room { vec_len list.old < vec_capacity list.old }
    requires rising { Rises T.is_before list.old.items }
    ensures items { list.new.items ≡ with_item T.is_before item list.old.items }
    ensures len { vec_len list.new ≡ vec_len list.old + 1 }
    ensures capacity { vec_capacity list.old ≤ vec_capacity list.new }
{
    let place = item.place_among(list.as_slice());
    let put: Result<_, _> = list.insert(place, item);
    put.unwrap();
}

/// Puts each item at its place among others, so that all rise. There is room for them.
fn put_all<T: Placed>(list: &mut Vec<T>, items: Vec<T>)
    requires room { vec_len list.old + vec_len items ≤ vec_capacity list.old }
    requires rising { Rises T.is_before (with_items T.is_before items.items list.old.items) }
    ensures { list.new.items ≡ with_items T.is_before items.items list.old.items }
{
    let mut rest = items;
    while let Some(item) = rest.pop() {
        put(list, item);
    }
}

/// Puts the other items among these, each at its place. Both lists rise, and no item ties with one of the other list.
/// It costs by the shorter list, and by the items of the longer one that stand behind some of the shorter.
pub(crate) fn merge<T: Placed>(list: &mut Vec<T>, mut others: Vec<T>) -> Result<(), NoMemory>
    requires rising { Rises T.is_before list.old.items }
    requires others { Rises T.is_before others.items }
    requires apart { TieNone T.is_before others.items list.old.items }
    ensures ok { OnOk result (list.new.items ≡ with_items T.is_before others.items list.old.items) }
    ensures err { OnErr result (list.new.items ≡ list.old.items) }
{
    if others.len() <= list.len() {
        list.reserve(others.len())?;
        put_all(list, others);
        return Ok(());
    }
    others.reserve(list.len())?;
    let fewer = mem::replace(list, others);
    put_all(list, fewer);
    Ok(())
}
