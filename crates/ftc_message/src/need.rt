//! What has to be known of a tail before a packet may be released.

ghost use Rattle.std.specs.Prelude.{◌≡◌, ◌<◌, ◌++◌, ◌==◌, [], ◌∷◌, true, false, is_some, length, Some, slice_get};
ghost use Rattle.std.specs.Prelude.{IfOk, OnOk, OnErr};
ghost use Rattle.std.specs.List.{AllByRecursion, find};
ghost use Rattle.std.specs.Option.{option_copied};
ghost use Rattle.ftc_message.specs.Logged.{needs_rise};
ghost use Rattle.ftc_message.specs.Bounds.{IsNeed, AreNeeds};
ghost use Rattle.ftc_message.specs.Same.{same_need};
ghost use Rattle.ftc_message.specs.SameLaws.{need_list_equivalence};
ghost use Rattle.std.specs.Cmp.{partial_equiv_from_equiv};
ghost use Rattle.std.specs.Cmp.Lexicographic.{pointwise};
ghost use Rattle.ftc_message.specs.Ordered.{with_item, with_items, is_lower, is_need_of, HasNoNeed, AreOfOthers};
ghost use Rattle.ftc_message.specs.Ordered.{needs_without};
ghost use Rattle.ftc_message.specs.OrderLaws.{lower_is_order};

use crate::rising::{Placed, merge, put};
use ftc_base::{NoMemory, ServerId, ServerSet};
use ftc_vector::Marks;
use std::alloc::Global;
use std::marker::Model;

/// The numbers that the tail of a group has to have reached.
#[derive(Clone, Copy, Debug, PartialEq, Eq)]
pub struct Need {
    pub group: ServerId,
    pub marks: Marks,
}

/// Needs that rise by group. A contract sees the list of them.
#[derive(Debug, Drop)]
pub struct Needs {
    list: Vec<Need>,
}

impl Model for Needs {
    ghost use Rattle.std.specs.Prelude.{List};
    ghost use Rattle.ftc_message.specs.declared.need.Need.{Need};
    ghost use Rattle.ftc_message.specs.Bounds.{AreNeeds};

    ghost Value = { List Need };

    ghost view = { λ needs. needs.list.items };

    ghost invariant = { λ needs. AreNeeds needs.list.items };
}

impl Placed for Need {
    ghost is_before = { is_lower };

    ghost is_order = { lower_is_order };

    fn place_among(&self, needs: &[Need]) -> usize {
        for (place, need) in needs.iter().enumerate() {
            if need.group.number() >= self.group.number() {
                return place;
            }
        }
        needs.len()
    }
}

/// Every need holds what its type does.
fn are_needs(needs: &[Need])
    ensures { AllByRecursion IsNeed needs.now }
{
    for need in needs {
        // The contracts of these calls tell the bounds of the parts.
        let _ = (need.group.number(), need.marks.at(0));
    }
}

impl Needs {
    /// No needs yet.
    pub fn new(alloc: Global) -> Needs
        ensures { result ≡ [] }
    {
        Needs {
            list: Vec::new(alloc),
        }
    }

    /// How many needs there are.
    pub fn len(&self) -> usize
        ensures same { result ≡ length self.now }
        ensures bounds { AreNeeds self.now }
    {
        self.list.len()
    }

    /// Whether there is no need.
    pub fn is_empty(&self) -> bool
        ensures { result ≡ (length self.now == 0) }
    {
        self.list.is_empty()
    }

    /// The need at a place, from 0.
    pub fn at(&self, place: usize) -> &Need
        requires { place < length self.now }
        ensures { slice_get self.now place ≡ Some result.now }
    {
        &self.list[place]
    }

    /// All needs.
    pub fn as_slice(&self) -> &[Need]
        ensures { result.now ≡ self.now }
    {
        self.list.as_slice()
    }

    /// Adds a need at the end, whose group is greater than that of each need before.
    pub fn push(&mut self, need: Need) -> Result<(), NoMemory>
        requires { needs_rise 0 (self.old ++ need ∷ []) ≡ true }
        ensures ok { OnOk result (self.new ≡ self.old ++ need ∷ []) }
        ensures err { OnErr result (self.new ≡ self.old) }
    {
        // The contracts of these calls tell the bounds of the parts.
        let _ = (need.group.number(), need.marks.at(0));
        self.list.push(need)?;
        Ok(())
    }

    /// Makes room for so many more needs, so that adding them moves none.
    pub(crate) fn make_room(&mut self, count: usize) -> Result<(), NoMemory>
        ensures { self.new ≡ self.old }
    {
        self.list.reserve(count)?;
        Ok(())
    }

    /// Puts a need at its place among the others, of which none is of its group.
    pub fn insert(&mut self, need: Need) -> Result<(), NoMemory>
        requires { HasNoNeed need self.old }
        ensures ok { OnOk result (self.new ≡ with_item is_lower need self.old) }
        ensures err { OnErr result (self.new ≡ self.old) }
    {
        // The contracts of these calls tell the bounds of the parts.
        let _ = (need.group.number(), need.marks.at(0));
        self.list.reserve(1)?;
        put(&mut self.list, need);
        Ok(())
    }

    /// Puts the other needs among these, each at its place. No group is in both lists.
    pub fn merge(&mut self, other: Needs) -> Result<(), NoMemory>
        requires { AreOfOthers other self.old }
        ensures ok { OnOk result (self.new ≡ with_items is_lower other self.old) }
        ensures err { OnErr result (self.new ≡ self.old) }
    {
        merge(&mut self.list, other.into_vec())?;
        Ok(())
    }

    /// Drops the needs of these groups.
    pub fn drop_groups(&mut self, groups: ServerSet)
        ensures { self.new ≡ needs_without groups self.old }
    {
        self.list.retain(|need| !groups.has(need.group.number()));
    }

    /// The need of that group.
    pub fn find(&self, group: ServerId) -> Option<&Need>
        ensures { option_copied result ≡ find (is_need_of group) self.now }
    {
        self.list.iter().find(|need| need.group == group)
    }

    /// Whether there is a need of that group.
    pub fn has(&self, group: ServerId) -> bool
        ensures found { result ≡ is_some (find (is_need_of group) self.now) }
        ensures none { result ≡ false → AllByRecursion (λ need. is_need_of group need ≡ false) self.now }
    {
        self.find(group).is_some()
    }

    /// The same needs once more.
    pub fn copy(&self, alloc: Global) -> Result<Needs, NoMemory>
        ensures { IfOk result (λ copy. copy ≡ self.now) }
    {
        // A visit adds one to the copy.
        let mut list = Vec::with_capacity(alloc, self.list.len().saturating_add(1))?;
        for need in self.list.as_slice() {
            list.push(*need)?;
        }
        Ok(Needs { list })
    }

    /// The needs of a vector, which are not copied.
    pub fn from_vec(list: Vec<Need>) -> Needs
        requires { needs_rise 0 list.items ≡ true }
        ensures { result ≡ list.items }
    {
        are_needs(list.as_slice());
        Needs { list }
    }

    /// The needs as a vector. They are not copied.
    pub fn into_vec(self) -> Vec<Need>
        ensures items { result.items ≡ self }
        ensures bounds { AreNeeds self }
    {
        self.list
    }
}

impl PartialEq for Needs {
    ghost eq = { pointwise same_need };

    ghost laws = { partial_equiv_from_equiv need_list_equivalence };

    fn eq(&self, other: &Needs) -> bool {
        self.as_slice() == other.as_slice()
    }
}

impl Eq for Needs {
    ghost laws = { need_list_equivalence };
}
