//! The list of the visits that were made.

ghost use Rattle.std.specs.Prelude.{◌≡◌, ◌≤◌, ◌<◌, ◌+◌, ◌++◌, ◌==◌, [], ◌∷◌, length, IsOk, OnOk, slice_get, Some};

use crate::visit::MadeVisit;
use ftc_base::NoMemory;
use std::alloc::Global;
use std::collections::VecDeque;
use std::marker::Model;

/// Visits in the order in which they were made. A contract sees the list of them and how many more there is room for.
#[derive(Debug, Drop)]
pub struct MadeVisits {
    pub(crate) visits: VecDeque<MadeVisit>,
}

impl Model for MadeVisits {
    ghost use Rattle.std.specs.Prelude.{◌-◌};
    ghost use Rattle.std.specs.VecDeque.{deque_len, deque_capacity};
    ghost use Rattle.ftc_visits.specs.Made.{MadeVisitList};

    ghost Value = { MadeVisitList };

    ghost view = { λ made. record {
      items = made.visits.items;
      spare = deque_capacity made.visits - deque_len made.visits;
    } };
}

impl MadeVisits {
    /// No visit was made.
    pub fn new(alloc: Global) -> MadeVisits
        ensures { result.items ≡ [] }
    {
        MadeVisits {
            visits: VecDeque::new(alloc),
        }
    }

    /// How many visits there are.
    pub fn len(&self) -> usize
        ensures { result ≡ length self.now.items }
    {
        self.visits.len()
    }

    /// Whether there is no visit.
    pub fn is_empty(&self) -> bool
        ensures { result ≡ (length self.now.items == 0) }
    {
        self.visits.is_empty()
    }

    /// The visit at a place, in the order in which they were made.
    pub fn at(&self, place: usize) -> &MadeVisit
        requires { place < length self.now.items }
        ensures { slice_get self.now.items place ≡ Some result.now }
    {
        &self.visits[place]
    }

    /// Makes room for so many more visits.
    pub fn reserve(&mut self, count: usize) -> Result<(), NoMemory>
        ensures ok { OnOk result (count ≤ self.new.spare) }
        ensures items { self.new.items ≡ self.old.items }
        ensures spare { self.old.spare ≤ self.new.spare }
        ensures succeeds { count ≤ self.old.spare → IsOk result }
    {
        self.visits.reserve(count)?;
        Ok(())
    }

    /// Adds a visit behind the others, for which there is room.
    pub fn add(&mut self, visit: MadeVisit)
        requires { 1 ≤ self.old.spare }
        ensures items { self.new.items ≡ self.old.items ++ visit ∷ [] }
        ensures spare { self.new.spare + 1 ≡ self.old.spare }
    {
        self.visits.push_back_reserved(visit);
    }
}
