//! Items by number.

ghost use Rattle.std.specs.Prelude.{◌≡◌, ◌<◌, ℕ, Bool, Option, false, Some, None, length, OnOk, OnSome, option_map};
ghost use Rattle.std.specs.Prelude.{slice_set, [], if◌then◌else◌};
ghost use Rattle.std.specs.List.{list_any};
ghost use Rattle.ftc_machine.specs.Slots.{slot_at, has_such};

use ftc_base::NoMemory;
use std::alloc::Global;
use std::marker::Model;

/// Places that are numbered from 0, each of which has an item or none. Those before the first that has one
/// are passed over where all are looked through. A contract sees the list of the places.
#[derive(Drop)]
pub struct Slots<T> {
    places: Vec<Option<T>>,
    first: usize,
}

impl<T> Model for Slots<T> {
    ghost use Rattle.std.specs.Prelude.{ℕ, ◌≡◌, ◌<◌, List, Option, None};
    ghost use Rattle.std.specs.Coded.{coded_list, coded_option};
    ghost use Rattle.ftc_machine.specs.Slots.{slot_at};

    ghost Value = { List (Option T) };

    ghost coded = { coded_list (coded_option T.code) };

    ghost view = { λ slots. slots.places.items };

    ghost invariant = { λ slots. (place : ℕ) → place < slots.first → slot_at slots.places.items place ≡ None };
}

impl<T: Drop> Slots<T> {
    /// No place yet.
    pub fn new(alloc: Global) -> Slots<T>
        ensures { result ≡ [] }
    {
        Slots {
            places: Vec::new(alloc),
            first: 0,
        }
    }

    /// How many places there are.
    pub fn len(&self) -> usize
        ensures { result ≡ length self.now }
    {
        self.places.len()
    }

    /// What a place has.
    pub fn get(&self, place: usize) -> Option<&T>
        ensures { option_map (λ item. item.now) result ≡ slot_at self.now place }
    {
        match self.places.get(place) {
            Some(slot) => slot.as_ref(),
            None => None,
        }
    }

    /// Makes all places up to that one. New ones have nothing.
    pub fn make_room(&mut self, place: usize) -> Result<(), NoMemory>
        ensures room { OnOk result (place < length self.new) }
        ensures same { (other : ℕ) → slot_at self.new other ≡ slot_at self.old other }
    {
        while self.places.len() <= place {
            self.places.push(None)?;
        }
        Ok(())
    }

    /// Puts an item into a place.
    pub fn put(&mut self, place: usize, item: T)
        requires { place < length self.old }
        ensures { self.new ≡ slice_set self.old place (Some item) }
    {
        self.places[place] = Some(item);
        if place < self.first {
            self.first = place;
        }
    }

    /// Gives a place an item or nothing, where the test is true.
    pub fn set_if(&mut self, test: bool, place: usize, item: Option<T>)
        requires { place < length self.old }
        ensures { self.new ≡ (if test then slice_set self.old place item else self.old) }
    {
        if test {
            match item {
                Some(item) => self.put(place, item),
                None => self.clear(place),
            }
        }
    }

    /// Takes away what a place has.
    pub fn clear(&mut self, place: usize)
        requires { place < length self.old }
        ensures { self.new ≡ slice_set self.old place None }
    {
        self.places[place] = None;
        self.pass_over();
    }

    /// Takes out what a place has.
    pub fn take_out(&mut self, place: usize) -> Option<T>
        ensures item { result ≡ slot_at self.old place }
        ensures left { self.new ≡ slice_set self.old place None }
        ensures room { OnSome result (place < length self.new) }
    {
        if place >= self.places.len() {
            return None;
        }
        let item = self.places[place].take();
        self.pass_over();
        item
    }

    /// Passes over the places at the front that have nothing.
    fn pass_over(&mut self)
        ensures { self.new ≡ self.old }
    {
        while self.first < self.places.len() && self.places[self.first].is_none() {
            self.first += 1;
        }
    }

    /// The places from the first on that may have an item: a test is true of one of them where it is true
    /// of one of all.
    pub fn live(&self) -> &[Option<T>]
        ensures { (test : T → Bool) → list_any (has_such test) result.now ≡ list_any (has_such test) self.now }
    {
        match self.places.get(self.first..) {
            Some(places) => places,
            None => &[],
        }
    }
}
