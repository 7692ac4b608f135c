//! The list of a run's events.

ghost use Rattle.std.specs.Prelude.{◌≡◌, ◌≤◌, ◌<◌, ◌+◌, ◌++◌, ◌==◌, [], ◌∷◌, length, OnOk, OnErr, IsOk, slice_get};
ghost use Rattle.std.specs.Prelude.{Some};

use crate::event::Event;
use ftc_base::NoMemory;
use std::alloc::Global;
use std::marker::Model;

/// Events in the order in which they happened, numbered from 0.
#[derive(Drop)]
pub struct Journal {
    events: Vec<Event>,
}

impl Model for Journal {
    ghost use Rattle.std.specs.Prelude.{◌-◌, vec_len, vec_capacity};
    ghost use Rattle.ftc_journal.specs.EventList.{EventList};

    ghost Value = { EventList };

    ghost view = { λ journal. record {
      items = journal.events.items;
      spare = vec_capacity journal.events - vec_len journal.events;
    } };
}

impl Journal {
    /// No events yet.
    pub fn new(alloc: Global) -> Journal
        ensures { result.items ≡ [] }
    {
        Journal {
            events: Vec::new(alloc),
        }
    }

    /// How many events there are.
    pub fn len(&self) -> usize
        ensures { result ≡ length self.now.items }
    {
        self.events.len()
    }

    /// Whether there is no event.
    pub fn is_empty(&self) -> bool
        ensures { result ≡ (length self.now.items == 0) }
    {
        self.events.is_empty()
    }

    /// Makes room for so many more events.
    pub fn reserve(&mut self, count: usize) -> Result<(), NoMemory>
        ensures ok { OnOk result (count ≤ self.new.spare) }
        ensures items { self.new.items ≡ self.old.items }
        ensures succeeds { count ≤ self.old.spare → IsOk result }
    {
        self.events.reserve(count)?;
        Ok(())
    }

    /// Adds an event at the end.
    pub fn push(&mut self, event: Event) -> Result<(), NoMemory>
        ensures ok { OnOk result (self.new.items ≡ self.old.items ++ event ∷ []) }
        ensures err { OnErr result (self.new.items ≡ self.old.items) }
        ensures spare { self.old.spare ≤ self.new.spare + 1 }
        ensures succeeds { 1 ≤ self.old.spare → IsOk result }
    {
        self.events.push(event)?;
        Ok(())
    }

    /// The event of that number.
    pub fn at(&self, place: usize) -> &Event
        requires { place < length self.now.items }
        ensures { slice_get self.now.items place ≡ Some result.now }
    {
        &self.events[place]
    }

    /// All events.
    pub fn as_slice(&self) -> &[Event]
        ensures { result.now ≡ self.now.items }
    {
        self.events.as_slice()
    }
}
