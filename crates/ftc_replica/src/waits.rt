//! What logs wait for that can't be applied yet.

ghost use Rattle.std.specs.Prelude.{◌≡◌, ◌≤◌, ◌<◌, ◌+◌, ◌++◌, ◌==◌, [], ◌∷◌, ℕ, false, length, slice_index_or};
ghost use Rattle.std.specs.Prelude.{find, IsOk, OnOk, OnErr};
ghost use Rattle.std.specs.List.{position};
ghost use Rattle.ftc_replica.specs.Waiting.{waits_for, without_first};
ghost use Rattle.ftc_replica.specs.Tickets.{waits_for_number};

use crate::awaited::{Number, Queue, look_from, note, take_off};
use ftc_base::{NoMemory, PacketNo, ServerId};
use std::alloc::Global;
use std::collections::{HashMap, VecDeque};
use std::marker::Model;

/// A log waits until a partition of a group has a number.
#[derive(Clone, Copy, Debug, PartialEq, Eq)]
pub struct Wait {
    pub group: ServerId,
    pub partition: u8,
    pub number: u64,
    /// The packet of the log.
    pub origin: PacketNo,
    /// The packet whose message has the log.
    pub packet: PacketNo,
}

impl Wait {
    /// The number that it is for.
    fn awaited(&self) -> Number
        ensures group { result.group ≡ self.now.group }
        ensures partition { result.partition ≡ self.now.partition }
        ensures number { result.number ≡ self.now.number }
    {
        Number {
            group: self.group.number(),
            partition: self.partition,
            number: self.number,
        }
    }

    /// Whether it is for that number.
    fn is_for(&self, number: &Number) -> bool
        ensures { result ≡ waits_for number.now.group number.now.partition number.now.number self.now }
    {
        self.group.number() == number.group
            && (self.partition == number.partition && self.number == number.number)
    }
}

/// A wait with its ticket. Tickets rise in the order of adding.
#[derive(Clone, Copy, Debug)]
pub struct Ticketed {
    pub ticket: u64,
    pub wait: Wait,
}

/// Waits in the order of adding. A contract sees the list of them and how many more there is room for.
///
/// The first wait for a number is looked for from where it stands at the earliest, by its ticket, and not at all where
/// none waits for the number. As it is taken out, those in front of it or those behind it move up, whichever are fewer:
/// few as long as numbers are reached in about the order in which they are waited for.
#[derive(Debug, Drop)]
pub struct Waits {
    held: VecDeque<Ticketed>,
    /// The ticket of the next wait.
    next: u64,
    numbers: HashMap<Number, Queue>,
    /// Whether each number that is waited for is noted. Where there was no memory for one, a wake looks through all
    /// waits, until none is left.
    is_noted: bool,
}

impl Model for Waits {
    ghost use Rattle.std.specs.Prelude.{◌-◌, length};
    ghost use Rattle.std.specs.VecDeque.{deque_capacity};
    ghost use Rattle.ftc_replica.specs.Waiting.{WaitList};
    ghost use Rattle.ftc_replica.specs.Tickets.{waits_of, AreTicketed};

    ghost Value = { WaitList };

    ghost view = { λ waits. record {
      items = waits_of waits.held.items;
      spare = deque_capacity waits.held - length (waits_of waits.held.items);
    } };

    ghost invariant = { λ waits. AreTicketed waits.held.items waits.next waits.is_noted waits.numbers.entries };
}

/// The place of the first that waits for a number. None of those waits stands in front of `start`.
fn place_behind(held: &VecDeque<Ticketed>, start: usize, number: &Number) -> Option<usize>
    requires { (place : ℕ) (other : Ticketed) → place < start
        → waits_for_number number.now (slice_index_or held.now.items place other) ≡ false }
    ensures { result ≡ position (waits_for_number number.now) held.now.items }
{
    for place in start..held.len() {
        if held[place].wait.is_for(number) {
            return Some(place);
        }
    }
    None
}

impl Waits {
    /// Nothing waits.
    pub fn new(alloc: Global) -> Waits
        ensures { result.items ≡ [] }
    {
        Waits {
            held: VecDeque::new(alloc),
            next: 0,
            numbers: HashMap::new(alloc),
            is_noted: true,
        }
    }

    /// How many waits there are.
    pub fn len(&self) -> usize
        ensures { result ≡ length self.now.items }
    {
        self.held.len()
    }

    /// Whether nothing waits.
    pub fn is_empty(&self) -> bool
        ensures { result ≡ (length self.now.items == 0) }
    {
        self.held.is_empty()
    }

    /// Makes room for so many more waits.
    pub fn reserve(&mut self, count: usize) -> Result<(), NoMemory>
        ensures ok { OnOk result (count ≤ self.new.spare) }
        ensures items { self.new.items ≡ self.old.items }
        ensures spare { self.old.spare ≤ self.new.spare }
        ensures succeeds { count ≤ self.old.spare → IsOk result }
    {
        self.held.reserve(count)?;
        // Where that is refused, a wait is added all the same, and is looked for among all.
        let _ = self.numbers.reserve(count);
        Ok(())
    }

    /// Drops all waits. Their room stays.
    pub fn clear(&mut self)
        ensures items { self.new.items ≡ [] }
        ensures spare { self.old.spare ≤ self.new.spare }
    {
        self.held.clear();
        self.numbers.clear();
        self.is_noted = true;
    }

    /// Adds a wait, behind the others. It can't fail where there is room.
    pub fn add(&mut self, wait: Wait) -> Result<(), NoMemory>
        ensures ok { OnOk result (self.new.items ≡ self.old.items ++ wait ∷ []) }
        ensures err { OnErr result (self.new.items ≡ self.old.items) }
        ensures spare { self.old.spare ≤ self.new.spare + 1 }
        ensures succeeds { 1 ≤ self.old.spare → IsOk result }
    {
        if !self.is_noted && self.held.is_empty() {
            self.clear();
        }
        let ticket = self.next;
        self.held.push_back(Ticketed { ticket, wait })?;
        self.next = ticket.saturating_add(1);
        if self.is_noted {
            self.is_noted = note(&mut self.numbers, wait.awaited(), ticket);
        }
        Ok(())
    }

    /// The place of the first that waits for a number.
    fn place_of(&self, number: &Number) -> Option<usize>
        ensures { result
            ≡ position (waits_for number.now.group number.now.partition number.now.number) self.now.items }
    {
        let from = look_from(&self.numbers, self.is_noted, number)?;
        let start = self.held.partition_point(|held| held.ticket < from);
        place_behind(&self.held, start, number)
    }

    /// Takes out the first that waits for that number of that partition of that group. The others stay in
    /// their order.
    pub fn wake(&mut self, group: ServerId, partition: u8, number: u64) -> Option<Wait>
        ensures woken { result ≡ find (waits_for group partition number) self.old.items }
        ensures others { self.new.items ≡ without_first group partition number self.old.items }
        ensures spare { self.new.spare + length self.new.items ≡ self.old.spare + length self.old.items }
    {
        let sought = Number {
            group: group.number(),
            partition,
            number,
        };
        let place = self.place_of(&sought)?;
        let held = self.held.remove(place)?;
        if self.is_noted {
            take_off(&mut self.numbers, sought, held.ticket);
        }
        Some(held.wait)
    }
}
