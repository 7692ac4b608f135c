//! Released packets on their way out.

ghost use Rattle.std.specs.Prelude.{◌≡◌, ◌≤◌, ◌<◌, ◌+◌, ◌^◌, ◌++◌, [], ◌∷◌, length, OnOk, IfSome, IsNone};

use ftc_base::{NoMemory, Released};
use std::alloc::Global;
use std::collections::VecDeque;
use std::marker::Model;

/// Released packets that weren't taken out yet, in the order of their release. A contract sees the list of them, for
/// how many more there is room, and how many were taken out.
#[derive(Drop)]
pub struct Outlet {
    queue: VecDeque<Released>,
    count: u64,
}

impl Model for Outlet {
    ghost use Rattle.std.specs.Prelude.{◌-◌};
    ghost use Rattle.std.specs.VecDeque.{deque_len, deque_capacity};
    ghost use Rattle.ftc_chain.specs.Outlet.{Outgoing};

    ghost Value = { Outgoing };

    ghost view = { λ outlet. record {
      waiting = outlet.queue.items;
      spare = deque_capacity outlet.queue - deque_len outlet.queue;
      drained = outlet.count;
    } };
}

impl Outlet {
    /// Nothing was released yet.
    pub fn new(alloc: Global) -> Outlet
        ensures waiting { result.waiting ≡ [] }
        ensures drained { result.drained ≡ 0 }
    {
        Outlet {
            queue: VecDeque::new(alloc),
            count: 0,
        }
    }

    /// How many were taken out.
    pub fn drained(&self) -> u64
        ensures { result ≡ self.now.drained }
    {
        self.count
    }

    /// Makes room for so many more.
    pub fn reserve(&mut self, count: usize) -> Result<(), NoMemory>
        ensures ok { OnOk result (count ≤ self.new.spare) }
        ensures waiting { self.new.waiting ≡ self.old.waiting }
        ensures drained { self.new.drained ≡ self.old.drained }
    {
        self.queue.reserve(count)?;
        Ok(())
    }

    /// Adds a packet that was released, for which there is room.
    pub fn add(&mut self, released: Released)
        requires { 1 ≤ self.old.spare }
        ensures waiting { self.new.waiting ≡ self.old.waiting ++ released ∷ [] }
        ensures spare { self.new.spare + 1 ≡ self.old.spare }
        ensures drained { self.new.drained ≡ self.old.drained }
    {
        self.queue.push_back_reserved(released);
    }

    /// Takes the oldest one out. None where none waits.
    pub fn take(&mut self) -> Option<Released>
        requires { self.old.drained + length self.old.waiting < 2 ^ 64 }
        ensures some { IfSome result (λ released. self.old.waiting ≡ released ∷ self.new.waiting) }
        ensures count { IfSome result (λ released. self.new.drained ≡ self.old.drained + 1) }
        ensures none { IsNone result → self.old.waiting ≡ [] }
        ensures same { IsNone result → self.new.waiting ≡ self.old.waiting }
        ensures uncounted { IsNone result → self.new.drained ≡ self.old.drained }
    {
        let released = self.queue.pop_front()?;
        self.count += 1;
        Some(released)
    }
}
