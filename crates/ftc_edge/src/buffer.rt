//! The buffer behind the last server.

ghost use Rattle.std.specs.Prelude.{◌≡◌, ◌≤◌, ◌+◌, ◌++◌, [], ◌∷◌, length, IsOk, OnOk};
ghost use Rattle.std.specs.Option.{option_map};
ghost use Rattle.ftc_edge.specs.Due.{first_due, without_due, freed};

use crate::held::Held;
use crate::looking::{find_due, place_due};
use crate::stretch::Stretch;
use ftc_base::{Bytes, NoMemory, PacketNo};
use ftc_message::Needs;
use ftc_vector::Commits;
use std::alloc::Global;
use std::collections::VecDeque;
use std::marker::Model;

/// A packet that has passed all middleboxes, and what has to be known of the tails before it leaves.
#[derive(Debug, Drop)]
pub struct Withheld {
    pub packet: PacketNo,
    pub bytes: Bytes,
    pub needs: Needs,
}

/// A packet that leaves.
#[derive(Debug, Drop)]
pub struct Freed {
    pub packet: PacketNo,
    pub bytes: Bytes,
}

/// The withheld packets in the order of withholding, which is mostly the order of leaving, so that taking out
/// near the front moves few. A contract sees the list of them and how many more there is room for.
#[derive(Debug, Drop)]
pub struct Buffer {
    held: VecDeque<Held>,
    /// How many packets there is room for, those that are held among them.
    room: usize,
    /// Those behind the packets that are near the front, and what they lack.
    far: Stretch,
}

impl Model for Buffer {
    ghost use Rattle.std.specs.Prelude.{◌-◌};
    ghost use Rattle.std.specs.VecDeque.{deque_len, deque_capacity};
    ghost use Rattle.ftc_edge.specs.Due.{WithheldPackets};
    ghost use Rattle.ftc_edge.specs.Stretches.{IsKept};

    ghost Value = { WithheldPackets };

    ghost view = { λ buffer. record {
      items = buffer.held.items;
      spare = buffer.room - deque_len buffer.held;
    } };

    ghost invariant = { λ buffer. IsKept (deque_len buffer.held) buffer.room (deque_capacity buffer.held)
        buffer.held.items buffer.far };
}

impl Buffer {
    /// No packet is withheld.
    pub fn new(alloc: Global) -> Buffer
        ensures { result.items ≡ [] }
    {
        Buffer {
            held: VecDeque::new(alloc),
            room: 0,
            far: Stretch::new(alloc),
        }
    }

    /// How many packets are withheld.
    pub fn withheld(&self) -> usize
        ensures { result ≡ length self.now.items }
    {
        self.held.len()
    }

    /// Makes room for so many more packets.
    pub fn reserve(&mut self, count: usize) -> Result<(), NoMemory>
        ensures ok { OnOk result (count ≤ self.new.spare) }
        ensures items { self.new.items ≡ self.old.items }
        ensures spare { self.old.spare ≤ self.new.spare }
        ensures succeeds { count ≤ self.old.spare → IsOk result }
    {
        if count <= self.room - self.held.len() {
            return Ok(());
        }
        self.far.make_room()?;
        self.held.reserve(count)?;
        self.room = self.held.capacity();
        Ok(())
    }

    /// Withholds a packet, behind the others. There is room for it, so no memory is taken.
    pub fn withhold(&mut self, packet: PacketNo, bytes: Bytes, needs: Needs)
        requires { 1 ≤ self.old.spare }
        ensures items { self.new.items ≡
            self.old.items ++ record { packet = packet; bytes = bytes; needs = needs } ∷ [] }
        ensures spare { self.old.spare ≤ self.new.spare + 1 }
    {
        self.held.push_back_reserved(Held::new(Withheld {
            packet,
            bytes,
            needs,
        }));
    }

    /// The packet that is due: the first withheld one all of whose needs are known at the tails.
    pub fn due(&self, commits: &Commits) -> Option<PacketNo>
        ensures { result ≡ option_map (λ withheld. withheld.packet) (first_due commits.now self.now.items) }
    {
        let place = place_due(&self.held, &self.far, commits);
        let due = self.held.get(place)?;
        Some(due.withheld().packet)
    }

    /// Takes the packet that is due out. The others stay in their order.
    pub fn release(&mut self, commits: &Commits) -> Option<Freed>
        ensures freed { result ≡ option_map freed (first_due commits.now self.old.items) }
        ensures others { self.new.items ≡ without_due commits.now self.old.items }
        ensures spare { self.new.spare + length self.new.items ≡ self.old.spare + length self.old.items }
    {
        if self.held.is_empty() {
            return None;
        }
        let place = find_due(&mut self.held, &mut self.far, commits);
        let held = self.held.remove(place)?;
        if place < self.far.begin {
            self.far.begin -= 1;
            self.far.end -= 1;
        }
        let Withheld { packet, bytes, .. } = held.into_withheld();
        Some(Freed { packet, bytes })
    }
}
