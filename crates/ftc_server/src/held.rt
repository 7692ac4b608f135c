//! The messages that a server holds.

ghost use Rattle.std.specs.Prelude.{◌≡◌, ◌≢◌, ◌≤◌, ◌<◌, ◌+◌, ◌++◌, ◌==◌, ◌&&◌, ◌||◌, ◌⊎◌, ℕ, false, not, [], ◌∷◌};
ghost use Rattle.std.specs.Prelude.{length, filter, OnOk, IsOk, IfSome, IsNone, slice_get, Some};
ghost use Rattle.std.specs.List.{position};
ghost use Rattle.std.specs.Iterator.Runs.{YieldsRefsInOrder, YieldsRefsInReverse};
ghost use Rattle.std.specs.Option.{option_copied};
ghost use Rattle.std.specs.VecDeque.Iter.{deque_iter_rest, deque_iter_steps, deque_iter_steps_back};
ghost use Rattle.ftc_server.specs.Holding.{rests, noted, is_of, found, is_held, origins_of, without, with_changed};
ghost use Rattle.ftc_server.specs.Replicas.{is_ready};
ghost use Rattle.ftc_server.specs.Tickets.{AreDistinct};
ghost use Rattle.ftc_server.specs.Visited.{visited_by};
ghost use Rattle.ftc_server.specs.Waiting.{AreHadBefore};
ghost use Rattle.ftc_server.specs.Work.{first_awake};

use crate::replicas::are_had;
use crate::tickets::Tickets;
use crate::visited::Visited;
use crate::work::has_work;
use ftc_base::{NoMemory, PacketNo};
use ftc_message::Message;
use ftc_replica::Replica;
use std::alloc::Global;
use std::collections::vec_deque::Iter;
use std::collections::{HashMap, VecDeque};
use std::marker::Model;

/// A message that a server holds: whether its packet was visited there, and whether it came by the link
/// that closes the ring.
#[derive(Debug, Drop)]
pub struct HeldMessage {
    pub visited: bool,
    pub by_ring: bool,
    pub message: Message,
}

/// The held messages in the order of taking, which is mostly the order of leaving, so that taking out near the
/// front moves few. A contract sees the list of them, the origins of those that rest, how many of the first logs of a
/// message are noted as had, and for how many more there is room.
#[derive(Debug, Drop)]
pub struct HeldMessages {
    list: VecDeque<HeldMessage>,
    tickets: Tickets,
    /// How many of the first logs of the message of an origin are had, where some are noted: none is looked at again.
    had: HashMap<PacketNo, usize>,
}

impl Model for HeldMessages {
    ghost use Rattle.std.specs.Prelude.{◌+◌};
    ghost use Rattle.std.specs.VecDeque.{deque_len, deque_capacity};
    ghost use Rattle.ftc_server.specs.Holding.{Holding, AreTicketed};

    ghost Value = { Holding };

    ghost view = { λ held. record {
      items = held.list.items;
      resting = held.tickets.resting;
      had = held.had.entries;
      spare = held.tickets.spare;
    } };

    ghost invariant = { λ held. AreTicketed held.list.items held.tickets.origins
        (deque_len held.list + held.tickets.spare) (deque_capacity held.list) };
}

impl HeldMessages {
    /// Nothing is held.
    pub fn new(alloc: Global) -> HeldMessages
        ensures items { result.items ≡ [] }
        ensures resting { result.resting ≡ [] }
        ensures had { result.had ≡ [] }
    {
        HeldMessages {
            list: VecDeque::new(alloc),
            tickets: Tickets::new(alloc),
            had: HashMap::new(alloc),
        }
    }

    /// How many are held. No two of them have one origin.
    pub fn len(&self) -> usize
        ensures size { result ≡ length self.now.items }
        ensures distinct { AreDistinct (origins_of self.now.items) }
    {
        self.tickets.len()
    }

    /// The message at a place, in the order of taking.
    pub fn at(&self, place: usize) -> &HeldMessage
        requires { place < length self.now.items }
        ensures { slice_get self.now.items place ≡ Some result.now }
    {
        &self.list[place]
    }

    /// All messages, in the order of taking.
    pub fn iter(&self) -> Iter<'_, HeldMessage>
        ensures rest { deque_iter_rest result ≡ self.now.items }
        ensures runs { YieldsRefsInOrder (deque_iter_steps {X = HeldMessage}) deque_iter_rest }
        ensures runs_back { YieldsRefsInReverse (deque_iter_steps_back {X = HeldMessage}) deque_iter_rest }
    {
        self.list.iter()
    }

    /// Where the message of that origin stands.
    fn place_of(&self, origin: PacketNo) -> Option<usize>
        ensures place { result ≡ position (is_of origin) self.now.items }
        ensures none { IsNone result → rests origin self.now.resting ≡ false }
    {
        self.tickets.place_of(origin)
    }

    /// The message of that origin.
    pub fn get(&self, origin: PacketNo) -> Option<&HeldMessage>
        ensures { option_copied result ≡ found origin self.now.items }
    {
        let place = self.place_of(origin)?;
        Some(&self.list[place])
    }

    /// The first message, in the order of taking, that doesn't rest and has work.
    pub fn first_with_work(&self, replicas: &[Option<Replica>]) -> Option<&HeldMessage>
        requires { AreHadBefore replicas.now self.now.items self.now.had }
        ensures { option_copied result ≡ first_awake self.now.resting replicas.now self.now.items }
    {
        // The contract of this call tells that no two held messages have one origin.
        let _ = self.len();
        for nth in 0..self.tickets.awake() {
            let held = &self.list[self.tickets.awake_at(nth)];
            if has_work(replicas, held, self.had(held.message.origin)) {
                return Some(held);
            }
        }
        None
    }

    /// Makes room for so many more.
    pub fn reserve(&mut self, count: usize) -> Result<(), NoMemory>
        ensures ok { OnOk result (count ≤ self.new.spare) }
        ensures items { self.new.items ≡ self.old.items }
        ensures resting { self.new.resting ≡ self.old.resting }
        ensures had { self.new.had ≡ self.old.had }
        ensures spare { self.old.spare ≤ self.new.spare }
        ensures succeeds { count ≤ self.old.spare → IsOk result }
    {
        self.list.reserve(count)?;
        self.tickets.reserve(count)?;
        Ok(())
    }

    /// Holds one more, behind the others. It doesn't rest, and nothing is noted of it. There is room for it, and no
    /// message of its origin is held.
    pub fn hold(&mut self, held: HeldMessage)
        requires room { 1 ≤ self.old.spare }
        requires new { is_held held.message.origin self.old.items ≡ false }
        ensures items { self.new.items ≡ self.old.items ++ held ∷ [] }
        ensures resting { self.new.resting ≡ self.old.resting }
        ensures awake { rests held.message.origin self.new.resting ≡ false }
        ensures unseen { noted held.message.origin self.new.had ≡ 0 }
        ensures had { (other : ℕ) → other ≢ held.message.origin → noted other self.new.had ≡ noted other self.old.had }
        ensures spare { self.old.spare ≤ self.new.spare + 1 }
    {
        forget(&mut self.had, held.message.origin);
        self.tickets.add(held.message.origin);
        self.list.push_back_reserved(held);
    }

    /// The packet of the message of that origin was visited. It is another or none from now on, and the
    /// message has other logs and needs, of which nothing is noted.
    pub fn visit(&mut self, origin: PacketNo, visited: Visited)
        ensures items { self.new.items ≡ with_changed origin (visited_by visited) self.old.items }
        ensures resting { self.new.resting ≡ self.old.resting }
        ensures unseen { noted origin self.new.had ≡ 0 }
        ensures had { (other : ℕ) → other ≢ origin → noted other self.new.had ≡ noted other self.old.had }
        ensures spare { self.new.spare ≡ self.old.spare }
    {
        let place = self.place_of(origin);
        forget(&mut self.had, origin);
        match place {
            Some(place) => change(&mut self.list[place], visited),
            None => {}
        }
    }

    /// The message of that origin rests: it is passed over where one with work is looked for.
    pub fn rest(&mut self, origin: PacketNo)
        ensures items { self.new.items ≡ self.old.items }
        ensures resting { (other : ℕ) → rests other self.new.resting
            ≡ rests other self.old.resting || (other == origin && is_held origin self.old.items) }
        ensures had { self.new.had ≡ self.old.had }
        ensures spare { self.new.spare ≡ self.old.spare }
    {
        self.tickets.rest(origin);
    }

    /// The message of that origin rests no more. No memory is taken.
    pub fn rouse(&mut self, origin: PacketNo)
        ensures items { self.new.items ≡ self.old.items }
        ensures resting { (other : ℕ) → rests other self.new.resting
            ≡ rests other self.old.resting && not (other == origin) }
        ensures had { self.new.had ≡ self.old.had }
        ensures spare { self.new.spare ≡ self.old.spare }
    {
        self.tickets.rouse(origin);
    }

    /// Takes the message of that origin out. The others stay in their order, and nothing is noted of it.
    pub fn take_out(&mut self, origin: PacketNo) -> Option<HeldMessage>
        ensures taken { result ≡ found origin self.old.items }
        ensures others { self.new.items ≡ without origin self.old.items }
        ensures resting { (other : ℕ) → rests other self.new.resting
            ≡ rests other self.old.resting && not (other == origin) }
        ensures unseen { IfSome result (λ _taken. noted origin self.new.had ≡ 0) }
        ensures had { (other : ℕ) → other ≢ origin → noted other self.new.had ≡ noted other self.old.had }
        ensures spare { self.new.spare ≡ self.old.spare }
    {
        let place = self.place_of(origin)?;
        self.tickets.take_out(place);
        forget(&mut self.had, origin);
        self.list.remove(place)
    }

    /// How many of the first logs of the message of that origin are noted as had.
    pub fn had(&self, origin: PacketNo) -> usize
        ensures { result ≡ noted origin self.now.had }
    {
        match self.had.get(&origin) {
            Some(count) => *count,
            None => 0,
        }
    }

    /// Notes that so many of the first logs of the message of that origin are had. Where there is no memory for it,
    /// nothing more is noted.
    pub fn note(&mut self, origin: PacketNo, count: usize)
        ensures items { self.new.items ≡ self.old.items }
        ensures resting { self.new.resting ≡ self.old.resting }
        ensures had { (other : ℕ) → (noted other self.new.had ≡ noted other self.old.had)
            ⊎ ((other ≡ origin) × (noted other self.new.had ≡ count)) }
        ensures spare { self.new.spare ≡ self.old.spare }
    {
        // Without memory for it, what was noted before holds still.
        let _ = self.had.insert(origin, count);
    }

    /// Nothing is noted of any message from now on.
    pub fn forget_all(&mut self)
        ensures items { self.new.items ≡ self.old.items }
        ensures resting { self.new.resting ≡ self.old.resting }
        ensures had { (origin : ℕ) → noted origin self.new.had ≡ 0 }
        ensures spare { self.new.spare ≡ self.old.spare }
    {
        self.had.clear();
    }

    /// Drops the messages whose logs these replicas haven't all. The others stay in their order, and nothing is noted
    /// of them.
    pub fn drop_unready(&mut self, replicas: &[Option<Replica>])
        ensures items { self.new.items ≡ filter (is_ready replicas.now) self.old.items }
        ensures resting { (other : ℕ) → rests other self.new.resting
            ≡ rests other self.old.resting && is_held other self.new.items }
        ensures had { (origin : ℕ) → noted origin self.new.had ≡ 0 }
        ensures spare { self.new.spare ≡ self.old.spare }
    {
        self.had.clear();
        self.tickets.keep_ready(&self.list, replicas);
        self.list
            .retain(|held| are_had(replicas, held.message.logs.as_slice()));
    }
}

/// Nothing is noted of the message of that origin from now on.
fn forget(had: &mut HashMap<PacketNo, usize>, origin: PacketNo)
    ensures unseen { noted origin had.new.entries ≡ 0 }
    ensures others { (other : ℕ) → other ≢ origin → noted other had.new.entries ≡ noted other had.old.entries }
{
    had.remove(&origin);
}

/// The packet of a message was visited.
fn change(held: &mut HeldMessage, visited: Visited)
    ensures { held.new ≡ visited_by visited held.old }
{
    let Visited {
        packet,
        logs,
        needs,
    } = visited;
    held.visited = true;
    held.message.packet = packet;
    held.message.logs = logs;
    held.message.needs = needs;
}
