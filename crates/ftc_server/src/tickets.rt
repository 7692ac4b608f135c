//! The tickets of the held messages, by which each message is found without a walk.

ghost use Rattle.std.specs.Prelude.{◌≡◌, ◌≤◌, ◌<◌, ◌+◌, ◌++◌, ◌==◌, ◌&&◌, ◌||◌, ℕ, [], ◌∷◌, Some, not, length, false};
ghost use Rattle.std.specs.Prelude.{OnOk, IsOk, IsNone, nat_eq, max, slice_get, slice_index, filter, None};
ghost use Rattle.std.specs.Prelude.{if◌then◌else◌};
ghost use Rattle.std.specs.List.{position, remove};
ghost use Rattle.std.specs.Map.{lookup};
ghost use Rattle.std.specs.HashMap.{spare as map_spare};
ghost use Rattle.ftc_server.specs.Holding.{rests, origins_of, is_held};
ghost use Rattle.ftc_server.specs.Replicas.{is_ready, lacks_log};
ghost use Rattle.ftc_server.specs.Tickets.{is_same, is_among, awake_places, AreDistinct};

use crate::held::HeldMessage;
use crate::numbering::{list_awake, place_of_number, put_number, take_number};
use crate::replicas::are_had;
use ftc_base::{NoMemory, PacketNo};
use ftc_replica::Replica;
use std::alloc::Global;
use std::collections::{HashMap, VecDeque};
use std::marker::Model;

/// The ticket of a held message. The numbers rise in the order of taking.
#[derive(Clone, Copy, Debug)]
pub(crate) struct Ticket {
    pub(crate) number: u64,
    pub(crate) origin: PacketNo,
    /// Whether the message is passed over where one with work is looked for.
    pub(crate) rests: bool,
}

/// The tickets in the order of taking. A contract sees the origins of the messages, which of them rest, and for how
/// many more there is room.
#[derive(Debug, Drop)]
pub(crate) struct Tickets {
    list: VecDeque<Ticket>,
    /// The number of each ticket, by its origin.
    by_origin: HashMap<PacketNo, u64>,
    /// The numbers of those that don't rest, rising.
    awake: VecDeque<u64>,
    /// The number of the next one. None is handed out twice.
    next: u64,
    /// For how many more there is room, and numbers are left.
    spare: usize,
}

impl Model for Tickets {
    ghost use Rattle.std.specs.Prelude.{nat_eq};
    ghost use Rattle.std.specs.Map.{lookup};
    ghost use Rattle.std.specs.HashMap.{spare as map_spare};
    ghost use Rattle.std.specs.VecDeque.{deque_len, deque_capacity};
    ghost use Rattle.ftc_server.specs.Tickets.{Ticketing, ticket_origins, resting_origins};
    ghost use Rattle.ftc_server.specs.Tickets.{AreTickets, HasRoom, numbers_left};

    ghost Value = { Ticketing };

    ghost view = { λ tickets. record {
      origins = ticket_origins tickets.list.items;
      resting = resting_origins tickets.list.items;
      spare = tickets.spare;
    } };

    ghost invariant = { λ tickets.
        AreTickets tickets.list.items (λ origin. lookup (nat_eq origin) tickets.by_origin.entries)
        tickets.awake.items tickets.next
        × HasRoom tickets.spare (deque_len tickets.list) (deque_capacity tickets.list) (deque_capacity tickets.awake)
        (map_spare tickets.by_origin) (numbers_left tickets.next) };
}

/// Forgets the numbers of the messages whose logs these replicas haven't all.
fn forget_unready(
    by_origin: &mut HashMap<PacketNo, u64>,
    list: &VecDeque<HeldMessage>,
    replicas: &[Option<Replica>],
)
    ensures numbers { (origin : ℕ) → lookup (nat_eq origin) by_origin.new.entries
        ≡ (if is_held origin (filter (lacks_log replicas.now) list.now.items) then None
        else lookup (nat_eq origin) by_origin.old.entries) }
    ensures room { map_spare by_origin.old ≤ map_spare by_origin.new }
{
    for place in 0..list.len() {
        let held = &list[place];
        if !are_had(replicas, held.message.logs.as_slice()) {
            by_origin.remove(&held.message.origin);
        }
    }
}

impl Tickets {
    /// No message is held.
    pub(crate) fn new(alloc: Global) -> Tickets
        ensures origins { result.origins ≡ [] }
        ensures resting { result.resting ≡ [] }
        ensures spare { result.spare ≡ 0 }
    {
        Tickets {
            list: VecDeque::new(alloc),
            by_origin: HashMap::new(alloc),
            awake: VecDeque::new(alloc),
            next: 0,
            spare: 0,
        }
    }

    /// How many messages are held. No two of them have one origin.
    pub(crate) fn len(&self) -> usize
        ensures size { result ≡ length self.now.origins }
        ensures distinct { AreDistinct self.now.origins }
    {
        self.list.len()
    }

    /// Where the message of that origin stands.
    pub(crate) fn place_of(&self, origin: PacketNo) -> Option<usize>
        ensures place { result ≡ position (is_same origin) self.now.origins }
        ensures none { IsNone result → rests origin self.now.resting ≡ false }
    {
        let first = self.list.front()?;
        // Mostly the first one is asked for.
        if first.origin == origin {
            return Some(0);
        }
        let number = *self.by_origin.get(&origin)?;
        place_of_number(&self.list, number)
    }

    /// How many messages don't rest.
    pub(crate) fn awake(&self) -> usize
        ensures { result ≡ length (awake_places self.now) }
    {
        self.awake.len()
    }

    /// Where one of those stands that don't rest.
    pub(crate) fn awake_at(&self, nth: usize) -> usize
        requires { nth < length (awake_places self.now) }
        ensures { slice_get (awake_places self.now) nth ≡ Some result }
    {
        match place_of_number(&self.list, self.awake[nth]) {
            Some(place) => place,
            None => unreachable!(),
        }
    }

    /// Makes room for so many more.
    pub(crate) fn reserve(&mut self, count: usize) -> Result<(), NoMemory>
        ensures ok { OnOk result (count ≤ self.new.spare) }
        ensures origins { self.new.origins ≡ self.old.origins }
        ensures resting { self.new.resting ≡ self.old.resting }
        ensures spare { self.old.spare ≤ self.new.spare }
        ensures most { self.new.spare ≤ max self.old.spare count }
        ensures succeeds { count ≤ self.old.spare → IsOk result }
    {
        if count <= self.spare {
            return Ok(());
        }
        if u64::MAX - self.next < count as u64 {
            return Err(NoMemory);
        }
        self.list.reserve(count)?;
        self.by_origin.reserve(count)?;
        let sleepers = self.list.len() - self.awake.len();
        self.awake.reserve(sleepers + count)?;
        self.spare = count;
        Ok(())
    }

    /// One more message is held, behind the others. It doesn't rest.
    pub(crate) fn add(&mut self, origin: PacketNo)
        requires room { 1 ≤ self.old.spare }
        requires new { is_among origin self.old.origins ≡ false }
        ensures origins { self.new.origins ≡ self.old.origins ++ origin ∷ [] }
        ensures resting { self.new.resting ≡ self.old.resting }
        ensures awake { rests origin self.new.resting ≡ false }
        ensures spare { self.new.spare + 1 ≡ self.old.spare }
    {
        let number = self.next;
        self.list.push_back_reserved(Ticket {
            number,
            origin,
            rests: false,
        });
        self.awake.push_back_reserved(number);
        let put: Result<_, _> = self.by_origin.insert(origin, number);
        let _ = put.unwrap();
        self.next += 1;
        self.spare -= 1;
    }

    /// The message at a place is taken out.
    pub(crate) fn take_out(&mut self, place: usize)
        requires { place < length self.old.origins }
        ensures origins { self.new.origins ≡ remove self.old.origins place }
        ensures resting { (other : ℕ) → rests other self.new.resting
            ≡ rests other self.old.resting && not (other == slice_index self.old.origins place) }
        ensures spare { self.new.spare ≡ self.old.spare }
    {
        let Some(ticket) = self.list.remove(place) else {
            unreachable!()
        };
        self.by_origin.remove(&ticket.origin);
        take_number(&mut self.awake, ticket.number);
    }

    /// Only the messages whose logs these replicas have are held on. The list has all that were held before.
    pub(crate) fn keep_ready(&mut self, list: &VecDeque<HeldMessage>, replicas: &[Option<Replica>])
        requires { self.old.origins ≡ origins_of list.now.items }
        ensures origins { self.new.origins ≡ origins_of (filter (is_ready replicas.now) list.now.items) }
        ensures resting { (other : ℕ) → rests other self.new.resting
            ≡ rests other self.old.resting && is_among other self.new.origins }
        ensures spare { self.new.spare ≡ self.old.spare }
    {
        forget_unready(&mut self.by_origin, list, replicas);
        let by_origin = &self.by_origin;
        self.list
            .retain(|ticket| by_origin.contains_key(&ticket.origin));
        list_awake(&mut self.awake, &self.list);
    }

    /// The message of that origin rests.
    pub(crate) fn rest(&mut self, origin: PacketNo)
        ensures origins { self.new.origins ≡ self.old.origins }
        ensures resting { (other : ℕ) → rests other self.new.resting
            ≡ rests other self.old.resting || (other == origin && is_among origin self.old.origins) }
        ensures spare { self.new.spare ≡ self.old.spare }
    {
        let Some(place) = self.place_of(origin) else {
            return;
        };
        let number = self.list[place].number;
        self.list[place].rests = true;
        take_number(&mut self.awake, number);
    }

    /// The message of that origin rests no more.
    pub(crate) fn rouse(&mut self, origin: PacketNo)
        ensures origins { self.new.origins ≡ self.old.origins }
        ensures resting { (other : ℕ) → rests other self.new.resting
            ≡ rests other self.old.resting && not (other == origin) }
        ensures spare { self.new.spare ≡ self.old.spare }
    {
        let Some(place) = self.place_of(origin) else {
            return;
        };
        let ticket = self.list[place];
        if !ticket.rests {
            return;
        }
        self.list[place].rests = false;
        put_number(&mut self.awake, ticket.number);
    }
}
