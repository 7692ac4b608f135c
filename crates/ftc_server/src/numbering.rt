//! Numbers that rise, among which each is found without a walk.

ghost use Rattle.std.specs.Prelude.{◌≡◌, ◌≤◌, ◌<◌, ◌+◌, true, false, length};
ghost use Rattle.std.specs.List.{list_any, position};
ghost use Rattle.std.specs.VecDeque.{deque_len, deque_capacity};
ghost use Rattle.ftc_server.specs.Tickets.{AreRising, awake_numbers, is_among, is_numbered, ticket_numbers};
ghost use Rattle.ftc_server.specs.Tickets.{with_number, without_number};

use crate::tickets::Ticket;
use std::collections::VecDeque;

/// Where the ticket of that number stands.
pub(crate) fn place_of_number(tickets: &VecDeque<Ticket>, number: u64) -> Option<usize>
    requires { AreRising 0 (ticket_numbers tickets.now.items) }
    ensures { result ≡ position (is_numbered number) tickets.now.items }
{
    tickets
        .binary_search_by_key(&number, |ticket| ticket.number)
        .ok()
}

/// Takes a number out, where it is there.
pub(crate) fn take_number(numbers: &mut VecDeque<u64>, number: u64)
    requires { AreRising 0 numbers.old.items }
    ensures items { numbers.new.items ≡ without_number number numbers.old.items }
    ensures capacity { deque_capacity numbers.new ≡ deque_capacity numbers.old }
{
    if let Ok(place) = numbers.binary_search(&number) {
        let _ = numbers.remove(place);
    }
}

/// Puts one more number in its place. There is room for it.
pub(crate) fn put_number(numbers: &mut VecDeque<u64>, number: u64)
    requires rising { AreRising 0 numbers.old.items }
    requires new { is_among number numbers.old.items ≡ false }
    requires room { deque_len numbers.old < deque_capacity numbers.old }
    ensures items { numbers.new.items ≡ with_number number numbers.old.items }
    ensures capacity { deque_capacity numbers.old ≤ deque_capacity numbers.new }
{
    if let Err(place) = numbers.binary_search(&number) {
        let _ = numbers.insert(place, number);
    }
}

/// The numbers of the tickets that don't rest. There is room for all.
pub(crate) fn list_awake(numbers: &mut VecDeque<u64>, tickets: &VecDeque<Ticket>)
    requires { deque_len tickets.now ≤ deque_capacity numbers.old }
    ensures items { numbers.new.items ≡ awake_numbers tickets.now.items }
    ensures capacity { deque_capacity numbers.new ≡ deque_capacity numbers.old }
{
    numbers.clear();
    for place in 0..tickets.len() {
        let ticket = &tickets[place];
        if !ticket.rests {
            numbers.push_back_reserved(ticket.number);
        }
    }
}
