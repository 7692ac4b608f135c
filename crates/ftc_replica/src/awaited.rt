//! The numbers that are waited for.

ghost use Rattle.std.specs.Prelude.{◌≡◌, ◌<◌, ◌+◌, ◌^◌, IsTrue, IfSome, if◌then◌else◌};
ghost use Rattle.std.specs.HashMap.{spare};
ghost use Rattle.ftc_replica.specs.Awaited.{same_number, found, looks_from, noted, taken_off};

use std::collections::HashMap;

/// A number of a partition of a group.
#[derive(Clone, Copy, Debug, PartialEq, Eq, Hash)]
pub struct Number {
    pub group: u8,
    pub partition: u8,
    pub number: u64,
}

/// The waits for one number.
#[derive(Clone, Copy, Debug)]
pub struct Queue {
    pub count: usize,
    /// Each of them has this ticket or a higher one.
    pub from: u64,
}

/// The ticket from which on to look for the first that waits for a number. None where none waits for it.
pub fn look_from(numbers: &HashMap<Number, Queue>, is_noted: bool, number: &Number) -> Option<u64>
    ensures { result ≡ looks_from is_noted (found numbers.now.entries number.now) }
{
    if !is_noted {
        return Some(0);
    }
    let queue = numbers.get(number)?;
    Some(queue.from)
}

/// Notes one more wait for a number. Where the number isn't noted yet, the wait has that ticket, and else it has no
/// lower one than those before it. False where there is no memory for it.
pub fn note(numbers: &mut HashMap<Number, Queue>, number: Number, ticket: u64) -> bool
    ensures noted { IsTrue result → (other : Number) → found numbers.new.entries other
        ≡ (if same_number number other then noted ticket (found numbers.old.entries other)
        else found numbers.old.entries other) }
    ensures room { 0 < spare numbers.old
        → IfSome (found numbers.old.entries number) (λ queue. queue.count + 1 < 2 ^ 64) → IsTrue result }
{
    let queue = match numbers.get(&number) {
        None => Queue {
            count: 1,
            from: ticket,
        },
        Some(queue) if queue.count < usize::MAX => Queue {
            count: queue.count + 1,
            from: queue.from,
        },
        Some(_) => return false,
    };
    numbers.insert(number, queue).is_ok()
}

/// Takes off the first wait for a number. It had that ticket, and the others have no lower one.
pub fn take_off(numbers: &mut HashMap<Number, Queue>, number: Number, ticket: u64)
    ensures { (other : Number) → found numbers.new.entries other
        ≡ (if same_number number other then taken_off ticket (found numbers.old.entries other)
        else found numbers.old.entries other) }
{
    let count = numbers.get(&number).map_or(0, |queue| queue.count);
    if count > 1 {
        let queue = Queue {
            count: count - 1,
            from: ticket,
        };
        // The number is there, so this takes no memory.
        let _ = numbers.insert(number, queue);
    } else {
        let _ = numbers.remove(&number);
    }
}
