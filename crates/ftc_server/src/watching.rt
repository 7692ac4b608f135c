//! What the logs of all held messages wait for, found anew.

ghost use Rattle.std.specs.Prelude.{◌≡◌, ◌≤◌, ◌++◌, true, length, IfOk};
ghost use Rattle.std.specs.List.{list_all};
ghost use Rattle.ftc_server.specs.Waiting.{logs_of_all, waits_of_all, is_settled, AreHadBefore};

use crate::held::HeldMessages;
use crate::waiting::{settle, watch};
use ftc_base::NoMemory;
use ftc_replica::{Replica, Waits};

/// How many logs the held messages have together.
pub fn count_logs(held: &HeldMessages) -> Result<usize, NoMemory>
    ensures { IfOk result (λ count. count ≡ length (logs_of_all held.now.items)) }
{
    let mut count: usize = 0;
    for found in held.iter() {
        let Some(sum) = count.checked_add(found.message.logs.len()) else {
            return Err(NoMemory);
        };
        count = sum;
    }
    Ok(count)
}

/// Adds the wait of each log of a held message that is ahead. There is room for them.
pub fn watch_all(waits: &mut Waits, held: &HeldMessages, replicas: &[Option<Replica>])
    requires { length (logs_of_all held.now.items) ≤ waits.old.spare }
    ensures { waits.new.items ≡ waits.old.items ++ waits_of_all replicas.now held.now.items }
{
    for found in held.iter() {
        watch(
            waits,
            replicas,
            found.message.origin,
            found.message.logs.as_slice(),
        );
    }
}

/// Each held message is looked at anew: it is passed over from now on only where all that it lacks is ahead.
pub fn settle_all(held: &mut HeldMessages, replicas: &[Option<Replica>])
    requires { AreHadBefore replicas.now held.old.items held.old.had }
    ensures items { held.new.items ≡ held.old.items }
    ensures spare { held.new.spare ≡ held.old.spare }
    ensures had { held.new.had ≡ held.old.had }
    ensures resting { list_all (is_settled replicas.now held.new.resting) held.new.items ≡ true }
{
    for place in 0..held.len() {
        let origin = held.at(place).message.origin;
        held.rouse(origin);
        settle(held, replicas, origin);
    }
}
