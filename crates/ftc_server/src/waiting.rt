//! What logs wait for that can't be applied yet.

ghost use Rattle.std.specs.Prelude.{◌≡◌, ◌≤◌, ◌<◌, ◌++◌, ◌==◌, ◌&&◌, ◌||◌, ◌∷◌, ◌+◌, [], ℕ, Some, IfSome, length, true};
ghost use Rattle.std.specs.List.{flat_map, list_any, list_all};
ghost use Rattle.ftc_base.specs.declared.limits.TheConstants.{MOST_PARTITIONS};
ghost use Rattle.ftc_server.specs.Holding.{found, rests};
ghost use Rattle.ftc_server.specs.Replicas.{replica_at, has_first};
ghost use Rattle.ftc_server.specs.Waiting.{ahead_of, is_ahead, is_had_or_ahead, wait_of, waits_of, is_idle};
ghost use Rattle.ftc_server.specs.Waiting.{is_idle_one, is_ahead_at, AreHadBefore};

use crate::held::{HeldMessage, HeldMessages};
use crate::noting::logs_behind;
use crate::replicas::{is_had, replica_of};
use ftc_base::PacketNo;
use ftc_message::Log;
use ftc_replica::{Replica, Wait, Waits};
use ftc_vector::Vector;

/// Whether a vector is below the number that a log carries for a partition.
fn is_ahead_at(vector: &Vector, log: &Log, partition: u8) -> bool
    requires { partition < MOST_PARTITIONS }
    ensures { result ≡ is_ahead_at vector.now log.now partition }
{
    match log.before().at(partition) {
        Some(carried) => vector.at(partition) < carried,
        None => false,
    }
}

/// The first partition for which a log carries a number that the replica hasn't reached.
fn ahead_of(replica: &Replica, log: &Log) -> Option<u8>
    ensures first { result ≡ ahead_of (Some replica.now) log.now }
    ensures within { IfSome result (λ partition. partition < MOST_PARTITIONS) }
{
    let vector = replica.vector();
    for partition in 0..log.before().end() {
        if is_ahead_at(vector, log, partition) {
            return Some(partition);
        }
    }
    None
}

/// What a log of the message of that packet waits for.
pub fn wait_of(replicas: &[Option<Replica>], packet: PacketNo, log: &Log) -> Option<Wait>
    ensures { result ≡ wait_of replicas.now packet log.now }
{
    let replica = replica_of(replicas, log.group())?;
    let partition = ahead_of(replica, log)?;
    let number = log.before().at(partition)?;
    Some(Wait {
        group: log.group(),
        partition,
        number,
        origin: log.origin(),
        packet,
    })
}

/// Whether a log carries a number that the replica of its group hasn't reached.
fn is_ahead(replicas: &[Option<Replica>], log: &Log) -> bool
    ensures { result ≡ is_ahead replicas.now log.now }
{
    match replica_of(replicas, log.group()) {
        Some(replica) => ahead_of(replica, log).is_some(),
        None => false,
    }
}

/// Adds a wait, for which there is room.
pub fn add(waits: &mut Waits, wait: Wait)
    requires { 1 ≤ waits.old.spare }
    ensures items { waits.new.items ≡ waits.old.items ++ wait ∷ [] }
    ensures spare { waits.old.spare ≤ waits.new.spare + 1 }
{
    if waits.add(wait).is_err() {
        unreachable!()
    }
}

/// Adds the wait of a log that is ahead. There is room for it.
fn watch_one(waits: &mut Waits, replicas: &[Option<Replica>], packet: PacketNo, log: &Log)
    requires { 1 ≤ waits.old.spare }
    ensures items { waits.new.items ≡ waits.old.items ++ waits_of replicas.now packet log.now }
    ensures spare { waits.old.spare ≤ waits.new.spare + 1 }
{
    if let Some(wait) = wait_of(replicas, packet, log) {
        add(waits, wait);
    }
}

/// Adds the wait of each log that is ahead. There is room for them.
pub fn watch(waits: &mut Waits, replicas: &[Option<Replica>], packet: PacketNo, logs: &[Log])
    requires { length logs.now ≤ waits.old.spare }
    ensures items { waits.new.items ≡ waits.old.items ++ flat_map (waits_of replicas.now packet) logs.now }
    ensures spare { waits.old.spare ≤ waits.new.spare + length logs.now }
{
    for log in logs {
        watch_one(waits, replicas, packet, log);
    }
}

/// Whether a log is had or ahead.
fn is_had_or_ahead(replicas: &[Option<Replica>], log: &Log) -> bool
    ensures { result ≡ is_had_or_ahead replicas.now log.now }
{
    is_had(replicas, log) || is_ahead(replicas, log)
}

/// Whether some log is ahead.
fn is_some_ahead(replicas: &[Option<Replica>], logs: &[Log]) -> bool
    ensures { result ≡ list_any (is_ahead replicas.now) logs.now }
{
    logs.iter().any(|log| is_ahead(replicas, log))
}

/// Whether each log is had or ahead.
fn are_had_or_ahead(replicas: &[Option<Replica>], logs: &[Log]) -> bool
    ensures { result ≡ list_all (is_had_or_ahead replicas.now) logs.now }
{
    logs.iter().all(|log| is_had_or_ahead(replicas, log))
}

/// Whether some log of a held message is ahead, and so is each that is lacking. So many of its first logs are had.
fn is_idle(replicas: &[Option<Replica>], held: &HeldMessage, had: usize) -> bool
    requires { has_first replicas.now had held.now.message.logs ≡ true }
    ensures { result ≡ is_idle replicas.now held.now.message.logs }
{
    let logs = logs_behind(held, had);
    // Mostly the first of them may be applied, so that one look tells it.
    are_had_or_ahead(replicas, logs) && is_some_ahead(replicas, logs)
}

/// A held message is passed over from now on where all that it lacks is ahead.
pub fn settle(held: &mut HeldMessages, replicas: &[Option<Replica>], origin: PacketNo)
    requires { AreHadBefore replicas.now held.old.items held.old.had }
    ensures items { held.new.items ≡ held.old.items }
    ensures spare { held.new.spare ≡ held.old.spare }
    ensures had { held.new.had ≡ held.old.had }
    ensures resting { (other : ℕ) → rests other held.new.resting
        ≡ rests other held.old.resting
        || (other == origin && is_idle_one replicas.now (found origin held.old.items)) }
{
    let is_idle = match held.get(origin) {
        Some(found) => is_idle(replicas, found, held.had(origin)),
        None => false,
    };
    if is_idle {
        held.rest(origin);
    }
}
