//! Logs that waited go on where what they waited for has come.

ghost use Rattle.std.specs.Prelude.{◌≡◌, ◌≤◌, ◌<◌, ◌++◌, ℕ, true, false, not, None, Some, find, filter, length, IsTrue};
ghost use Rattle.std.specs.List.{list_all};
ghost use Rattle.ftc_replica.specs.declared.waits.Wait.{Wait};
ghost use Rattle.ftc_replica.specs.Waiting.{waits_for};
ghost use Rattle.ftc_server.specs.Holding.{found};
ghost use Rattle.ftc_server.specs.Looks.{log_of};
ghost use Rattle.ftc_server.specs.Replicas.{replica_at};
ghost use Rattle.ftc_server.specs.Waiting.{AreWatched, has_reached, is_reached, wait_of_found, one_or_none, StaysWhere};
ghost use Rattle.ftc_server.specs.Waiting.{number_in, is_due, is_unreached};

use crate::held::HeldMessages;
use crate::replicas::replica_of;
use crate::waiting::{add, wait_of};
use ftc_base::limits::MOST_PARTITIONS;
use ftc_base::{PartSet, ServerId};
use ftc_replica::{Replica, Wait, Waits};

/// What the log of a wait waits for by now.
fn wait_again(held: &HeldMessages, replicas: &[Option<Replica>], wait: &Wait) -> Option<Wait>
    ensures { result ≡ wait_of_found replicas.now wait.now.packet
        (log_of wait.now.group wait.now.origin (found wait.now.packet held.now.items)) }
{
    let found = held.get(wait.packet)?;
    let log = found.message.logs.find(wait.origin, wait.group)?;
    wait_of(replicas, wait.packet, log)
}

/// The log of a wait that is over waits for another number, where it is still ahead.
fn watch_again(waits: &mut Waits, held: &HeldMessages, replicas: &[Option<Replica>], wait: &Wait)
    requires { 1 ≤ waits.old.spare }
    ensures { waits.new.items ≡ waits.old.items ++ one_or_none (wait_of_found replicas.now wait.now.packet
        (log_of wait.now.group wait.now.origin (found wait.now.packet held.now.items))) }
{
    if let Some(next) = wait_again(held, replicas, wait) {
        add(waits, next);
    }
}

/// The first log that waits for that number, which is reached, waits no more, or for another number. Its message is
/// looked at again. False where none waits for it.
fn wake_one(
    waits: &mut Waits,
    held: &mut HeldMessages,
    replicas: &[Option<Replica>],
    group: ServerId,
    partition: u8,
    number: u64,
) -> bool
    requires reached { has_reached (replica_at replicas.now group) partition number ≡ true }
    requires watched { AreWatched replicas.now held.old.items held.old.resting waits.old.items }
    ensures watched { AreWatched replicas.now held.new.items held.new.resting waits.new.items }
    ensures items { held.new.items ≡ held.old.items }
    ensures spare { held.new.spare ≡ held.old.spare }
    ensures had { held.new.had ≡ held.old.had }
    ensures others { StaysWhere replicas.now waits.old.items waits.new.items }
    ensures fewer { result ≡ true → length (filter (waits_for group partition number) waits.new.items)
        < length (filter (waits_for group partition number) waits.old.items) }
    ensures none { result ≡ false → find (waits_for group partition number) waits.new.items ≡ None }
{
    let Some(wait) = waits.wake(group, partition, number) else {
        return false;
    };
    held.rouse(wait.packet);
    watch_again(waits, held, replicas, &wait);
    true
}

/// All logs that wait for that number, which is reached, wait no more, or for other numbers.
fn wake_all(
    waits: &mut Waits,
    held: &mut HeldMessages,
    replicas: &[Option<Replica>],
    group: ServerId,
    partition: u8,
    number: u64,
)
    requires reached { has_reached (replica_at replicas.now group) partition number ≡ true }
    requires watched { AreWatched replicas.now held.old.items held.old.resting waits.old.items }
    ensures watched { AreWatched replicas.now held.new.items held.new.resting waits.new.items }
    ensures items { held.new.items ≡ held.old.items }
    ensures spare { held.new.spare ≡ held.old.spare }
    ensures had { held.new.had ≡ held.old.had }
    ensures others { StaysWhere replicas.now waits.old.items waits.new.items }
    ensures none { find (waits_for group partition number) waits.new.items ≡ None }
{
    while wake_one(waits, held, replicas, group, partition, number) {}
}

/// The number that the replica of a group has for a partition.
fn number_of(replicas: &[Option<Replica>], group: ServerId, partition: u8) -> u64
    requires { partition < MOST_PARTITIONS }
    ensures { result ≡ number_in (replica_at replicas.now group) partition }
{
    match replica_of(replicas, group) {
        Some(replica) => replica.vector().at(partition),
        None => 0,
    }
}

/// The logs that waited for the numbers that these partitions of a group have since they were changed wait no more,
/// or for other numbers. Nothing else that is waited for is reached.
pub fn wake_changed(
    waits: &mut Waits,
    held: &mut HeldMessages,
    replicas: &[Option<Replica>],
    group: ServerId,
    changed: PartSet,
)
    requires watched { AreWatched replicas.now held.old.items held.old.resting waits.old.items }
    requires due { list_all (is_due replicas.now group changed 0) waits.old.items ≡ true }
    ensures watched { AreWatched replicas.now held.new.items held.new.resting waits.new.items }
    ensures items { held.new.items ≡ held.old.items }
    ensures spare { held.new.spare ≡ held.old.spare }
    ensures had { held.new.had ≡ held.old.had }
    ensures unreached { list_all (is_unreached replicas.now) waits.new.items ≡ true }
{
    if waits.is_empty() {
        return;
    }
    for partition in 0..MOST_PARTITIONS {
        if changed.has(partition) {
            let number = number_of(replicas, group, partition);
            wake_all(waits, held, replicas, group, partition, number);
        }
    }
}
