//! The replicas of the groups that a server is a later member of, by the number of the group.

ghost use Rattle.std.specs.Prelude.{◌≡◌, ◌≤◌, true, length, is_some, Some, option_map, OnOk, OnErr, slice_set};
ghost use Rattle.std.specs.List.{list_all};
ghost use Rattle.std.specs.Option.{option_copied};
ghost use Rattle.ftc_base.specs.declared.limits.TheConstants.{MOST_SERVERS};
ghost use Rattle.ftc_replica.specs.Held.{applied, pruned_by};
ghost use Rattle.ftc_server.specs.Replicas.{replica_at, has_log, is_had, may_apply_to, may_apply, may_rise_in};
ghost use Rattle.ftc_server.specs.Replicas.{with_applied, ArePruned, AreOfSame};

use ftc_base::limits::MOST_SERVERS;
use ftc_base::{NoMemory, ServerId};
use ftc_message::Log;
use ftc_replica::Replica;
use ftc_vector::{Commits, Vector, order_tests};

/// The replica of a group, where there is one.
pub fn replica_of(replicas: &[Option<Replica>], group: ServerId) -> Option<&Replica>
    ensures { option_copied result ≡ replica_at replicas.now group }
{
    let place = usize::from(group.number());
    if place < replicas.len() {
        replicas[place].as_ref()
    } else {
        None
    }
}

/// Whether a replica has a log.
fn has_log(replica: &Replica, log: &Log) -> bool
    ensures { result ≡ has_log (Some replica.now) log.now }
{
    order_tests();
    replica.has(log)
}

/// Whether the replica of its group has a log. Of a group without a replica here nothing is lacking.
pub fn is_had(replicas: &[Option<Replica>], log: &Log) -> bool
    ensures { result ≡ is_had replicas.now log.now }
{
    match replica_of(replicas, log.group()) {
        Some(replica) => has_log(replica, log),
        None => true,
    }
}

/// Whether the replicas of their groups have all logs.
pub fn are_had(replicas: &[Option<Replica>], logs: &[Log]) -> bool
    ensures { result ≡ list_all (is_had replicas.now) logs.now }
{
    logs.iter().all(|log| is_had(replicas, log))
}

/// Whether a log may be applied to a replica.
fn may_apply_to(replica: &Replica, log: &Log) -> bool
    ensures { result ≡ may_apply_to (Some replica.now) log.now }
{
    order_tests();
    replica.ready(log)
}

/// Whether a log may be applied to the replica of its group.
pub fn is_allowed(replicas: &[Option<Replica>], log: &Log) -> bool
    ensures { result ≡ may_apply_to (replica_at replicas.now log.now.group) log.now }
{
    match replica_of(replicas, log.group()) {
        Some(replica) => may_apply_to(replica, log),
        None => false,
    }
}

/// Whether a log writes something and may be applied to the replica of its group.
pub fn may_apply(replicas: &[Option<Replica>], log: &Log) -> bool
    ensures { result ≡ may_apply replicas.now log.now }
{
    !log.writes().is_empty() && is_allowed(replicas, log)
}

/// Applies a log to a replica.
fn apply_to(slot: &mut Option<Replica>, log: &Log) -> Result<(), NoMemory>
    requires ready { may_apply_to slot.old log.now ≡ true }
    requires rise { may_rise_in slot.old ≡ true }
    ensures ok { OnOk result (slot.new ≡ option_map (applied log.now) slot.old) }
    ensures err { OnErr result (slot.new ≡ slot.old) }
{
    order_tests();
    match slot {
        Some(replica) => replica.apply(log),
        None => Ok(()),
    }
}

/// Applies a log to the replica of its group.
pub fn apply(replicas: &mut Vec<Option<Replica>>, log: &Log) -> Result<(), NoMemory>
    requires ready { may_apply_to (replica_at replicas.old.items log.now.group) log.now ≡ true }
    requires rise { may_rise_in (replica_at replicas.old.items log.now.group) ≡ true }
    ensures ok { OnOk result (replicas.new.items ≡ with_applied replicas.old.items log.now) }
    ensures err { OnErr result (replicas.new.items ≡ replicas.old.items) }
    ensures members { AreOfSame replicas.old.items replicas.new.items }
{
    let place = usize::from(log.group().number());
    if place < replicas.len() {
        apply_to(&mut replicas[place], log)
    } else {
        Ok(())
    }
}

/// Drops the kept logs of a replica that the vector covers.
fn prune_one(slot: &mut Option<Replica>, vector: &Vector)
    ensures { slot.new ≡ option_map (pruned_by vector.now) slot.old }
{
    match slot {
        Some(replica) => replica.prune(vector),
        None => {}
    }
}

/// Drops the kept logs that are known at the tails of their groups.
pub fn prune(replicas: &mut Vec<Option<Replica>>, known: &Commits)
    requires { length replicas.old.items ≤ MOST_SERVERS }
    ensures pruned { ArePruned known.now replicas.old.items replicas.new.items }
    ensures members { AreOfSame replicas.old.items replicas.new.items }
{
    for number in 0..MOST_SERVERS {
        let group = ServerId::new(number).unwrap();
        let place = usize::from(number);
        if place < replicas.len() {
            prune_one(&mut replicas[place], known.of(group));
        }
    }
}

/// Puts a replica in place of that of its group.
pub fn put(replicas: &mut Vec<Option<Replica>>, group: ServerId, replica: Replica)
    requires { is_some (replica_at replicas.old.items group) ≡ true }
    ensures put { replicas.new.items ≡ slice_set replicas.old.items group (Some replica) }
    ensures members { AreOfSame replicas.old.items replicas.new.items }
{
    replicas[usize::from(group.number())] = Some(replica);
}
