//! A server that begins anew, with what the two live servers next to it have.

ghost use Rattle.std.specs.Prelude.{◌≡◌, ◌≤◌, ◌<◌, ◌++◌, IfOk, OnOk};
ghost use Rattle.ftc_base.specs.declared.limits.TheConstants.{MOST_PARTITIONS};
ghost use Rattle.ftc_server.specs.Looks.{replica_in};
ghost use Rattle.ftc_network.specs.Reviving.{got_of, fetched_of, all_fetched, IsAnew};

use ftc_base::{NoMemory, ServerId};
use ftc_mbox::Rule;
use ftc_recover::fetch_one;
use ftc_replica::Replica;
use ftc_ring::Ring;
use ftc_server::{GroupReplica, GroupReplicas, Server};
use std::alloc::Global;

/// A copy of what a server has of a group.
fn fetched(alloc: Global, from: &Server, group: ServerId) -> Result<Replica, NoMemory>
    ensures { IfOk result (λ replica. replica ≡ replica_in from.now group) }
{
    fetch_one(
        alloc,
        from.store_of(group),
        from.vector_of(group),
        from.kept_of(group),
    )
}

/// What a new server gets of a group: what the live server before has, where the group's head lies up to that one, and
/// else what the live server after has.
fn got(
    alloc: Global,
    ring: &Ring,
    server: ServerId,
    group: ServerId,
    previous: &Server,
    following: &Server,
) -> Result<Replica, NoMemory>
    requires server { server < ring.now.servers }
    requires group { group < ring.now.servers }
    requires previous { previous.now.id < ring.now.servers }
    ensures { IfOk result (λ replica. replica ≡ got_of ring.now server previous.now following.now group) }
{
    if ring.is_from_before(previous.id, group, server) {
        fetched(alloc, previous, group)
    } else {
        fetched(alloc, following, group)
    }
}

/// What a new server gets of one more group, where it is a later member of it.
fn add_group(
    replicas: &mut GroupReplicas,
    alloc: Global,
    ring: &Ring,
    server: ServerId,
    group: ServerId,
    previous: &Server,
    following: &Server,
) -> Result<(), NoMemory>
    requires server { server < ring.now.servers }
    requires group { group < ring.now.servers }
    requires previous { previous.now.id < ring.now.servers }
    ensures { OnOk result
        (replicas.new ≡ replicas.old ++ fetched_of ring.now server previous.now following.now group) }
{
    if ring.is_later_member(group, server) {
        let replica = got(alloc, ring, server, group, previous, following)?;
        replicas.push(GroupReplica { group, replica })?;
    }
    Ok(())
}

/// What a new server gets of the groups that it is a later member of.
fn got_all(
    alloc: Global,
    ring: &Ring,
    server: ServerId,
    previous: &Server,
    following: &Server,
) -> Result<GroupReplicas, NoMemory>
    requires server { server < ring.now.servers }
    requires previous { previous.now.id < ring.now.servers }
    ensures { IfOk result
        (λ replicas. replicas ≡ all_fetched ring.now server previous.now following.now) }
{
    let mut replicas = GroupReplicas::new(alloc);
    for number in 0..ring.servers() {
        let group = ServerId::new(number).unwrap();
        add_group(
            &mut replicas,
            alloc,
            ring,
            server,
            group,
            previous,
            following,
        )?;
    }
    Ok(replicas)
}

/// A server that begins anew between two live ones.
pub fn revived(
    alloc: Global,
    ring: &Ring,
    server: ServerId,
    rule: &Rule,
    partitions: u8,
    previous: &Server,
    following: &Server,
) -> Result<Server, NoMemory>
    requires server { server < ring.now.servers }
    requires previous { previous.now.id < ring.now.servers }
    requires some { 1 ≤ partitions }
    requires within { partitions ≤ MOST_PARTITIONS }
    requires own { (got_of ring.now server previous.now following.now server).partitions ≡ partitions }
    ensures { IfOk result (IsAnew ring.now server rule.now partitions previous.now following.now) }
{
    let own = got(alloc, ring, server, server, previous, following)?;
    let others = got_all(alloc, ring, server, previous, following)?;
    let mut known = previous.known().copy(alloc)?;
    known.merge(following.known());
    Server::revive(alloc, ring, server, rule, partitions, own, others, known)
}
