//! A server at the start of a chain, and one that begins anew.

ghost use Rattle.std.specs.Prelude.{◌≡◌, ◌≤◌, ◌<◌, ◌==◌, ℕ, true, [], None, Some, length, is_some, IfOk, IfSome};
ghost use Rattle.std.specs.List.{list_all};
ghost use Rattle.ftc_base.specs.declared.limits.TheConstants.{MOST_PARTITIONS};
ghost use Rattle.ftc_server.specs.Replicas.{replica_at};
ghost use Rattle.ftc_server.specs.Standing.{is_later_member};
ghost use Rattle.ftc_server.specs.Steps.{IsOpening, IsRevived, HasLearnt, is_of_later, empty_held, empty_at};

use crate::held::HeldMessages;
use crate::recovering::GroupReplicas;
use crate::server::Server;
use crate::standing::learn;
use ftc_base::{NoMemory, ServerId};
use ftc_edge::{Buffer, Forwarder};
use ftc_mbox::Rule;
use ftc_replica::{Kept, Replica, Waits};
use ftc_ring::Ring;
use ftc_txn::Head;
use ftc_vector::Commits;
use std::alloc::Global;

/// The replica of a group to which nothing was applied yet, where the server is a later member of the group.
fn empty_at(
    alloc: Global,
    ring: &Ring,
    group: ServerId,
    id: ServerId,
    partitions: u8,
) -> Option<Replica>
    requires group { group < ring.now.servers }
    requires id { id < ring.now.servers }
    requires some { 1 ≤ partitions }
    requires within { partitions ≤ MOST_PARTITIONS }
    ensures { result ≡ empty_at ring.now id partitions group }
{
    if ring.is_later_member(group, id) {
        Some(Replica::new(alloc, partitions))
    } else {
        None
    }
}

/// The replicas of all groups, to which nothing was applied yet.
fn empty_replicas(
    alloc: Global,
    ring: &Ring,
    id: ServerId,
    partitions: u8,
) -> Result<Vec<Option<Replica>>, NoMemory>
    requires id { id < ring.now.servers }
    requires some { 1 ≤ partitions }
    requires within { partitions ≤ MOST_PARTITIONS }
    ensures size { IfOk result (λ replicas. length replicas.items ≡ ring.now.servers) }
    ensures each { IfOk result (λ replicas. (group : ℕ) → group < ring.now.servers →
        replica_at replicas.items group ≡ empty_at ring.now id partitions group) }
{
    let mut replicas = Vec::new(alloc);
    for number in 0..ring.servers() {
        let group = ServerId::new(number).unwrap();
        replicas.push(empty_at(alloc, ring, group, id, partitions))?;
    }
    Ok(replicas)
}

impl Server {
    /// A server to which nothing has happened.
    pub fn new(
        alloc: Global,
        ring: &Ring,
        id: ServerId,
        rule: &Rule,
        partitions: u8,
    ) -> Result<Server, NoMemory>
        requires id { id < ring.now.servers }
        requires some { 1 ≤ partitions }
        requires within { partitions ≤ MOST_PARTITIONS }
        ensures { IfOk result (IsOpening ring.now id rule.now partitions (empty_held partitions)) }
    {
        let own = Replica::new(alloc, partitions);
        Server::with(alloc, ring, id, rule, partitions, own)
    }

    /// A server that has this replica of its own group, and else nothing.
    fn with(
        alloc: Global,
        ring: &Ring,
        id: ServerId,
        rule: &Rule,
        partitions: u8,
        own: Replica,
    ) -> Result<Server, NoMemory>
        requires id { id < ring.now.servers }
        requires some { 1 ≤ partitions }
        requires within { partitions ≤ MOST_PARTITIONS }
        requires own { own.partitions ≡ partitions }
        ensures { IfOk result (IsOpening ring.now id rule.now partitions own) }
    {
        let others = empty_replicas(alloc, ring, id, partitions)?;
        let rule = rule.copy(alloc)?;
        let known = Commits::new(alloc)?;
        let (store, vector, kept) = own.split();
        Ok(Server {
            alloc,
            ring: *ring,
            id,
            rule,
            partitions,
            head: Head::new(id, partitions, store, vector),
            own: kept,
            others,
            known,
            held: HeldMessages::new(alloc),
            waits: Waits::new(alloc),
            buffer: Buffer::new(alloc),
            forwarder: Forwarder::new(alloc),
        })
    }

    /// A server that begins anew, with this replica of its own group, these of groups that it is a later
    /// member of, and this knowledge. It holds nothing.
    pub fn revive(
        alloc: Global,
        ring: &Ring,
        id: ServerId,
        rule: &Rule,
        partitions: u8,
        own: Replica,
        others: GroupReplicas,
        known: Commits,
    ) -> Result<Server, NoMemory>
        requires id { id < ring.now.servers }
        requires some { 1 ≤ partitions }
        requires within { partitions ≤ MOST_PARTITIONS }
        requires own { own.partitions ≡ partitions }
        requires others { list_all (is_of_later ring.now id) others ≡ true }
        ensures { IfOk result (IsRevived ring.now id rule.now partitions own others known) }
    {
        let mut server = Server::with(alloc, ring, id, rule, partitions, own)?;
        server.known = known;
        server.know_own();
        server.install(others)?;
        server.prune();
        Ok(server)
    }

    /// It knows what it has of its own group where it is that group's tail.
    fn know_own(&mut self)
        ensures { HasLearnt self.old self.new }
    {
        learn(
            &mut self.known,
            &self.ring,
            self.id,
            self.id,
            self.head.vector(),
        );
    }
}
