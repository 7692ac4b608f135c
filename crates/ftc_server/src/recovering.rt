//! What a server gets from others, and what it drops when another begins anew.

ghost use Rattle.std.specs.Prelude.{◌≡◌, ◌<◌, true, OnOk, OnErr};
ghost use Rattle.std.specs.List.{list_all};
ghost use Rattle.ftc_server.specs.Replicas.{AreOfSame};
ghost use Rattle.ftc_server.specs.Slots.{slots_are_ready};
ghost use Rattle.ftc_server.specs.State.{fields_of};
ghost use Rattle.ftc_server.specs.Looks.{is_later_of};
ghost use Rattle.ftc_server.specs.Steps.{with_installed, known_with, HasInstalled, HasDropped, HasPruned};

use crate::replicas;
use crate::server::Server;
use crate::standing::learn;
use crate::watching::{count_logs, settle_all, watch_all};
use ftc_base::{Items, NoMemory, ServerId};
use ftc_replica::{Replica, Waits};
use ftc_ring::Ring;
use ftc_vector::Commits;

/// The replica of a group.
#[derive(Drop)]
pub struct GroupReplica {
    pub group: ServerId,
    pub replica: Replica,
}

/// Replicas by rising group.
pub type GroupReplicas = Items<GroupReplica>;

/// Puts these replicas in place of those of the same groups. What a server knows of the tails where it has
/// them is known.
fn put_all(
    others: &mut Vec<Option<Replica>>,
    known: &mut Commits,
    ring: &Ring,
    id: ServerId,
    news: Vec<GroupReplica>,
)
    requires id { id < ring.now.servers }
    requires later { list_all (is_later_of others.old.items) news.items ≡ true }
    ensures others { others.new.items ≡ with_installed news.items others.old.items }
    ensures known { known.new ≡ known_with ring.now id news.items known.old }
    ensures members { AreOfSame others.old.items others.new.items }
{
    let mut rest = news;
    while let Some(new) = rest.pop() {
        learn(known, ring, id, new.group, new.replica.vector());
        replicas::put(others, new.group, new.replica);
    }
}

impl Server {
    /// Puts these replicas in place of those of the same groups. It is a later member of each.
    pub fn install(&mut self, news: GroupReplicas) -> Result<(), NoMemory>
        requires { list_all (is_later_of self.old.others.items) news ≡ true }
        ensures ok { OnOk result (HasInstalled self.old self.new news) }
        ensures err { OnErr result (fields_of self.new ≡ fields_of self.old) }
    {
        let mut waits = Waits::new(self.alloc);
        waits.reserve(count_logs(&self.held)?)?;
        put_all(
            &mut self.others,
            &mut self.known,
            &self.ring,
            self.id,
            news.into_vec(),
        );
        let replicas = self.others.as_slice();
        // The contract of this call tells that no two held messages have one origin.
        let _ = self.held.len();
        watch_all(&mut waits, &self.held, replicas);
        self.waits = waits;
        self.held.forget_all();
        settle_all(&mut self.held, replicas);
        Ok(())
    }

    /// Drops each held message that lacks a log. What the slots run lacks none.
    pub fn drop_unready(&mut self)
        requires { slots_are_ready self.old.others.items self.old.head self.old.held.items ≡ true }
        ensures { HasDropped self.old self.new }
    {
        self.held.drop_unready(self.others.as_slice());
        // What is left lacks nothing, so that nothing waits or rests.
        self.waits = Waits::new(self.alloc);
        settle_all(&mut self.held, self.others.as_slice());
    }

    /// Drops the kept logs that are known at the tails of their groups.
    pub fn prune(&mut self)
        ensures { HasPruned self.old self.new }
    {
        // The contract of this call tells how many groups there may be.
        let _ = self.ring.servers();
        self.own.prune(self.known.of(self.id));
        replicas::prune(&mut self.others, &self.known);
    }
}
