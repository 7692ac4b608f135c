//! A server applies a log of a message that it holds.

ghost use Rattle.std.specs.Prelude.{◌≡◌, ◌<◌, true, OnOk, OnErr};
ghost use Rattle.ftc_server.specs.Standing.{with_replica};
ghost use Rattle.ftc_server.specs.Replicas.{replica_at, may_rise_in};
ghost use Rattle.ftc_server.specs.State.{fields_of};
ghost use Rattle.ftc_server.specs.Looks.{log_in, may_apply_in};
ghost use Rattle.ftc_server.specs.Steps.{HasApplied};

use crate::noting::note_had;
use crate::replicas::{apply, is_allowed, replica_of};
use crate::server::Server;
use crate::standing::learn;
use crate::waiting::settle;
use crate::waking::wake_changed;
use ftc_base::{NoMemory, PacketNo, ServerId};
use ftc_replica::Replica;
use ftc_ring::Ring;
use ftc_vector::Commits;

/// What a server knows of the tails where it has these replicas.
fn learn_from(
    known: &mut Commits,
    ring: &Ring,
    id: ServerId,
    group: ServerId,
    replicas: &[Option<Replica>],
)
    requires { id < ring.now.servers }
    ensures { known.new ≡ with_replica ring.now id group (replica_at replicas.now group) known.old }
{
    match replica_of(replicas, group) {
        Some(replica) => learn(known, ring, id, group, replica.vector()),
        None => {}
    }
}

impl Server {
    /// Whether a held message has the log of that group and packet, and it may be applied to the replica of its
    /// group.
    pub fn may_apply(&self, origin: PacketNo, group: ServerId, packet: PacketNo) -> bool
        ensures { result ≡ may_apply_in self.now origin group packet }
    {
        let Some(held) = self.held.get(origin) else {
            return false;
        };
        match held.message.logs.find(packet, group) {
            Some(log) => is_allowed(self.others.as_slice(), log),
            None => false,
        }
    }

    /// Applies the log of that group and packet, which a held message has and which may be applied, to the
    /// replica of its group.
    pub fn apply(
        &mut self,
        origin: PacketNo,
        group: ServerId,
        packet: PacketNo,
    ) -> Result<(), NoMemory>
        requires ready { may_apply_in self.old origin group packet ≡ true }
        requires rise { may_rise_in (replica_at self.old.others.items group) ≡ true }
        ensures ok { OnOk result (HasApplied self.old self.new origin group packet) }
        ensures err { OnErr result (fields_of self.new ≡ fields_of self.old) }
    {
        let Some(held) = self.held.get(origin) else {
            return Ok(());
        };
        let Some(log) = held.message.logs.find(packet, group) else {
            return Ok(());
        };
        let changed = log.changed();
        apply(&mut self.others, log)?;
        learn_from(
            &mut self.known,
            &self.ring,
            self.id,
            group,
            self.others.as_slice(),
        );
        let replicas = self.others.as_slice();
        wake_changed(&mut self.waits, &mut self.held, replicas, group, changed);
        note_had(&mut self.held, replicas, origin);
        settle(&mut self.held, replicas, origin);
        Ok(())
    }
}
