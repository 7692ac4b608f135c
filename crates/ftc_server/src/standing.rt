//! Where a server stands in the ring.

ghost use Rattle.std.specs.Prelude.{◌≡◌, ◌<◌, IfOk};
ghost use Rattle.ftc_server.specs.Standing.{is_last, going_on, with_own};

use ftc_base::{NoMemory, ServerId, ServerSet};
use ftc_message::Logs;
use ftc_ring::Ring;
use ftc_vector::{Commits, Vector};
use std::alloc::Global;

/// Whether a server is the last of the chain.
pub fn is_last(ring: &Ring, server: ServerId) -> bool
    ensures { result ≡ is_last ring.now server }
{
    server.number() + 1 == ring.servers()
}

/// A copy of the logs that go on from a server.
pub fn onward(alloc: Global, ring: &Ring, server: ServerId, logs: &Logs) -> Result<Logs, NoMemory>
    requires { server < ring.now.servers }
    ensures { IfOk result (λ left. left ≡ going_on ring.now server logs.now) }
{
    let ending = ring.group_ending_at(server);
    let mut left = logs.copy(alloc)?;
    left.drop_groups(ServerSet::new().with(ending.number()));
    Ok(left)
}

/// What a server knows of the tails where it has this vector of a group.
pub fn learn(known: &mut Commits, ring: &Ring, server: ServerId, group: ServerId, vector: &Vector)
    requires { server < ring.now.servers }
    ensures { known.new ≡ with_own ring.now server group vector.now known.old }
{
    if group == ring.group_ending_at(server) {
        known.raise(group, vector);
    }
}
