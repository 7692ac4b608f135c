//! Logs taken from another server.

ghost use Rattle.std.specs.Prelude.{◌≡◌, ◌-◌, length, IfOk, OnOk, OnErr};
ghost use Rattle.ftc_replica.specs.Kept.{missing};
ghost use Rattle.ftc_recover.specs.Pulled.{applied_all, AreReadyInTurn};

use crate::fetching::fetch_one;
use ftc_base::NoMemory;
use ftc_message::Log;
use ftc_replica::{Kept, Replica};
use ftc_vector::Vector;
use std::alloc::Global;

/// Applies the logs one after another. Where it is refused, those so far are applied.
fn apply_all(logs: &[Log], to: &mut Replica) -> Result<(), NoMemory>
    requires { AreReadyInTurn (u64.MAX - 1) to.old.vector logs.now }
    ensures { OnOk result (to.new ≡ applied_all logs.now to.old) }
{
    for log in logs {
        to.apply(log)?;
    }
    Ok(())
}

/// Applies the kept logs that a replica of the same group lacks, in the order of keeping, and answers how
/// many. The other server has `vector`, and its kept logs reach so far: each is ready in its turn, and
/// the last leaves that vector.
pub fn pull_one(
    alloc: Global,
    vector: &Vector,
    kept: &Kept,
    to: &mut Replica,
) -> Result<u64, NoMemory>
    requires ready { AreReadyInTurn (u64.MAX - 1) to.old.vector (missing to.old.vector kept.now.items) }
    requires reach { (applied_all (missing to.old.vector kept.now.items) to.old).vector ≡ vector.now }
    ensures count { IfOk result (λ count. count ≡ length (missing to.old.vector kept.now.items)) }
    ensures applied { OnOk result (to.new ≡ applied_all (missing to.old.vector kept.now.items) to.old) }
    ensures vector { OnOk result (to.new.vector ≡ vector.now) }
    ensures refused { OnErr result (to.new ≡ to.old) }
{
    let logs = kept.missing_after(alloc, to.vector())?;
    if logs.is_empty() {
        return Ok(0);
    }
    // The logs are applied to a copy, so that a refusal leaves the replica as it was.
    let mut replica = fetch_one(alloc, to.store(), to.vector(), to.kept())?;
    apply_all(logs.as_slice(), &mut replica)?;
    *to = replica;
    Ok(logs.len() as u64)
}
