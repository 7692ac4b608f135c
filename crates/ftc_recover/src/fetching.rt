//! A replica taken from another server.

ghost use Rattle.std.specs.Prelude.{◌≡◌, IfOk};
ghost use Rattle.ftc_recover.specs.Fetched.{replica_of};

use ftc_base::NoMemory;
use ftc_replica::{Kept, Replica};
use ftc_store::Store;
use ftc_vector::Vector;
use std::alloc::Global;

/// A replica with the same content, the same numbers and the same kept logs in the same order.
pub fn fetch_one(
    alloc: Global,
    store: &Store,
    vector: &Vector,
    kept: &Kept,
) -> Result<Replica, NoMemory>
    ensures { IfOk result (λ replica. replica ≡ replica_of store.now vector.now kept.now) }
{
    let store = store.copy(alloc)?;
    let kept = kept.copy(alloc)?;
    Ok(Replica::of(store, *vector, kept))
}
