//! What is kept of a chain at its start.

ghost use Rattle.std.specs.Prelude.{◌≡◌, ◌≤◌, ℕ, IfOk, length, slice_index_or, []};
ghost use Rattle.ftc_base.specs.declared.limits.TheConstants.{MOST_PARTITIONS};
ghost use Rattle.ftc_protocol.specs.Setting.{Setting, shape};
ghost use Rattle.ftc_protocol.specs.State.{opening};
ghost use Rattle.ftc_machine.specs.Frontier.{frontier_at};
ghost use Rattle.ftc_machine.specs.Represents.{Represents, frontiers_of};

use crate::state::MachineState;
use crate::state::footprint::Footprint;
use crate::state::slots::Slots;
use ftc_base::{Items, NoMemory, ServerSet};
use ftc_ring::Ring;
use ftc_serial::empty_stores;
use ftc_vector::GroupVectors;
use std::alloc::Global;

/// For each of so many servers a set without a visit.
fn empty_sets(alloc: Global, count: usize) -> Result<Vec<GroupVectors>, NoMemory>
    ensures count { IfOk result (λ sets. length sets.items ≡ count) }
    ensures empty { IfOk result (λ sets. (server group partition : ℕ) → frontier_at
        (frontiers_of sets.items server) group partition ≡ 0) }
{
    let mut sets = Vec::new(alloc);
    for _ in 0..count {
        sets.push(GroupVectors::new())?;
    }
    Ok(sets)
}

/// For each of so many servers no footprint.
fn no_footprints(alloc: Global, count: usize) -> Result<Vec<Slots<Footprint>>, NoMemory>
    ensures { IfOk result (λ visits. length visits.items ≡ count) }
{
    let mut visits = Vec::new(alloc);
    for _ in 0..count {
        visits.push(Slots::new(alloc))?;
    }
    Ok(visits)
}

impl MachineState {
    /// All servers are up, and everything is empty.
    pub fn new(alloc: Global, ring: Ring, partitions: u8) -> Result<MachineState, NoMemory>
        requires some { 1 ≤ partitions }
        requires within { partitions ≤ MOST_PARTITIONS }
        ensures { IfOk result (λ kept. (setting : Setting) → shape setting ≡ ring → setting.partitions ≡ partitions
            → Represents setting (opening setting) kept) }
    {
        let count = usize::from(ring.servers());
        Ok(MachineState {
            ring,
            partitions,
            down: ServerSet::new(),
            lists: empty_sets(alloc, count)?,
            known: empty_sets(alloc, count)?,
            stores: empty_stores(alloc, count, partitions)?,
            visits: no_footprints(alloc, count)?,
            order: Items::new(alloc),
            messages: Slots::new(alloc),
            forwarder: Items::new(alloc),
            buffer: Slots::new(alloc),
            gaps: ServerSet::new(),
            done: 0,
            entered: 0,
            propagates: 0,
            fates: Slots::new(alloc),
        })
    }
}
