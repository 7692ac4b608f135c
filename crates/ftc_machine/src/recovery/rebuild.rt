//! The visits that stay in a recovery, and the store that they make.

ghost use Rattle.std.specs.Prelude.{ℕ, ◌≡◌, filter, fold, IfOk, OnOk};
ghost use Rattle.std.specs.FinMap.{empty};
ghost use Rattle.ftc_machine.specs.RecoveryEffect.{is_left, rewritten};
ghost use Rattle.ftc_machine.specs.LegalityTests.{footprints_of};

use crate::state::MachineState;
use crate::trace::is_among;
use ftc_base::{NoMemory, ServerId};
use ftc_journal::{VisitName, VisitNames};
use ftc_store::Store;
use std::alloc::Global;

impl MachineState {
    /// The visits that count, but for these.
    pub fn order_left(&self, alloc: Global, undone: &[VisitName]) -> Result<VisitNames, NoMemory>
        ensures { IfOk result (λ left. left ≡ filter (is_left undone.now) self.now.order) }
    {
        let mut left = VisitNames::new(alloc);
        for name in self.order.as_slice() {
            if !is_among(undone, name.server, name.packet) {
                left.push(*name)?;
            }
        }
        Ok(left)
    }

    /// Makes the writes of a visit in the store of a server's middlebox, if it is a visit there.
    fn write_again(
        &self,
        server: ServerId,
        name: &VisitName,
        store: &mut Store,
    ) -> Result<(), NoMemory>
        ensures { OnOk result (store.new.content
            ≡ rewritten (footprints_of self.now) server store.old.content name.now) }
    {
        if name.server.number() != server.number() {
            return Ok(());
        }
        if let Some(footprint) = self.footprint(name) {
            store.reserve(footprint.writes.len())?;
            store.apply(&footprint.writes);
        }
        Ok(())
    }

    /// The store of a server's middlebox behind these visits.
    pub fn rebuilt(
        &self,
        alloc: Global,
        server: ServerId,
        order: &[VisitName],
    ) -> Result<Store, NoMemory>
        ensures { IfOk result (λ store. store.content
            ≡ fold (rewritten (footprints_of self.now) server) empty order.now) }
    {
        let mut store = Store::new(alloc, self.partitions);
        for name in order {
            self.write_again(server, name, &mut store)?;
        }
        Ok(store)
    }
}
