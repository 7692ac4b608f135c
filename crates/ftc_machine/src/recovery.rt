//! A new server takes the place of one that is down.

ghost use Rattle.std.specs.Prelude.{ℕ, ◌≡◌, ◌<◌, ◌≤◌, length, filter, fold, OnOk, OnErr};
ghost use Rattle.std.specs.FinMap.{empty};
ghost use Rattle.ftc_base.specs.Sets.{has};
ghost use Rattle.ftc_journal.specs.declared.event.Event.TheVariants as event;
ghost use Rattle.ftc_machine.specs.Simulation.{SimulatesEvent};
ghost use Rattle.ftc_machine.specs.Represents.{RepresentsSame};
ghost use Rattle.ftc_machine.specs.RecoveryEffect.{is_left, rewritten, gaps_through};
ghost use Rattle.ftc_protocol.specs.Setting.{Setting};
ghost use Rattle.ftc_protocol.specs.State.{ChainState};
ghost use Rattle.ftc_machine.specs.LegalityTests.{footprints_of};

pub mod distance;
pub mod dropped;
pub mod rebuild;
pub mod transfer;
pub mod undo;

use crate::effects::losses::lose_filtered;
use crate::state::MachineState;
use crate::state::slots::Slots;
use ftc_base::{NoMemory, ServerId, ServerSet};
use ftc_journal::{VisitName, VisitNames};
use ftc_store::Store;
use std::alloc::Global;
use std::mem;

impl MachineState {
    /// The links that have a gap once a server is replaced, with this live server after it.
    fn gaps_behind(&self, server: ServerId, following: ServerId) -> ServerSet
        requires server { server < self.now.ring.servers }
        requires following { following < self.now.ring.servers }
        ensures { (link : ℕ) → link < self.now.ring.servers →
            has result link ≡ gaps_through self.now.ring.servers
            (gaps_through self.now.ring.servers (has self.now.gaps) server) following link }
    {
        self.gaps
            .with(server.number())
            .with(self.ring.previous(server).number())
            .with(following.number())
            .with(self.ring.previous(following).number())
    }

    /// The new server is up. These are the visits that stay, and the store of its own middlebox.
    fn take_over(
        &mut self,
        alloc: Global,
        server: ServerId,
        undone: &[VisitName],
        order: VisitNames,
        store: Store,
        now: u64,
    )
        requires within { server < self.old.ring.servers }
        requires wide { length self.old.messages ≤ length self.old.fates }
        requires more { self.old.done < usize.MAX }
        ensures { (setting : Setting) (state : ChainState) → now ≡ state.events
            → order ≡ filter (is_left undone.now) self.old.order →
            store.content ≡ fold (rewritten (footprints_of self.old) server) empty order →
            SimulatesEvent setting state (event.Recover server undone.now) self.old self.new }
    {
        let previous = self.previous_live(server);
        let following = self.following_live(server);
        let list = self.list_got(server, previous, following);
        let known = self.both_know(previous, following);
        let gaps = self.gaps_behind(server, following);

        let mut messages = mem::replace(&mut self.messages, Slots::new(alloc));
        let mut fates = mem::replace(&mut self.fates, Slots::new(alloc));
        lose_filtered(undone, &mut fates, now);
        self.drop_messages(following, &mut messages, &mut fates, now);
        self.messages = messages;
        self.fates = fates;

        let place = usize::from(server.number());
        self.lists[place] = list;
        self.known[place] = known;
        self.stores[place] = store;
        self.order = order;
        self.gaps = gaps;
        self.down = self.down.without(server.number());
        self.done += 1;
    }

    /// A new server takes the place of that one, which undoes these visits.
    pub fn recover(
        &mut self,
        alloc: Global,
        server: ServerId,
        undone: &[VisitName],
        now: u64,
    ) -> Result<(), NoMemory>
        requires within { server < self.old.ring.servers }
        requires more { self.old.done < usize.MAX }
        ensures ok { OnOk result ((setting : Setting) (state : ChainState) → now ≡ state.events →
            SimulatesEvent setting state (event.Recover server undone.now) self.old self.new) }
        ensures err { OnErr result (RepresentsSame self.old self.new) }
    {
        let order = self.order_left(alloc, undone)?;
        let store = self.rebuilt(alloc, server, order.as_slice())?;
        self.fates.make_room(self.messages.len())?;
        self.take_over(alloc, server, undone, order, store, now);
        Ok(())
    }
}
