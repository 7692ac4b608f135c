//! A message without a packet begins.

ghost use Rattle.std.specs.Prelude.{◌≡◌, ◌<◌, OnOk, OnErr};
ghost use Rattle.ftc_journal.specs.declared.event.Event.TheVariants as event;
ghost use Rattle.ftc_protocol.specs.Setting.{Setting};
ghost use Rattle.ftc_protocol.specs.State.{ChainState};
ghost use Rattle.ftc_machine.specs.Represents.{RepresentsSame};
ghost use Rattle.ftc_machine.specs.Simulation.{SimulatesEvent};

use crate::effects::new_message::fresh;
use crate::state::MachineState;
use ftc_base::{NoMemory, PacketNo};
use std::alloc::Global;

impl MachineState {
    /// Server 0 holds a new message without a packet.
    pub fn propagate(&mut self, alloc: Global, origin: PacketNo, now: u64) -> Result<(), NoMemory>
        requires { self.old.propagates < u64.MAX }
        ensures ok { OnOk result ((setting : Setting) (state : ChainState) → now ≡ state.events →
            SimulatesEvent setting state (event.Propagate origin) self.old self.new) }
        ensures err { OnErr result (RepresentsSame self.old self.new) }
    {
        self.messages.make_room(origin as usize)?;
        self.messages.put(origin as usize, fresh(alloc, now, None));
        self.propagates += 1;
        Ok(())
    }
}
