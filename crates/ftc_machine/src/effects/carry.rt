//! The forwarder takes a message from the ring.

ghost use Rattle.std.specs.Prelude.{OnOk, OnErr};
ghost use Rattle.ftc_journal.specs.declared.event.Event.TheVariants as event;
ghost use Rattle.ftc_protocol.specs.Setting.{Setting};
ghost use Rattle.ftc_protocol.specs.State.{ChainState};
ghost use Rattle.ftc_machine.specs.Represents.{RepresentsSame};
ghost use Rattle.ftc_machine.specs.Simulation.{SimulatesEvent};

use crate::state::MachineState;
use ftc_base::{NoMemory, PacketNo, ServerId};
use std::alloc::Global;

impl MachineState {
    /// The message ends, and the forwarder has those of its logs that go on from server 0.
    pub fn carry(&mut self, alloc: Global, origin: PacketNo) -> Result<(), NoMemory>
        ensures ok { OnOk result ((setting : Setting) (state : ChainState) →
            SimulatesEvent setting state (event.Carry origin) self.old self.new) }
        ensures err { OnErr result (RepresentsSame self.old self.new) }
    {
        let first = ServerId::new(0).unwrap();
        self.forwarder = self.outgoing_logs(alloc, first, self.logs_of(origin))?;
        self.messages.take_out(origin as usize);
        Ok(())
    }
}
