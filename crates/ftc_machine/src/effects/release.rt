//! A packet leaves the chain.

ghost use Rattle.std.specs.Prelude.{◌≡◌, OnOk, OnErr};
ghost use Rattle.ftc_journal.specs.declared.event.Event.TheVariants as event;
ghost use Rattle.ftc_protocol.specs.Setting.{Setting};
ghost use Rattle.ftc_protocol.specs.State.{ChainState};
ghost use Rattle.ftc_machine.specs.Represents.{RepresentsSame};
ghost use Rattle.ftc_machine.specs.Simulation.{SimulatesEvent};

use crate::state::MachineState;
use ftc_base::{NoMemory, PacketNo};
use ftc_protocol::Fate;

impl MachineState {
    /// The packet is released, and is in the buffer no more.
    pub fn release(&mut self, packet: PacketNo) -> Result<(), NoMemory>
        ensures ok { OnOk result ((setting : Setting) (state : ChainState) →
            SimulatesEvent setting state (event.Release packet) self.old self.new) }
        ensures err { OnErr result (RepresentsSame self.old self.new) }
    {
        let place = packet as usize;
        self.buffer.make_room(place)?;
        self.fates.make_room(place)?;
        self.buffer.clear(place);
        self.fates.put(place, Fate::Released);
        Ok(())
    }
}
