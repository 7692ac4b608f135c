//! A packet comes to the chain.

ghost use Rattle.std.specs.Prelude.{◌≡◌, ◌<◌, OnOk, OnErr};
ghost use Rattle.ftc_journal.specs.declared.event.Event.TheVariants as event;
ghost use Rattle.ftc_protocol.specs.Setting.{Setting, packet_at};
ghost use Rattle.ftc_protocol.specs.State.{ChainState};
ghost use Rattle.ftc_machine.specs.Represents.{RepresentsSame};
ghost use Rattle.ftc_machine.specs.Simulation.{SimulatesEvent};

use crate::effects::new_message::fresh;
use crate::state::MachineState;
use ftc_base::{Bytes, NoMemory, PacketNo};
use ftc_protocol::Fate;
use std::alloc::Global;

impl MachineState {
    /// Server 0 holds the packet in a new message. Where that server is down, the packet is lost.
    pub fn enter(
        &mut self,
        alloc: Global,
        packet: PacketNo,
        bytes: Bytes,
        now: u64,
    ) -> Result<(), NoMemory>
        requires { self.old.entered < u32.MAX }
        ensures ok { OnOk result ((setting : Setting) (state : ChainState) → bytes ≡ packet_at setting packet → now
            ≡ state.events →
            SimulatesEvent setting state (event.Enter packet) self.old self.new) }
        ensures err { OnErr result (RepresentsSame self.old self.new) }
    {
        let place = packet as usize;
        self.messages.make_room(place)?;
        self.fates.make_room(place)?;
        self.entered += 1;
        if self.down.has(0) {
            self.fates.put(place, Fate::Lost { event: now });
            return Ok(());
        }
        self.messages.put(place, fresh(alloc, now, Some(bytes)));
        Ok(())
    }
}
