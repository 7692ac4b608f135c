//! A server sends a message on.

ghost use Rattle.std.specs.Prelude.{◌≡◌, ◌<◌, true, OnOk, OnErr};
ghost use Rattle.ftc_protocol.specs.Setting.{Setting};
ghost use Rattle.ftc_protocol.specs.State.{ChainState};
ghost use Rattle.ftc_machine.specs.Represents.{RepresentsSame};
ghost use Rattle.ftc_machine.specs.LegalityTests.{may_leave};
ghost use Rattle.ftc_machine.specs.Simulation.{SimulatesEvent, sending};

use crate::effects::conditional::{clear_if, with_if};
use crate::effects::departure::{behind, withheld};
use crate::state::MachineState;
use crate::state::message::Place;
use ftc_base::{NoMemory, PacketNo, ServerId};
use ftc_protocol::Fate;
use std::alloc::Global;

impl MachineState {
    /// The message leaves the server for the next one, with what the server knows, and the forwarder's
    /// logs leave server 0 with it. The packet of the last server goes to the buffer.
    pub fn send(
        &mut self,
        alloc: Global,
        server: ServerId,
        origin: PacketNo,
        lost: bool,
        now: u64,
    ) -> Result<(), NoMemory>
        requires within { server < self.old.ring.servers }
        requires legal { may_leave self.old server origin ≡ true }
        ensures ok { OnOk result ((setting : Setting) (state : ChainState) → now ≡ state.events →
            SimulatesEvent setting state (sending lost server origin) self.old self.new) }
        ensures err { OnErr result (RepresentsSame self.old self.new) }
    {
        let place = origin as usize;
        let hop = self.hop(server, lost);
        let logs = self.outgoing_logs(alloc, server, self.logs_of(origin))?;
        let known = Box::new(alloc, self.knows(server))?;
        self.buffer.make_room(place)?;
        self.fates.make_room(place)?;
        let Some(message) = self.messages.take_out(place) else {
            unreachable!();
        };
        let entry = withheld(&message, origin, now);
        self.buffer.set_if(hop.last, place, entry);
        let fate = Some(Fate::Lost { event: now });
        self.fates.set_if(hop.loses_packet(&message), place, fate);
        let link = Place::Queued {
            link: server,
            known,
        };
        let message = behind(message, hop.last, link, logs, now);
        self.messages.set_if(hop.queued, place, Some(message));
        clear_if(&mut self.forwarder, server.number() == 0, alloc);
        self.gaps = with_if(self.gaps, hop.gap, server);
        Ok(())
    }
}
