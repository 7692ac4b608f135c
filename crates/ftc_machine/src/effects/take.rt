//! The receiver of a link takes a message.

ghost use Rattle.std.specs.Prelude.{◌≡◌, ◌<◌, OnOk, OnErr, true};
ghost use Rattle.ftc_journal.specs.declared.event.Event.TheVariants as event;
ghost use Rattle.ftc_protocol.specs.Setting.{Setting};
ghost use Rattle.ftc_protocol.specs.State.{ChainState};
ghost use Rattle.ftc_machine.specs.Represents.{RepresentsSame};
ghost use Rattle.ftc_machine.specs.LegalityTests.{may_take};
ghost use Rattle.ftc_machine.specs.Simulation.{SimulatesEvent};

use crate::state::MachineState;
use crate::state::message::{Message, Place};
use ftc_base::{NoMemory, PacketNo, ServerId};

impl MachineState {
    /// The receiver of the link holds the message, and knows what the sender knew.
    pub fn take(&mut self, link: ServerId, origin: PacketNo, now: u64) -> Result<(), NoMemory>
        requires within { link < self.old.ring.servers }
        requires legal { may_take self.old link origin ≡ true }
        ensures ok { OnOk result ((setting : Setting) (state : ChainState) → now ≡ state.events →
            SimulatesEvent setting state (event.Take link origin) self.old self.new) }
        ensures err { OnErr result (RepresentsSame self.old self.new) }
    {
        let receiver = self.ring.next(link);
        let by_ring = link.number() + 1 == self.ring.servers();
        let Some(message) = self.messages.take_out(origin as usize) else {
            unreachable!();
        };
        let Message {
            place,
            packet,
            logs,
            needs,
            ..
        } = message;
        let Place::Queued { known, .. } = place else {
            unreachable!();
        };
        self.known[usize::from(receiver.number())].merge(&known);
        let message = Message {
            place: Place::Held {
                server: receiver,
                visited: false,
                by_ring,
            },
            since: now,
            packet,
            logs,
            needs,
        };
        self.messages.put(origin as usize, message);
        Ok(())
    }
}
