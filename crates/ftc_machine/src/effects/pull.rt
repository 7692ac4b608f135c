//! The receiver of a link pulls from its sender.

ghost use Rattle.std.specs.Prelude.{◌<◌, OnOk, OnErr};
ghost use Rattle.ftc_journal.specs.declared.event.Event.TheVariants as event;
ghost use Rattle.ftc_protocol.specs.Setting.{Setting};
ghost use Rattle.ftc_protocol.specs.State.{ChainState};
ghost use Rattle.ftc_machine.specs.Represents.{RepresentsSame};
ghost use Rattle.ftc_machine.specs.Simulation.{SimulatesEvent};

use crate::effects::conditional::with_if;
use crate::effects::gain::has_gain;
use crate::state::MachineState;
use crate::state::restriction::part;
use ftc_base::{NoMemory, ServerId};

impl MachineState {
    /// The receiver has what the sender has of the groups behind whose heads it stands, and the link has no
    /// gap any more. What is new to the receiver leaves a gap behind it, but where it ends the group.
    pub fn pull(&mut self, link: ServerId) -> Result<(), NoMemory>
        requires { link < self.old.ring.servers }
        ensures ok { OnOk result ((setting : Setting) (state : ChainState) →
            SimulatesEvent setting state (event.Pull link) self.old self.new) }
        ensures err { OnErr result (RepresentsSame self.old self.new) }
    {
        let receiver = self.ring.next(link);
        let from = usize::from(link.number());
        let to = usize::from(receiver.number());
        let got = part(&self.lists[from], self.groups_behind(receiver));
        let ending = self.ring.group_ending_at(receiver);
        let news = has_gain(&got, &self.lists[to], ending);
        self.lists[to].merge(&got);
        self.gaps = with_if(self.gaps, news, receiver).without(link.number());
        Ok(())
    }
}
