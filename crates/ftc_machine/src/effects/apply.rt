//! A server applies a log.

ghost use Rattle.std.specs.Prelude.{ℕ, ◌<◌};
ghost use Rattle.ftc_journal.specs.declared.event.Event.TheVariants as event;
ghost use Rattle.ftc_protocol.specs.Setting.{Setting};
ghost use Rattle.ftc_protocol.specs.State.{ChainState};
ghost use Rattle.ftc_machine.specs.Simulation.{SimulatesEvent};

use crate::state::MachineState;
use ftc_base::ServerId;
use ftc_journal::VisitName;

impl MachineState {
    /// The server's list gets the visit, from whichever message carries its log.
    pub fn apply_log(&mut self, server: ServerId, log: &VisitName)
        requires { server < self.old.ring.servers }
        ensures { (setting : Setting) (state : ChainState) (origin : ℕ) →
            SimulatesEvent setting state (event.Apply server origin log.now.server log.now.packet) self.old self.new }
    {
        let place = usize::from(server.number());
        let mut vector = *self.lists[place].of(log.server);
        if let Some(footprint) = self.footprint(log) {
            footprint.mark(&mut vector);
        }
        self.lists[place].raise(log.server, &vector);
    }
}
