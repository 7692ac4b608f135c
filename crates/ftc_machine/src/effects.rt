//! What an event does to what is kept.

ghost use Rattle.std.specs.Prelude.{◌≡◌, ◌<◌, true, OnOk, OnErr, length};
ghost use Rattle.ftc_serial.specs.Packets.{bytes_of_packets};
ghost use Rattle.ftc_protocol.specs.Setting.{setting_of};
ghost use Rattle.ftc_protocol.specs.State.{ChainState};
ghost use Rattle.ftc_machine.specs.Represents.{RepresentsSame};
ghost use Rattle.ftc_machine.specs.Simulation.{SimulatesEvent};
ghost use Rattle.ftc_machine.specs.Legality.{may_happen};

pub mod apply;
pub mod carry;
pub mod conditional;
pub mod crash;
pub mod departure;
pub mod enter;
pub mod gain;
pub mod hop;
pub mod losses;
pub mod new_message;
pub mod outgoing_logs;
pub mod propagate;
pub mod pull;
pub mod release;
pub mod send;
pub mod take;
pub mod visit;
pub mod visited_message;

use crate::state::MachineState;
use ftc_base::NoMemory;
use ftc_journal::{Event, VisitName};
use ftc_mbox::ChainSpec;
use ftc_pcap::Packets;
use ftc_script::Script;
use std::alloc::Global;

impl MachineState {
    /// Makes the event, which is legal.
    pub fn apply(
        &mut self,
        alloc: Global,
        spec: &ChainSpec,
        packets: &Packets,
        script: &Script,
        event: &Event,
        now: u64,
    ) -> Result<(), NoMemory>
        requires rules { length spec.now.rules ≡ self.old.ring.servers }
        requires tested { may_happen self.old script.now (length packets.now) event.now ≡ true }
        requires time { now < u64.MAX }
        ensures ok { OnOk result ((state : ChainState) → now ≡ state.events →
            SimulatesEvent (setting_of spec.now
            (bytes_of_packets packets.now) script.now) state event.now self.old self.new) }
        ensures err { OnErr result (RepresentsSame self.old self.new) }
    {
        match event {
            Event::Enter { packet } => {
                let count = packets.len();
                prove!((*packet as usize) < count);
                let bytes = packets.at(*packet as usize).bytes.copy()?;
                self.enter(alloc, *packet, bytes, now)
            }
            Event::Take { link, origin } => self.take(*link, *origin, now),
            Event::Apply {
                server,
                group,
                packet,
                ..
            } => {
                let log = VisitName {
                    server: *group,
                    packet: *packet,
                };
                self.apply_log(*server, &log);
                Ok(())
            }
            Event::Visit { server, packet, .. } => {
                let rule = spec.rules().at(usize::from(server.number()));
                self.visit(alloc, *server, *packet, rule, now)
            }
            Event::Pass { server, origin } => self.send(alloc, *server, *origin, false, now),
            Event::Lose { server, origin } => self.send(alloc, *server, *origin, true, now),
            Event::Carry { origin } => self.carry(alloc, *origin),
            Event::Crash { server } => {
                let lines = script.steps();
                prove!(self.done < lines);
                self.crash(alloc, *server, now)
            }
            Event::Recover { server, undone } => {
                let lines = script.steps();
                prove!(self.done < lines);
                self.recover(alloc, *server, undone.as_slice(), now)
            }
            Event::Pull { link } => self.pull(*link),
            Event::Propagate { origin } => self.propagate(alloc, *origin, now),
            Event::Release { packet } => self.release(*packet),
        }
    }
}
