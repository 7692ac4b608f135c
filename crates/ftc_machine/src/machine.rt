//! The protocol as a machine that is handed events.

ghost use Rattle.std.specs.Prelude.{◌≡◌, ◌++◌, [], ◌∷◌, true, false, length, IfOk, OnOk, OnErr};
ghost use Rattle.ftc_base.specs.Refused.{IfBad};
ghost use Rattle.ftc_serial.specs.Packets.{bytes_of_packets};

use crate::event_copy::copy_event;
use crate::laws::states_are_lawful;
use crate::state::MachineState;
use ftc_base::{NoMemory, Refuse};
use ftc_journal::{Event, Journal};
use ftc_mbox::ChainSpec;
use ftc_pcap::Packets;
use ftc_protocol::{Fates, accepted, every_moment, finished_run};
use ftc_script::Script;
use std::alloc::Global;
use std::marker::Model;
use thiserror::Error;

/// The protocol doesn't allow the event.
#[derive(Clone, Copy, Debug, PartialEq, Eq, Error)]
#[error("the protocol does not allow the event")]
pub struct Illegal;

/// A run of the protocol, event by event. It is plain: there is no vector of a replica, no frame and no
/// lock, and what it does is what the protocol's definitions say. A contract sees what the run was given and
/// its events so far.
#[derive(Drop)]
pub struct Machine<'a> {
    spec: &'a ChainSpec,
    packets: &'a Packets,
    script: &'a Script,
    alloc: Global,
    journal: Journal,
    kept: MachineState,
}

impl<'a> Model for Machine<'a> {
    ghost use Rattle.ftc_serial.specs.Packets.{bytes_of_packets};
    ghost use Rattle.ftc_protocol.specs.Setting.{setting_of};
    ghost use Rattle.ftc_machine.specs.RunSoFar.{RunSoFar, IsRunSoFar};

    ghost Value = { RunSoFar };

    ghost view = { λ machine. record {
      chain = machine.spec.now;
      packets = bytes_of_packets machine.packets.now;
      script = machine.script.now;
      journal =
          machine.journal.items;
    } };

    ghost invariant = { λ machine. ∥ IsRunSoFar (setting_of machine.spec.now
        (bytes_of_packets machine.packets.now) machine.script.now) machine.journal.items machine.kept ∥₁ };
}

impl<'a> Machine<'a> {
    ghost use Rattle.ftc_machine.specs.RunSoFar.{setting_in, machine_state};
    ghost use Rattle.ftc_protocol.specs.Moment.{IsSound};
    ghost use Rattle.ftc_protocol.specs.Run.{IsRun, IsFinished};
    ghost use Rattle.ftc_protocol.specs.Legal.{IsLegal};
    ghost use Rattle.ftc_protocol.specs.Fates.{fates_in};
    ghost use Rattle.ftc_protocol.specs.Setting.{IsSetting};

    /// The run of a chain on these packets, with this script, before its first event. The script was accepted
    /// for the chain's ring and for as many packets.
    pub fn new(
        alloc: Global,
        spec: &'a ChainSpec,
        packets: &'a Packets,
        script: &'a Script,
    ) -> Result<Machine<'a>, NoMemory>
        requires ring { script.now.ring ≡ record { servers = length spec.now.rules; failures = spec.now.failures } }
        requires packets { script.now.packets ≡ length packets.now }
        ensures { IfOk result (λ machine. machine ≡ record {
          chain = spec.now;
          packets = bytes_of_packets packets.now;
          script =
              script.now;
          journal = [];
        }) }
    {
        accepted();
        states_are_lawful();
        let _ = spec.rules();
        let kept = MachineState::new(alloc, *script.ring(), spec.partitions())?;
        Ok(Machine {
            spec,
            packets,
            script,
            alloc,
            journal: Journal::new(alloc),
            kept,
        })
    }

    /// Makes one event. It is refused exactly where the protocol doesn't allow it. A refused call leaves the
    /// run as it was.
    pub fn step(&mut self, event: &Event) -> Result<(), Refuse<Illegal>>
        ensures made { OnOk result (self.new ≡ record self.old { journal = self.old.journal ++ event.now ∷ [] }) }
        ensures legal { OnOk result (∥ IsLegal (setting_in self.old) (machine_state self.old) event.now ∥₁) }
        ensures illegal { IfBad result (λ _. IsLegal (setting_in self.old) (machine_state self.old) event.now → ⊥) }
        ensures err { OnErr result (self.new ≡ self.old) }
    {
        let now = self.journal.len() as u64;
        if now == u64::MAX {
            return Err(Refuse::NoMemory);
        }
        let legal = self
            .kept
            .is_legal(self.alloc, self.packets, self.script, event)?;
        if !legal {
            return Err(Refuse::Bad(Illegal));
        }
        let copy = copy_event(self.alloc, event)?;
        self.journal.reserve(1)?;
        self.kept.apply(self.alloc, self.spec, self.packets, self.script, event, now)?;
        self.journal.push(copy)?;
        Ok(())
    }

    /// Whether no event is legal any more.
    pub fn finished(&self) -> bool
        ensures finished { result ≡ true → ∥ IsFinished (setting_in self.now) (machine_state self.now) ∥₁ }
        ensures unfinished { result ≡ false → IsFinished (setting_in self.now) (machine_state self.now) → ⊥ }
    {
        finished_run();
        self.kept.is_done(self.script, self.packets.len() as u32)
    }

    /// What became of each packet so far.
    pub fn fates(&self) -> Result<Fates, NoMemory>
        ensures { IfOk result (λ fates. fates ≡ fates_in (setting_in self.now) (machine_state self.now)) }
    {
        self.kept.fates(self.alloc, self.packets.len())
    }

    /// Its events so far.
    pub fn journal(&self) -> &Journal
        ensures same { result.now.items ≡ self.now.journal }
        ensures run { ∥ IsRun (setting_in self.now) self.now.journal ∥₁ }
        ensures setting { ∥ IsSetting (setting_in self.now) ∥₁ }
    {
        &self.journal
    }

    /// What holds at every moment of a run holds of its state: the serial run of the visits that stand exists
    /// and released what was released, and each first live member of a group has that run's content.
    pub fn moment(&self)
        ensures { ∥ IsSound (setting_in self.now) (machine_state self.now) ∥₁ }
    {
        every_moment();
        let _ = self.journal();
    }
}
