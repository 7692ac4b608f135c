//! A journal handed to a machine.

ghost use Rattle.std.specs.Prelude.{◌≡◌, length, IfOk};
ghost use Rattle.ftc_base.specs.Refused.{IfBad};
ghost use Rattle.ftc_serial.specs.Packets.{bytes_of_packets};
ghost use Rattle.ftc_protocol.specs.Setting.{setting_of};
ghost use Rattle.ftc_protocol.specs.State.{opening};
ghost use Rattle.ftc_protocol.specs.Run.{IsRun, state_after};
ghost use Rattle.ftc_protocol.specs.Fates.{fates_in};
ghost use Rattle.ftc_machine.specs.Illegal.{IsFirstIllegal};

use crate::machine::Machine;
use ftc_base::{NoMemory, Refuse};
use ftc_journal::Journal;
use ftc_mbox::ChainSpec;
use ftc_pcap::Packets;
use ftc_protocol::Fates;
use ftc_script::Script;
use std::alloc::Global;
use thiserror::Error;

/// The first event of a journal that the protocol doesn't allow, by its number from 0.
#[derive(Clone, Copy, Debug, PartialEq, Eq, Error)]
#[error("event {event} is not allowed")]
pub struct IllegalEvent {
    pub event: u64,
}

/// The machine after the events of a journal, one after another. It is refused for the first event that the
/// protocol doesn't allow. The script was accepted for the chain's ring and for as many packets.
pub fn replay<'a>(
    alloc: Global,
    spec: &'a ChainSpec,
    packets: &'a Packets,
    script: &'a Script,
    journal: &Journal,
) -> Result<Machine<'a>, Refuse<IllegalEvent>>
    requires ring { script.now.ring ≡ record { servers = length spec.now.rules; failures = spec.now.failures } }
    requires packets { script.now.packets ≡ length packets.now }
    ensures run { IfOk result (λ machine. machine ≡ record {
      chain = spec.now;
      packets = bytes_of_packets packets.now;
      script =
          script.now;
      journal = journal.now.items;
    }) }
    ensures bad { IfBad result (λ fault. IsFirstIllegal
        (setting_of spec.now (bytes_of_packets packets.now) script.now) journal.now.items fault.event) }
{
    let mut machine = Machine::new(alloc, spec, packets, script)?;
    for (place, event) in journal.as_slice().iter().enumerate() {
        match machine.step(event) {
            Ok(()) => {}
            Err(Refuse::Bad(_)) => {
                return Err(Refuse::Bad(IllegalEvent {
                    event: place as u64,
                }));
            }
            Err(Refuse::NoMemory) => return Err(Refuse::NoMemory),
        }
    }
    Ok(machine)
}

/// What became of each packet in a run, whose journal is given. It walks the journal once.
pub fn fates_of(
    alloc: Global,
    spec: &ChainSpec,
    packets: &Packets,
    script: &Script,
    journal: &Journal,
) -> Result<Fates, NoMemory>
    requires ring { script.now.ring ≡ record { servers = length spec.now.rules; failures = spec.now.failures } }
    requires packets { script.now.packets ≡ length packets.now }
    requires run { ∥ IsRun (setting_of spec.now (bytes_of_packets packets.now) script.now) journal.now.items ∥₁ }
    ensures { IfOk result (λ fates. fates ≡ fates_in (setting_of spec.now (bytes_of_packets packets.now) script.now)
        (state_after (setting_of spec.now (bytes_of_packets packets.now) script.now)
        (opening (setting_of spec.now (bytes_of_packets packets.now) script.now)) journal.now.items)) }
{
    match replay(alloc, spec, packets, script, journal) {
        Ok(machine) => machine.fates(),
        Err(Refuse::NoMemory) => Err(NoMemory),
        Err(Refuse::Bad(_)) => unreachable!(),
    }
}
