//! What became of the packets of a finished run.

ghost use Rattle.std.specs.Prelude.{◌≡◌, ◌<◌, ℕ, length, map, IsSome, IfSome, IfOk};
ghost use Rattle.std.specs.List.{range_with_len};
ghost use Rattle.ftc_protocol.specs.declared.fate.Fate.{Fate as AFate};
ghost use Rattle.ftc_protocol.specs.Fates.{fates_in};
ghost use Rattle.ftc_protocol.specs.Run.{state_after};
ghost use Rattle.ftc_protocol.specs.Setting.{setting_of};
ghost use Rattle.ftc_protocol.specs.State.{opening};
ghost use Rattle.ftc_serial.specs.Held.{serial_state};
ghost use Rattle.ftc_serial.specs.Packets.{bytes_of_packets};
ghost use Rattle.ftc.specs.Driven.{IsFinishedRun};
ghost use Rattle.ftc.specs.Settled.{fate_at, AreFatesOf};
ghost use Rattle.ftc.specs.Texts.{ring_of};

use crate::texts::Texts;
use ftc_base::NoMemory;
use ftc_journal::Journal;
use ftc_machine::fates_of as replayed_fates;
use ftc_protocol::{Fate, Fates, what_a_run_released};
use ftc_serial::{Place, Serial};
use std::alloc::Global;

/// The fate of a packet that ends at this place of the serial chain. None where it was lost.
fn fate_at(place: Place) -> Option<Fate>
    ensures { result ≡ fate_at place }
{
    match place {
        Place::Released => Some(Fate::Released),
        Place::Filtered { server } => Some(Fate::Filtered { server }),
        Place::Waiting { .. } | Place::Passed => None,
    }
}

/// What became of each packet, by its place in the serial chain. None where one was lost.
fn fates_by_place(alloc: Global, serial: &Serial, packets: u32) -> Result<Option<Fates>, NoMemory>
    requires { (packet : ℕ) → packet < packets → IsSome ((serial_state serial.now).place packet) }
    ensures { IfOk result (λ found. IfSome found (λ fates. (fate : ℕ → AFate) →
        AreFatesOf (serial_state serial.now).place fate → fates ≡ map fate (range_with_len 0 packets))) }
{
    let mut fates = Fates::new(alloc);
    for packet in 0..packets {
        match fate_at(serial.place(packet)) {
            Some(fate) => fates.push(fate)?,
            None => return Ok(None),
        }
    }
    Ok(Some(fates))
}

/// What became of each packet of a finished run. Where none was lost, the serial chain behind the run's trace tells it,
/// and else the journal is replayed.
pub fn fates_of(
    alloc: Global,
    texts: &Texts,
    journal: &Journal,
    serial: &Serial,
) -> Result<Fates, NoMemory>
    requires ring { texts.now.script.ring ≡ ring_of texts.now.spec }
    requires packets { texts.now.script.packets ≡ length texts.now.capture.packets }
    requires finished { IsFinishedRun
        (setting_of texts.now.spec (bytes_of_packets texts.now.capture.packets) texts.now.script)
        journal.now.items (serial_state serial.now) }
    ensures { IfOk result (λ fates. fates ≡ fates_in
        (setting_of texts.now.spec (bytes_of_packets texts.now.capture.packets) texts.now.script)
        (state_after (setting_of texts.now.spec (bytes_of_packets texts.now.capture.packets) texts.now.script)
        (opening (setting_of texts.now.spec (bytes_of_packets texts.now.capture.packets) texts.now.script))
        journal.now.items)) }
{
    what_a_run_released();
    let packets = &texts.capture.packets;
    match fates_by_place(alloc, serial, packets.len() as u32)? {
        Some(fates) => Ok(fates),
        None => replayed_fates(alloc, &texts.spec, packets, &texts.script, journal),
    }
}
