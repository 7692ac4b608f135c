//! The report over a journal.

ghost use Rattle.std.specs.Prelude.{◌≡◌, IfOk, IsSome, Some, length};
ghost use Rattle.ftc_serial.specs.Serial.{serial_opening, serial_run};
ghost use Rattle.ftc_serial.specs.Packets.{bytes_of_packets};
ghost use Rattle.ftc_serial.specs.Held.{rules_of, serial_state};
ghost use Rattle.ftc_serial.specs.Trace.{trace_of};
ghost use Rattle.ftc_protocol.specs.Setting.{setting_of};
ghost use Rattle.ftc_protocol.specs.Run.{IsRun};
ghost use Rattle.ftc_report.specs.Report.{report_of};

use crate::printer::print;
use ftc_base::{Bytes, Lines, NoMemory, Refuse};
use ftc_journal::Journal;
use ftc_machine::{fates_of, trace_of};
use ftc_mbox::ChainSpec;
use ftc_pcap::Packets;
use ftc_protocol::{accepted, serial_of_a_run};
use ftc_script::Script;
use ftc_serial::{Serial, Trace};
use std::alloc::Global;

/// The serial chain after a trace all of whose steps are legal.
pub fn chain_after(
    alloc: Global,
    spec: &ChainSpec,
    packets: &Packets,
    trace: &Trace,
) -> Result<Serial, NoMemory>
    requires { IsSome (serial_run spec.now.rules (serial_opening (bytes_of_packets packets.now)) trace.now) }
    ensures rules { IfOk result (λ serial. rules_of serial ≡ spec.now.rules) }
    ensures state { IfOk result
        (λ serial. serial_run spec.now.rules (serial_opening (bytes_of_packets packets.now)) trace.now
        ≡ Some (serial_state serial)) }
{
    match Serial::run(alloc, spec, packets, trace) {
        Ok(serial) => Ok(serial),
        Err(Refuse::Bad(_)) => unreachable!(),
        Err(Refuse::NoMemory) => Err(NoMemory),
    }
}

/// The report of a run, whose journal is given, with the lines of the taps. The script was accepted for the
/// chain's ring and for as many packets.
pub fn report(
    alloc: Global,
    spec: &ChainSpec,
    packets: &Packets,
    script: &Script,
    journal: &Journal,
    taps: &Lines,
) -> Result<Bytes, NoMemory>
    requires ring { script.now.ring ≡ record { servers = length spec.now.rules; failures = spec.now.failures } }
    requires packets { script.now.packets ≡ length packets.now }
    requires run { ∥ IsRun (setting_of spec.now (bytes_of_packets packets.now) script.now) journal.now.items ∥₁ }
    ensures { IfOk result (λ text. text
        ≡ report_of (setting_of spec.now (bytes_of_packets packets.now) script.now) journal.now.items taps.now) }
{
    // The chain is in its bounds and the script was accepted, so that the laws speak of the run.
    accepted();
    let _ = script.ring();
    let _ = spec.rules();
    serial_of_a_run();
    let fates = fates_of(alloc, spec, packets, script, journal)?;
    let trace = trace_of(alloc, journal)?;
    let serial = chain_after(alloc, spec, packets, &trace)?;
    print(alloc, &fates, &serial, taps)
}
