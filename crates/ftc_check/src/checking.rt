//! The check of a run's files.

ghost use Rattle.std.specs.Prelude.{◌≡◌, length, IfOk, IfSome, IsNone, Some};
ghost use Rattle.ftc_serial.specs.Packets.{bytes_of_packets};
ghost use Rattle.ftc_serial.specs.Held.{rules_of, serial_state};
ghost use Rattle.ftc_serial.specs.Serial.{serial_opening, serial_run};
ghost use Rattle.ftc_serial.specs.Trace.{trace_of};
ghost use Rattle.ftc_machine.specs.RunSoFar.{setting_in};
ghost use Rattle.ftc_protocol.specs.Setting.{setting_of};
ghost use Rattle.ftc_report.specs.Output.{AreWritable, out_bytes};
ghost use Rattle.ftc_check.specs.Difference.{IsFirstDifference};
ghost use Rattle.ftc_check.specs.Verdict.{IsVerdict, IsReport, IsOtherReport};

use crate::difference::first_difference;
use crate::report::without_taps;
use crate::verdict::Checked;
use ftc_base::{Lines, NoMemory, Refuse};
use ftc_journal::Journal;
use ftc_machine::{Machine, replay, trace_of};
use ftc_mbox::ChainSpec;
use ftc_pcap::Capture;
use ftc_protocol::serial_of_a_run;
use ftc_report::{chain_after, out_of, print, released_fit};
use ftc_script::Script;
use ftc_serial::Serial;
use std::alloc::Global;

/// Where OUT begins to differ from what the serial chain released.
fn out_difference(
    alloc: Global,
    capture: &Capture,
    serial: &Serial,
    out: &[u8],
) -> Result<Option<u64>, NoMemory>
    requires { AreWritable capture.now.packets (serial_state serial.now).released }
    ensures same { IfOk result (λ found. IsNone found →
        out.now ≡ out_bytes capture.now (serial_state serial.now).released) }
    ensures differs { IfOk result
        (λ found. IfSome found (IsFirstDifference out.now (out_bytes capture.now (serial_state serial.now).released))) }
{
    let expected = out_of(alloc, capture, serial.released())?;
    Ok(first_difference(out, expected.as_slice()))
}

/// Where the report, without the lines of its taps, begins to differ from that of the run.
fn report_difference(
    alloc: Global,
    machine: &Machine,
    serial: &Serial,
    report: &[u8],
) -> Result<Option<u64>, NoMemory>
    requires rules { rules_of serial.now ≡ machine.now.chain.rules }
    requires state { serial_run machine.now.chain.rules (serial_opening machine.now.packets)
        (trace_of machine.now.journal) ≡ Some (serial_state serial.now) }
    ensures same { IfOk result (λ found. IsNone found →
        IsReport (setting_in machine.now) machine.now.journal report.now) }
    ensures differs { IfOk result
        (λ found. IfSome found (IsOtherReport (setting_in machine.now) machine.now.journal report.now)) }
{
    let fates = machine.fates()?;
    let expected = print(alloc, &fates, serial, &Lines::new(alloc))?;
    Ok(first_difference(without_taps(report), expected.as_slice()))
}

/// What the check says of a run's OUT and report.
fn compare(
    alloc: Global,
    spec: &ChainSpec,
    capture: &Capture,
    machine: &Machine,
    out: &[u8],
    report: &[u8],
) -> Result<Checked, NoMemory>
    requires chain { machine.now.chain ≡ spec.now }
    requires packets { machine.now.packets ≡ bytes_of_packets capture.now.packets }
    ensures { IfOk result (λ verdict. IsVerdict
        (setting_in machine.now) capture.now out.now machine.now.journal report.now verdict) }
{
    let journal = machine.journal();
    if !machine.finished() {
        return Ok(Checked::Unfinished);
    }
    serial_of_a_run();
    let trace = trace_of(alloc, journal)?;
    let serial = chain_after(alloc, spec, &capture.packets, &trace)?;
    released_fit(&capture.packets);
    match out_difference(alloc, capture, &serial, out)? {
        Some(at) => return Ok(Checked::OutDiffers { at }),
        None => {}
    }
    match report_difference(alloc, machine, &serial, report)? {
        Some(at) => Ok(Checked::ReportDiffers { at }),
        None => Ok(Checked::Yes),
    }
}

/// Whether the journal is that of a finished run of the chain on the capture's packets with this script, and
/// OUT and the report are those of that run, but for the lines of the report's taps. The script was accepted
/// for the chain's ring and for as many packets.
pub fn check(
    alloc: Global,
    spec: &ChainSpec,
    capture: &Capture,
    script: &Script,
    out: &[u8],
    journal: &Journal,
    report: &[u8],
) -> Result<Checked, NoMemory>
    requires ring { script.now.ring ≡ record { servers = length spec.now.rules; failures = spec.now.failures } }
    requires packets { script.now.packets ≡ length capture.now.packets }
    ensures { IfOk result (λ verdict. IsVerdict
        (setting_of spec.now (bytes_of_packets capture.now.packets) script.now) capture.now out.now journal.now.items
        report.now verdict) }
{
    match replay(alloc, spec, &capture.packets, script, journal) {
        Ok(machine) => compare(alloc, spec, capture, &machine, out, report),
        Err(Refuse::Bad(fault)) => Ok(Checked::NotRun { event: fault.event }),
        Err(Refuse::NoMemory) => Err(NoMemory),
    }
}
