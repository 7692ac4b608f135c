//! A run that is played from its texts.

ghost use Rattle.std.specs.Prelude.{◌≡◌, length, IfOk};

use crate::{Change, Trial};
use ftc_base::{Bytes, Lines, Refuse, split_line};
use ftc_conf::read_chain;
use ftc_journal::{Journal, read};
use ftc_machine::{Machine, replay, trace_of};
use ftc_mbox::ChainSpec;
use ftc_pcap::{Packet, Packets};
use ftc_protocol::ring_of;
use ftc_report::print;
use ftc_ring::Ring;
use ftc_script::{Script, accepted, read_script};
use ftc_serial::Serial;
use std::alloc::Global;
use std::process::Abort;
use std::test::Fail;

/// Adds a packet with these bytes.
fn add_packet(
    rt: &impl Abort,
    alloc: Global,
    packets: &mut Packets,
    held: &[u8],
) -> Result<(), Fail> {
    let mut bytes = Bytes::new(alloc);
    bytes.append(held)?;
    assert!(rt; bytes.len() < 100);
    assert!(rt; packets.len() < 10);
    packets.push(Packet {
        seconds: 1,
        fraction: 0,
        original: 42,
        bytes,
    })?;
    Ok(())
}

/// The packets with these bytes.
fn packets_of(rt: &impl Abort, alloc: Global, all: &[&[u8]]) -> Result<Packets, Fail> {
    let mut packets = Packets::new(alloc);
    for held in all {
        add_packet(rt, alloc, &mut packets, held)?;
    }
    Ok(packets)
}

/// The serial run of the visits and releases that count in a journal.
fn serial_of(
    alloc: Global,
    spec: &ChainSpec,
    packets: &Packets,
    journal: &Journal,
) -> Result<Serial, Fail> {
    let trace = trace_of(alloc, journal)?;
    match Serial::run(alloc, spec, packets, &trace) {
        Ok(serial) => Ok(serial),
        Err(_) => Err(Fail::new("the trace is no serial run")),
    }
}

/// The report of a finished run.
fn report_of(alloc: Global, machine: &Machine<'_>, serial: &Serial) -> Result<String, Fail> {
    let fates = machine.fates()?;
    let report = print(alloc, &fates, serial, &Lines::new(alloc))?;
    Ok(String::from_utf8(report.into_vec())?)
}

/// What came of the events: the report of the run, unless something is still to be done in it.
fn end_of(
    alloc: Global,
    spec: &ChainSpec,
    packets: &Packets,
    machine: &Machine<'_>,
) -> Result<String, Fail> {
    if !machine.finished() {
        return Ok(String::from_str(alloc, "unfinished")?);
    }
    let serial = serial_of(alloc, spec, packets, machine.journal())?;
    report_of(alloc, machine, &serial)
}

/// Why a trial was not played: one of its texts is refused.
fn refusal(trial: &Trial, text: &str) -> Fail {
    Fail::new(format_args!("{}: the {text} is refused", trial.name))
}

/// The script of a trial, for its ring and for so many packets.
fn script_of(alloc: Global, trial: &Trial, ring: &Ring, packets: u32) -> Result<Script, Fail>
    ensures ring { IfOk result (λ script. script.ring ≡ ring.now) }
    ensures packets { IfOk result (λ script. script.packets ≡ packets) }
{
    let _servers = ring.servers();
    accepted();
    match read_script(alloc, trial.script.as_bytes(), ring, packets) {
        Ok(script) => Ok(script),
        Err(_) => Err(refusal(trial, "script")),
    }
}

/// The chain of a trial.
fn spec_of(alloc: Global, trial: &Trial) -> Result<ChainSpec, Fail> {
    match read_chain(alloc, trial.chain.as_bytes()) {
        Ok(spec) => Ok(spec),
        Err(_) => Err(refusal(trial, "chain")),
    }
}

/// The journal of a text.
fn journal_of(alloc: Global, trial: &Trial, text: &[u8]) -> Result<Journal, Fail> {
    match read(alloc, text) {
        Ok(journal) => Ok(journal),
        Err(_) => Err(refusal(trial, "journal")),
    }
}

/// A chain, packets, and a script for them.
#[derive(Drop)]
struct Parts {
    spec: ChainSpec,
    packets: Packets,
    script: Script,
    ghost ring: { script.ring ≡ record { servers = length spec.rules; failures = spec.failures } },
    ghost count: { script.packets ≡ length packets },
}

impl Parts {
    /// Those of a trial.
    fn of(rt: &impl Abort, alloc: Global, trial: &Trial) -> Result<Parts, Fail> {
        let spec = spec_of(alloc, trial)?;
        let packets = packets_of(rt, alloc, trial.packets)?;
        let script = script_of(alloc, trial, &ring_of(&spec), packets.len() as u32)?;
        Ok(Parts {
            spec,
            packets,
            script,
        })
    }

    /// What comes of a journal over them. Of one with an event that is refused it is that event.
    fn answer(&self, alloc: Global, journal: &Journal) -> Result<String, Fail> {
        match replay(alloc, &self.spec, &self.packets, &self.script, journal) {
            Ok(machine) => end_of(alloc, &self.spec, &self.packets, &machine),
            Err(Refuse::Bad(fault)) => Ok(format!(in alloc; "event {}", fault.event)?),
            Err(Refuse::NoMemory) => Err(Fail::new("memory is refused")),
        }
    }
}

/// Plays a journal over the chain, the script and the packets of a trial. Of a journal with an event that is
/// refused the answer is that event.
pub fn play(rt: &impl Abort, alloc: Global, trial: &Trial, journal: &[u8]) -> Result<String, Fail> {
    let parts = Parts::of(rt, alloc, trial)?;
    let journal = journal_of(alloc, trial, journal)?;
    parts.answer(alloc, &journal)
}

/// The lines of a text.
fn lines_of(alloc: Global, text: &str) -> Result<Vec<&[u8]>, Fail> {
    let mut lines = Vec::new(alloc);
    let mut rest = text.as_bytes();
    while let Some((line, behind)) = split_line(rest) {
        lines.push(line)?;
        rest = behind;
    }
    Ok(lines)
}

/// The text of these lines.
fn text_of(alloc: Global, lines: &[&[u8]]) -> Result<Bytes, Fail> {
    let mut text = Bytes::new(alloc);
    for line in lines {
        text.append(line)?;
        text.append(b"\n")?;
    }
    Ok(text)
}

/// Makes a change of a journal in its lines. An event stands one line behind its number, since the header is a line
/// too.
fn change_lines(rt: &impl Abort, lines: &mut Vec<&[u8]>, change: &Change) -> Result<(), Fail> {
    match change {
        Change::Moved { event, to } => {
            let (from, to) = (event.saturating_add(1), to.saturating_add(1));
            assert!(rt; from < lines.len());
            assert!(rt; to < lines.len());
            let line = lines.remove(from);
            lines.insert(to, line)?;
        }
        Change::LeftOut { event } => {
            let place = event.saturating_add(1);
            assert!(rt; place < lines.len());
            lines.remove(place);
        }
        Change::Instead { event, line } => {
            let place = event.saturating_add(1);
            assert!(rt; place < lines.len());
            lines[place] = line.as_bytes();
        }
    }
    Ok(())
}

/// The text of a journal after a change.
pub fn changed(
    rt: &impl Abort,
    alloc: Global,
    journal: &str,
    change: &Change,
) -> Result<Bytes, Fail> {
    let mut lines = lines_of(alloc, journal)?;
    change_lines(rt, &mut lines, change)?;
    text_of(alloc, lines.as_slice())
}
