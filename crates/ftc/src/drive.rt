//! The run of a chain on one thread, and what is made of a run that is finished.

ghost use Rattle.std.specs.Prelude.{◌≡◌, length, IfOk};
ghost use Rattle.ftc_report.specs.Output.{AreWritable};
ghost use Rattle.ftc_report.specs.Report.{report_of};
ghost use Rattle.ftc_serial.specs.Held.{rules_of, serial_state};
ghost use Rattle.ftc_serial.specs.Packets.{bytes_of_packets};
ghost use Rattle.ftc_chain.specs.ChainRun.{setting_in, chain_state as state_of_run};
ghost use Rattle.ftc_protocol.specs.Drive.{IsDrive};
ghost use Rattle.ftc_protocol.specs.Run.{IsFinished};
ghost use Rattle.ftc_protocol.specs.Setting.{setting_of};
ghost use Rattle.ftc.specs.Driven.{IsFinishedRun};
ghost use Rattle.ftc.specs.Texts.{ring_of};

use crate::fates::fates_of;
use crate::numbers::numbers_fit;
use crate::texts::Texts;
use ftc_alone::run;
use ftc_base::{Bytes, Lines, NoMemory};
use ftc_chain::Chain;
use ftc_machine::trace_of;
use ftc_protocol::{accepted, drive as drives, serial_of_a_run};
use ftc_report::{chain_after, print, released_fit};
use ftc_serial::Serial;
use std::alloc::Global;

/// A run that is finished, and the serial chain behind its trace.
#[derive(Drop)]
pub struct Driven<'a> {
    pub chain: Chain<'a>,
    pub serial: Serial,
}

/// Puts the serial chain beside a run that is finished.
pub fn close<'a>(alloc: Global, texts: &Texts, chain: Chain<'a>) -> Result<Driven<'a>, NoMemory>
    requires ring { texts.now.script.ring ≡ ring_of texts.now.spec }
    requires packets { texts.now.script.packets ≡ length texts.now.capture.packets }
    requires setting { setting_in chain
        ≡ setting_of texts.now.spec (bytes_of_packets texts.now.capture.packets) texts.now.script }
    requires finished { ∥ IsFinished (setting_in chain) (state_of_run chain) ∥₁ }
    ensures journal { IfOk result (λ driven. driven.chain.journal ≡ chain.entry.journal) }
    ensures finished { IfOk result (λ driven. IsFinishedRun
        (setting_of texts.now.spec (bytes_of_packets texts.now.capture.packets) texts.now.script)
        driven.chain.journal (serial_state driven.serial)) }
    ensures writable { IfOk result
        (λ driven. AreWritable texts.now.capture.packets (serial_state driven.serial).released) }
    ensures rules { IfOk result (λ driven. rules_of driven.serial ≡ texts.now.spec.rules) }
{
    // The chain is in its bounds and the script was accepted, so that the laws speak of the run.
    accepted();
    let _ = texts.spec.rules();
    let _ = texts.script.ring();
    serial_of_a_run();
    let packets = &texts.capture.packets;
    let journal = chain.journal();
    numbers_fit(journal);
    let trace = trace_of(alloc, journal)?;
    let serial = chain_after(alloc, &texts.spec, packets, &trace)?;
    released_fit(packets);
    Ok(Driven { chain, serial })
}

/// Plays the schedule over a new chain, and then does what is left.
pub fn drive<'a>(alloc: Global, texts: &'a Texts) -> Result<Driven<'a>, NoMemory>
    requires ring { texts.now.script.ring ≡ ring_of texts.now.spec }
    requires packets { texts.now.script.packets ≡ length texts.now.capture.packets }
    ensures finished { IfOk result (λ driven. IsFinishedRun
        (setting_of texts.now.spec (bytes_of_packets texts.now.capture.packets) texts.now.script)
        driven.chain.journal (serial_state driven.serial)) }
    ensures chosen { IfOk result (λ driven. ∥ IsDrive
        (setting_of texts.now.spec (bytes_of_packets texts.now.capture.packets) texts.now.script)
        texts.now.schedule.items driven.chain.journal ∥₁) }
    ensures writable { IfOk result
        (λ driven. AreWritable texts.now.capture.packets (serial_state driven.serial).released) }
    ensures rules { IfOk result (λ driven. rules_of driven.serial ≡ texts.now.spec.rules) }
{
    drives();
    let mut chain = Chain::new(alloc, &texts.spec, &texts.capture.packets, &texts.script)?;
    run(&mut chain, &texts.schedule)?;
    close(alloc, texts, chain)
}

/// The text of the report of a run that is finished, with these lines of taps.
pub fn report_of(
    alloc: Global,
    texts: &Texts,
    driven: &Driven<'_>,
    lines: &Lines,
) -> Result<Bytes, NoMemory>
    requires ring { texts.now.script.ring ≡ ring_of texts.now.spec }
    requires packets { texts.now.script.packets ≡ length texts.now.capture.packets }
    requires finished { IsFinishedRun
        (setting_of texts.now.spec (bytes_of_packets texts.now.capture.packets) texts.now.script)
        driven.now.chain.journal (serial_state driven.now.serial) }
    requires rules { rules_of driven.now.serial ≡ texts.now.spec.rules }
    ensures { IfOk result (λ text. text ≡ report_of (setting_of texts.now.spec
        (bytes_of_packets texts.now.capture.packets) texts.now.script) driven.now.chain.journal lines.now) }
{
    let fates = fates_of(alloc, texts, driven.chain.journal(), &driven.serial)?;
    print(alloc, &fates, &driven.serial, lines)
}
