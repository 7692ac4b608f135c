//! The run of a chain by worker threads, whose released packets are written while it goes on.

ghost use Rattle.std.specs.Prelude.{◌≡◌, ◌↔◌, ◌≤◌, length, None, IfOk, IsErrOf};
ghost use Rattle.ftc_base.specs.declared.limits.TheConstants.{MOST_THREADS};
ghost use Rattle.ftc_outside.specs.Desk.{SameButAt, HasServed};
ghost use Rattle.ftc_report.specs.Output.{AreWritable};
ghost use Rattle.ftc_serial.specs.Held.{rules_of, serial_state};
ghost use Rattle.ftc_serial.specs.Packets.{bytes_of_packets};
ghost use Rattle.ftc_chain.specs.ChainRun.{setting_in};
ghost use Rattle.ftc_protocol.specs.Setting.{setting_of};
ghost use Rattle.ftc_stream.specs.Records.{writable, records, HasGrownBy};
ghost use Rattle.ftc_stream.specs.Taps.{AreLeft};
ghost use Rattle.ftc.specs.Driven.{IsFinishedRun};
ghost use Rattle.ftc.specs.Texts.{ring_of};

use crate::drive::{Driven, close};
use crate::texts::Texts;
use ftc_alone::finish;
use ftc_base::{NoMemory, ReleasedList};
use ftc_chain::Chain;
use ftc_outside::{Desk, DeskError, Gate};
use ftc_stream::{PutFault, Seen, Taps};
use ftc_workers::{Written, run_to};
use std::alloc::Global;
use std::sync::Wait;
use std::thread::Threads;

/// A run that is finished, and what was put of what it released, in order.
#[derive(Drop)]
pub struct Worked<'a> {
    pub driven: Driven<'a>,
    pub put: ReleasedList,
}

/// The fault of a put as the desk's.
fn error_of(fault: PutFault) -> DeskError
    ensures { result ≡ DeskError.Failed ↔ (fault ≡ PutFault.Failed) }
{
    match fault {
        PutFault::Failed => DeskError::Failed,
        PutFault::NoMemory => DeskError::NoMemory,
    }
}

/// Does what workers left of a run.
fn end<'a>(alloc: Global, texts: &Texts, chain: Chain<'a>) -> Result<Driven<'a>, NoMemory>
    requires ring { texts.now.script.ring ≡ ring_of texts.now.spec }
    requires packets { texts.now.script.packets ≡ length texts.now.capture.packets }
    requires setting { setting_in chain
        ≡ setting_of texts.now.spec (bytes_of_packets texts.now.capture.packets) texts.now.script }
    ensures finished { IfOk result (λ driven. IsFinishedRun
        (setting_of texts.now.spec (bytes_of_packets texts.now.capture.packets) texts.now.script)
        driven.chain.journal (serial_state driven.serial)) }
    ensures writable { IfOk result
        (λ driven. AreWritable texts.now.capture.packets (serial_state driven.serial).released) }
    ensures rules { IfOk result (λ driven. rules_of driven.serial ≡ texts.now.spec.rules) }
{
    ftc_protocol::finish();
    let mut chain = chain;
    finish(&mut chain)?;
    close(alloc, texts, chain)
}

/// Lets so many workers run a new chain, while what they release is appended to a file and the taps are told; and then
/// does what they left.
pub fn work<'a, R: Threads + Wait + Sync, D: Desk, G: Gate>(
    rt: &R,
    alloc: Global,
    texts: &'a Texts,
    workers: u8,
    gate: &G,
    out: &str,
    desk: &mut D,
    taps: &mut Taps,
) -> Result<Worked<'a>, DeskError>
    requires workers { (1 ≤ workers) × (workers ≤ MOST_THREADS) }
    requires ring { texts.now.script.ring ≡ ring_of texts.now.spec }
    requires packets { texts.now.script.packets ≡ length texts.now.capture.packets }
    ensures finished { IfOk result (λ worked. IsFinishedRun
        (setting_of texts.now.spec (bytes_of_packets texts.now.capture.packets) texts.now.script)
        worked.driven.chain.journal (serial_state worked.driven.serial)) }
    ensures writable { IfOk result (λ worked.
        AreWritable texts.now.capture.packets (serial_state worked.driven.serial).released) }
    ensures rules { IfOk result (λ worked. rules_of worked.driven.serial ≡ texts.now.spec.rules) }
    ensures grown { D.tells desk.old → IfOk result (λ worked.
        HasGrownBy out.now (records texts.now.capture worked.put) (D.file desk.old) (D.file desk.new)) }
    ensures told { IfOk result (λ worked. AreLeft (writable texts.now.capture worked.put)
        (⟦<Taps as Seen>⟧.faces taps.old) (⟦<Taps as Seen>⟧.faces taps.new)) }
    ensures others { D.tells desk.old → SameButAt out.now (D.file desk.old) (D.file desk.new) }
    ensures served { HasServed D.tells D.sound D.faults (IsErrOf result DeskError.Failed) desk.old desk.new }
    ensures absent { D.tells desk.old → D.sound desk.old → IsErrOf result DeskError.Failed →
        D.file desk.old out.now ≡ None }
{
    let capture = &texts.capture;
    let chain = Chain::new(alloc, &texts.spec, &capture.packets, &texts.script)?;
    let Written {
        chain,
        commits: _,
        put,
        result,
    } = run_to(rt, alloc, chain, workers, gate, capture, out, desk, taps);
    match result {
        Ok(()) => {
            let driven = end(alloc, texts, chain)?;
            Ok(Worked { driven, put })
        }
        Err(fault) => Err(error_of(fault)),
    }
}
