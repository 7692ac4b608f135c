//! Workers run over a chain, and what they release is written while they run.

ghost use Rattle.std.specs.Prelude.{◌≡◌, ◌≢◌, ◌+◌, ◌≤◌, ⊤, [], None, codes, OnOk, OnErr, IsErrOf};
ghost use Rattle.ftc_base.specs.declared.limits.TheConstants.{MOST_THREADS};
ghost use Rattle.ftc_outside.specs.Desk.{SameButAt, HasServed};
ghost use Rattle.ftc_stream.specs.Records.{writable, records, HasGrownBy, HasGrownInPart};
ghost use Rattle.ftc_stream.specs.Taps.{AreLeft, AreLeftInPart};
ghost use Rattle.ftc_workers.specs.Given.{given_of};
ghost use Rattle.ftc_workers.specs.Visits.{visits};

use crate::driving::{Driven, drive};
use ftc_alone::quit_all;
use ftc_base::ReleasedList;
use ftc_chain::Chain;
use ftc_outside::{Desk, Gate};
use ftc_pcap::Capture;
use ftc_stream::{Page, PutFault, Seen, Taps, ring};
use std::alloc::Global;
use std::sync::Wait;
use std::thread::Threads;

/// The chain, how many commits the workers made, what was put, in order, and how the writing ended.
#[derive(Drop)]
pub struct Written<'a> {
    pub chain: Chain<'a>,
    pub commits: u64,
    pub put: ReleasedList,
    pub result: Result<(), PutFault>,
}

/// Does nothing. This use of a desk and of taps that come back ties them to those that were lent.
fn settle<D>(desk: &mut D, taps: &mut Taps)
    requires { ⊤ }
    ensures desk { desk.new ≡ desk.old }
    ensures taps { ⟦<Taps as Seen>⟧.faces taps.new ≡ ⟦<Taps as Seen>⟧.faces taps.old }
{}

/// Runs so many workers over the chain, as `run` does, and appends what they release to a file while they run. Nothing
/// of the chain was taken out before.
pub fn run_to<'a, R: Threads + Wait + Sync, D: Desk, G: Gate>(
    rt: &R,
    alloc: Global,
    chain: Chain<'a>,
    workers: u8,
    gate: &G,
    capture: &Capture,
    out: &str,
    desk: &mut D,
    taps: &mut Taps,
) -> Written<'a>
    requires workers { (1 ≤ workers) × (workers ≤ MOST_THREADS) }
    requires drained { chain.drained ≡ [] }
    ensures counted { visits result.chain.journal ≡ visits chain.entry.journal + result.commits }
    ensures given { given_of result.chain ≡ given_of chain.entry }
    ensures grown { D.tells desk.old → OnOk result.result (
        HasGrownBy out.now (records capture.now result.put) (D.file desk.old) (D.file desk.new)) }
    ensures told { OnOk result.result (AreLeft (writable capture.now result.put)
        (⟦<Taps as Seen>⟧.faces taps.old) (⟦<Taps as Seen>⟧.faces taps.new)) }
    ensures part { D.tells desk.old → OnErr result.result (
        HasGrownInPart out.now capture.now result.put (D.file desk.old) (D.file desk.new)) }
    ensures told_in_part { OnErr result.result (AreLeftInPart (writable capture.now result.put)
        (⟦<Taps as Seen>⟧.faces taps.old) (⟦<Taps as Seen>⟧.faces taps.new)) }
    ensures untold { IsErrOf result.result PutFault.Failed → AreLeft (writable capture.now result.put)
        (⟦<Taps as Seen>⟧.faces taps.old) (⟦<Taps as Seen>⟧.faces taps.new) }
    ensures others { D.tells desk.old → SameButAt out.now (D.file desk.old) (D.file desk.new) }
    ensures served { HasServed D.tells D.sound D.faults (IsErrOf result.result PutFault.Failed) desk.old desk.new }
    ensures absent { D.tells desk.old → D.sound desk.old → IsErrOf result.result PutFault.Failed →
        (D.file desk.old out.now ≡ None) × (out.now ≢ codes "-") }
{
    let mut chain = chain;
    let Ok((sender, writer)) = ring(alloc, chain.packets().len() as u32) else {
        return Written {
            chain,
            commits: 0,
            put: ReleasedList::new(alloc),
            result: Err(PutFault::NoMemory),
        };
    };
    quit_all(&mut chain);
    let mut page = Page {
        alloc,
        writer,
        capture,
        out,
        desk,
        taps,
    };
    let Driven {
        chain,
        commits,
        result,
    } = drive(rt, alloc, chain, sender, workers, gate, &mut page);
    let Page {
        writer,
        desk,
        taps,
        ..
    } = page;
    settle(desk, taps);
    Written {
        chain,
        commits,
        put: writer.into_put(),
        result,
    }
}
