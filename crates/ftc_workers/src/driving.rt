//! Workers run over a chain beside a sink.

ghost use Rattle.std.specs.Prelude.{◌≡◌, ◌+◌, ◌≤◌, [], length};
ghost use Rattle.ftc_base.specs.declared.limits.TheConstants.{MOST_THREADS};
ghost use Rattle.ftc_chain.specs.Slots.{AreIdle};
ghost use Rattle.ftc_stream.specs.Ending.{Ended};
ghost use Rattle.ftc_workers.specs.Given.{given_of};
ghost use Rattle.ftc_workers.specs.Visits.{visits};

use crate::beside::{Back, run_beside, write_after};
use crate::latch::Latch;
use crate::shared::Shared;
use crate::tally::{Run, Tally};
use ftc_chain::Chain;
use ftc_outside::Gate;
use ftc_stream::{PutFault, Sender, Sink};
use std::alloc::Global;
use std::marker::Brand;
use std::sync::Wait;
use std::sync::ledger::Blank;
use std::thread::Threads;

/// The chain, how many commits the workers made, and how the writing ended.
#[derive(Drop)]
pub struct Driven<'a> {
    pub chain: Chain<'a>,
    pub commits: u64,
    pub result: Result<(), PutFault>,
}

/// Runs workers over a chain whose slots are idle, and counts their commits in a ledger of that name.
fn drive_named<'a, L: Run + Send + Sync, R: Threads + Wait + Sync, G: Gate, S: Sink>(
    rt: &R,
    alloc: Global,
    blank: Blank,
    chain: Chain<'a>,
    sender: Sender,
    workers: u8,
    gate: &G,
    sink: &mut S,
) -> Driven<'a>
    requires name { (blank.name ≡ L.name) × (blank.parts ≡ L.parts) }
    requires parts { blank.parts ≡ workers }
    requires start { visits chain.journal ≡ L.start }
    requires given { given_of chain ≡ L.given }
    requires workers { (1 ≤ workers) × (workers ≤ MOST_THREADS) }
    requires drained { chain.drained ≡ [] }
    requires idle { AreIdle chain }
    requires ends { (sender.items ≡ []) × (length chain.packets ≤ sender.room) }
    ensures counted { visits result.chain.journal ≡ L.start + result.commits }
    ensures given { given_of result.chain ≡ L.given }
    ensures kept { S.kept sink.old sink.new }
    ensures ended { Ended S.went S.broke result.result sink.old sink.new }
{
    let (book, share) = blank.open::<L>();
    let all = Tally { share, count: 0 };
    let shared = Shared::new(Latch::new(chain, book, Some(sender)), workers);
    let Back { all, sink, result } = run_beside(rt, alloc, &shared, workers, gate, all, sink);
    let result = write_after(sink, result);
    let (chain, commits) = shared.into_inner().close(all);
    Driven {
        chain,
        commits,
        result,
    }
}

/// Runs so many workers over a chain whose slots are idle, while the sink writes what they release.
pub fn drive<'a, R: Threads + Wait + Sync, G: Gate, S: Sink>(
    rt: &R,
    alloc: Global,
    chain: Chain<'a>,
    sender: Sender,
    workers: u8,
    gate: &G,
    sink: &mut S,
) -> Driven<'a>
    requires workers { (1 ≤ workers) × (workers ≤ MOST_THREADS) }
    requires drained { chain.drained ≡ [] }
    requires idle { AreIdle chain }
    requires ends { (sender.items ≡ []) × (length chain.packets ≤ sender.room) }
    ensures counted { visits result.chain.journal ≡ visits chain.entry.journal + result.commits }
    ensures given { given_of result.chain ≡ given_of chain.entry }
    ensures kept { S.kept sink.old sink.new }
    ensures ended { Ended S.went S.broke result.result sink.old sink.new }
{
    let blank = Blank::new(workers as u64);
    drive_named::<Brand, R, G, S>(rt, alloc, blank, chain, sender, workers, gate, sink)
}
