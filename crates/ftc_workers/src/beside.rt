//! A writer beside the workers: the calling thread writes what they release.

ghost use Rattle.std.specs.Prelude.{◌≡◌, ◌≤◌, ◌<◌, OnOk, OnErr};
ghost use Rattle.ftc_base.specs.declared.limits.TheConstants.{MOST_THREADS};
ghost use Rattle.ftc_stream.specs.Ending.{Ended};

use crate::office::close;
use crate::shared::{Shared, begin_writing, end, wait_to_write, wake_blocked};
use crate::spreading::spread;
use crate::tally::{Run, Tally};
use ftc_outside::Gate;
use ftc_stream::{PutFault, Sink};
use std::alloc::Global;
use std::sync::Wait;
use std::thread;
use std::thread::{Promise, Threads};

/// Writes while the workers run.
fn write_while<L: Run, R: Wait, S: Sink>(
    rt: &R,
    shared: &Shared<'_, L>,
    sink: &mut S,
) -> Result<(), PutFault>
    ensures kept { S.kept sink.old sink.new }
    ensures ended { Ended S.went S.broke result sink.old sink.new }
{
    for _ in rt.forever() {
        let ended = begin_writing(rt, shared);
        let count = sink.write_some()?;
        if ended {
            return Ok(());
        }
        if count == 0 {
            wait_to_write(rt, shared);
        }
    }
    unreachable!()
}

/// Writes while the workers run, and ends them after a fault.
fn write_beside<L: Run, R: Wait, S: Sink>(
    rt: &R,
    shared: &Shared<'_, L>,
    sink: &mut S,
) -> Result<(), PutFault>
    ensures kept { S.kept sink.old sink.new }
    ensures ended { Ended S.went S.broke result sink.old sink.new }
{
    let result = write_while(rt, shared, sink);
    if result.is_err() {
        close(rt, &shared.office);
        wake_blocked(shared);
    }
    result
}

/// Writes what is left, until a call writes nothing.
fn write_rest<S: Sink>(sink: &mut S) -> Result<(), PutFault>
    ensures kept { S.kept sink.old sink.new }
    ensures ended { Ended S.went S.broke result sink.old sink.new }
{
    while sink.write_some()? > 0 {}
    Ok(())
}

/// After the joins: what is left is written, unless there was a fault.
pub fn write_after<S: Sink>(sink: &mut S, before: Result<(), PutFault>) -> Result<(), PutFault>
    ensures kept { S.kept sink.old sink.new }
    ensures ok { OnOk before (Ended S.went S.broke result sink.old sink.new) }
    ensures err { OnErr before ((result ≡ before) × (sink.new ≡ sink.old)) }
{
    match before {
        Ok(()) => write_rest(sink),
        Err(fault) => Err(fault),
    }
}

/// What the workers' thread promises: it hands back all parts of the ledger.
#[derive(Clone, Copy)]
struct AllParts(u8);

impl<L: Run> Promise<Tally<L>> for AllParts {
    ghost kept_by = { λ parts tally. tally.share.parts ≡ parts.0 };
}

/// What comes back from the workers and the writer.
#[derive(Drop)]
pub struct Back<'a, L: Run, S: Sink> {
    pub all: Tally<L>,
    pub sink: &'a mut S,
    pub result: Result<(), PutFault>,
}

/// The workers, and word of their end.
fn spread_to_end<L: Run + Send + Sync, R: Threads + Wait + Sync, G: Gate>(
    rt: &R,
    alloc: Global,
    shared: &Shared<'_, L>,
    workers: u8,
    gate: &G,
    all: Tally<L>,
) -> Tally<L>
    requires some { (0 < workers) × (workers ≤ MOST_THREADS) }
    requires parts { all.share.parts ≡ workers }
    ensures { result.share.parts ≡ workers }
{
    let back = spread(rt, alloc, shared, 0, workers, gate, all);
    end(rt, shared);
    back
}

/// Runs the workers in a thread of their own and the writer in this one; where no thread can be started, the workers
/// alone.
pub fn run_beside<'a, L: Run + Send + Sync, R: Threads + Wait + Sync, G: Gate, S: Sink>(
    rt: &R,
    alloc: Global,
    shared: &Shared<'_, L>,
    workers: u8,
    gate: &G,
    all: Tally<L>,
    sink: &'a mut S,
) -> Back<'a, L, S>
    requires workers { (1 ≤ workers) × (workers ≤ MOST_THREADS) }
    requires parts { all.share.parts ≡ workers }
    ensures same { result.sink.ghost_name ≡ sink.entry.ghost_name }
    ensures parts { result.all.share.parts ≡ workers }
    ensures kept { S.kept sink.entry.now result.sink.now }
    ensures ended { Ended S.went S.broke result.result sink.entry.now result.sink.now }
{
    thread::scope(
        thread::scope_env(),
        rt,
        |scope| -> Back<L, S>
            requires { (0 < workers) × (workers ≤ MOST_THREADS) × (all.share.parts ≡ workers) }
            ensures same { result.sink.ghost_name ≡ sink.entry.ghost_name }
            ensures parts { result.all.share.parts ≡ workers }
            ensures kept { S.kept sink.entry.now result.sink.now }
            ensures ended { Ended S.went S.broke result.result sink.entry.now result.sink.now }
        {
            let job = move || -> Tally<L>
                requires { (0 < workers) × (workers ≤ MOST_THREADS) × (all.share.parts ≡ workers) }
                ensures { result.share.parts ≡ workers }
            { spread_to_end(rt, alloc, shared, workers, gate, all) };
            match scope.spawn_with(AllParts(workers), job) {
                Ok(child) => {
                    let result = write_beside(rt, shared, sink);
                    let all = child.join(rt);
                    Back { all, sink, result }
                }
                Err(refused) => {
                    let all = (refused.value)();
                    Back {
                        all,
                        sink,
                        result: Ok(()),
                    }
                }
            }
        },
    )
}
