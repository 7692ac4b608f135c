//! How workers are started and joined.

ghost use Rattle.std.specs.Prelude.{◌≡◌, ◌+◌, ◌≤◌, ◌<◌};
ghost use Rattle.ftc_base.specs.declared.limits.TheConstants.{MOST_SLOTS};
ghost use denote.Param.Send.{IsSync, IsSend};

use crate::shared::{Shared, merge};
use crate::tally::{Run, Tally};
use crate::visiting::Worker;
use ftc_base::WorkerId;
use ftc_outside::Gate;
use std::alloc::Global;
use std::sync::Wait;
use std::thread::{Threads, join};

/// Runs the worker of that number.
fn work_in<L: Run, R: Wait, G: Gate>(
    rt: &R,
    alloc: Global,
    shared: &Shared<'_, L>,
    number: u8,
    gate: &G,
    mine: Tally<L>,
) -> Tally<L>
    requires number { number < MOST_SLOTS }
    requires part { mine.share.parts ≡ 1 }
    ensures { result.share.parts ≡ 1 }
{
    let number = WorkerId::new(number).unwrap();
    let worker = Worker {
        rt,
        alloc,
        shared,
        number,
        gate,
    };
    worker.work(mine)
}

/// Starts so many workers, with numbers from this one on, and joins them. The caller runs one that can't be started.
pub fn spread<L: Run + Send + Sync, R: Threads + Wait + Sync, G: Gate>(
    rt: &R,
    alloc: Global,
    shared: &Shared<'_, L>,
    number: u8,
    count: u8,
    gate: &G,
    mine: Tally<L>,
) -> Tally<L>
    requires some { 0 < count }
    requires numbers { number + count ≤ MOST_SLOTS }
    requires parts { mine.share.parts ≡ count }
    ensures { result.share.parts ≡ count }
{
    if count == 1 {
        return work_in(rt, alloc, shared, number, gate, mine);
    }
    let mut mine = mine;
    let one = mine.split();
    let next = number + 1;
    let rest = count - 1;
    let first = move || -> Tally<L>
        requires { (number < MOST_SLOTS) × (one.share.parts ≡ 1) }
        ensures { result.share.parts ≡ 1 }
    { work_in(rt, alloc, shared, number, gate, one) };
    let others = move || -> Tally<L>
        requires { IsSync R.row × IsSync L.row × IsSend L.row × IsSync G.row × (0 < rest) × (next + rest ≤ MOST_SLOTS) ×
            (mine.share.parts ≡ rest) }
        ensures { result.share.parts ≡ rest }
    { spread(rt, alloc, shared, next, rest, gate, mine) };
    let (one, others) = join(rt, first, others);
    let mut all = others;
    merge(rt, shared, &mut all, one);
    all
}
