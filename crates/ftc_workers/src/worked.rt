//! Workers run over a chain.

ghost use Rattle.std.specs.Prelude.{◌≡◌, ◌+◌, ◌≤◌};
ghost use Rattle.ftc_base.specs.declared.limits.TheConstants.{MOST_THREADS};
ghost use Rattle.ftc_chain.specs.Slots.{AreIdle};
ghost use Rattle.ftc_workers.specs.Given.{given_of};
ghost use Rattle.ftc_workers.specs.Visits.{visits};

use crate::latch::Latch;
use crate::shared::Shared;
use crate::spreading::spread;
use crate::tally::{Run, Tally};
use ftc_alone::quit_all;
use ftc_chain::Chain;
use ftc_outside::Gate;
use std::alloc::Global;
use std::marker::Brand;
use std::sync::Wait;
use std::sync::ledger::Blank;
use std::thread::Threads;

/// The chain, and how many commits the workers made.
#[derive(Drop)]
pub struct Worked<'a> {
    pub chain: Chain<'a>,
    pub commits: u64,
}

/// Runs workers over a chain whose slots are idle, and counts their commits in a ledger of that name.
fn run_named<'a, L: Run + Send + Sync, R: Threads + Wait + Sync, G: Gate>(
    rt: &R,
    alloc: Global,
    blank: Blank,
    chain: Chain<'a>,
    workers: u8,
    gate: &G,
) -> Worked<'a>
    requires name { (blank.name ≡ L.name) × (blank.parts ≡ L.parts) }
    requires parts { blank.parts ≡ workers }
    requires start { visits chain.journal ≡ L.start }
    requires given { given_of chain ≡ L.given }
    requires idle { AreIdle chain }
    requires workers { (1 ≤ workers) × (workers ≤ MOST_THREADS) }
    ensures counted { visits result.chain.journal ≡ L.start + result.commits }
    ensures given { given_of result.chain ≡ L.given }
{
    let (book, share) = blank.open::<L>();
    let all = Tally { share, count: 0 };
    let shared = Shared::new(Latch::new(chain, book, None), workers);
    let all = spread(rt, alloc, &shared, 0, workers, gate, all);
    let (chain, commits) = shared.into_inner().close(all);
    Worked { chain, commits }
}

/// Runs so many workers over the chain until each has ended, and hands the chain back. First all slots give up what
/// they run. The journal of the chain that comes back has as many visits as that of the chain handed in and the commits
/// together, and the chain is of the same middleboxes, packets and script.
pub fn run<'a, R: Threads + Wait + Sync, G: Gate>(
    rt: &R,
    alloc: Global,
    chain: Chain<'a>,
    workers: u8,
    gate: &G,
) -> Worked<'a>
    requires { (1 ≤ workers) × (workers ≤ MOST_THREADS) }
    ensures counted { visits result.chain.journal ≡ visits chain.entry.journal + result.commits }
    ensures given { given_of result.chain ≡ given_of chain.entry }
{
    let mut chain = chain;
    quit_all(&mut chain);
    let blank = Blank::new(workers as u64);
    run_named::<Brand, R, G>(rt, alloc, blank, chain, workers, gate)
}
