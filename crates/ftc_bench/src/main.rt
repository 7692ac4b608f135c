//! Times of the calls on which each hop of a packet stands, and of workers before slow middleboxes. They are printed
//! where the word `bench` is given.
#![tactic(auto)]

mod holds;
mod samples;
mod slow;

ghost use Rattle.std.specs.Prelude.{◌≤◌};
ghost use Rattle.ftc_message.specs.WellFormed.{IsWellFormed};

use ftc_base::limits::{MOST_PARTITIONS, MOST_READS, MOST_RECORDS, MOST_SERVERS};
use ftc_base::{Key, ServerId, WorkerId};
use ftc_gen::generate;
use ftc_message::{Log, Message, decode, encode};
use ftc_store::Store;
use ftc_txn::{Head, ReadAnswer};
use ftc_vector::Vector;
use holds::{Sum, holds_of_a_run};
use samples::{kept_logs, message, one_log};
use slow::slow_run;
use std::env;
use std::time::Instant;

/// How often each call is made.
const ROUNDS: u32 = 100_000;

/// How many partitions the head's store has.
const PARTITIONS: u8 = 16;

/// How many logs are kept while logs are pruned.
const KEPT: u32 = 256;

/// The nanoseconds of one of the rounds since then.
fn each(rt: &HostRuntime, start: &Instant) -> Option<u128> {
    let taken = start.elapsed(rt).ok()?;
    Some(taken.as_nanos() / u128::from(ROUNDS))
}

/// Encodes a message again and again.
fn encoding(rt: &HostRuntime, message: &Message) -> Option<u128>
    requires { IsWellFormed message.now }
{
    let start = Instant::now(rt).ok()?;
    for _ in 0..ROUNDS {
        encode(rt.alloc(), message).ok()?;
    }
    each(rt, &start)
}

/// Decodes a frame again and again.
fn decoding(rt: &HostRuntime, frame: &[u8]) -> Option<u128> {
    let start = Instant::now(rt).ok()?;
    for _ in 0..ROUNDS {
        decode(rt.alloc(), frame).ok()?;
    }
    each(rt, &start)
}

/// Prunes by a vector that drops nothing.
fn pruning_none(rt: &HostRuntime) -> Option<u128> {
    let mut kept = kept_logs(rt.alloc(), KEPT)?;
    let commit = Vector::zero();
    let start = Instant::now(rt).ok()?;
    for _ in 0..ROUNDS {
        kept.prune(&commit);
    }
    each(rt, &start)
}

/// Keeps one more log and drops the first, again and again.
fn pruning_one(rt: &HostRuntime) -> Option<u128> {
    let mut kept = kept_logs(rt.alloc(), KEPT)?;
    let mut commit = Vector::zero();
    let start = Instant::now(rt).ok()?;
    for round in 0..ROUNDS {
        kept.add(one_log(KEPT + round)).ok()?;
        commit.set(1, u64::from(round) + 1);
        kept.prune(&commit);
    }
    each(rt, &start)
}

/// One transaction that reads one key under a lock, and quits.
fn reads_once(head: &mut Head, worker: WorkerId, key: &Key) -> Option<()> {
    if head.answers(worker).is_some() || !head.ages_left() {
        return None;
    }
    head.begin(worker, 10);
    match head.answers(worker) {
        Some(answers) if answers.len() < MOST_READS => {}
        _ => return None,
    }
    let read = head.read(worker, key, false);
    head.quit(worker);
    match read {
        ReadAnswer::Value(_) => Some(()),
        _ => None,
    }
}

/// Reads under a lock again and again.
fn reading(rt: &HostRuntime) -> Option<u128> {
    let store = Store::new(rt.alloc(), PARTITIONS);
    let mut head = Head::new(ServerId::new(0)?, PARTITIONS, store, Vector::zero());
    let (worker, key) = (WorkerId::new(5)?, Key::new(&[0x6d, 0, 2])?);
    let start = Instant::now(rt).ok()?;
    for _ in 0..ROUNDS {
        reads_once(&mut head, worker, &key)?;
    }
    each(rt, &start)
}

/// Generates the greatest capture once.
fn generating(rt: &HostRuntime) -> Option<u128> {
    let start = Instant::now(rt).ok()?;
    generate(rt.alloc(), MOST_RECORDS as u32, 0).ok()?;
    let taken = start.elapsed(rt).ok()?;
    Some(taken.as_nanos())
}

/// Prints a time.
fn say(rt: &HostRuntime, name: &str, time: Option<u128>) {
    if let Some(nanoseconds) = time {
        let _ = println!(rt; "{name}: {nanoseconds} ns");
    }
}

/// Encodes and decodes a message in which so much is known of the tails.
fn both_ways(rt: &HostRuntime, groups: u8, partitions: u8) -> Option<()>
    requires groups { groups ≤ MOST_SERVERS }
    requires partitions { partitions ≤ MOST_PARTITIONS }
{
    let message = message(rt.alloc(), groups, partitions)?;
    say(rt, "  encode", encoding(rt, &message));
    let frame = encode(rt.alloc(), &message).ok()?;
    say(rt, "  decode", decoding(rt, frame.as_slice()));
    Some(())
}

/// Prints the mean time of what was done.
fn say_mean(rt: &HostRuntime, name: &str, sum: &Sum) {
    say(rt, name, sum.nanoseconds.checked_div(u128::from(sum.count)));
}

/// Prints how often a worker holds the latch for a packet, and for how long in each event.
fn say_holds(rt: &HostRuntime) {
    let Some((holds, packets)) = holds_of_a_run(rt) else {
        return;
    };
    let tenths = 10 * u128::from(holds.all.count);
    let Some(tenths) = tenths.checked_div(packets as u128) else {
        return;
    };
    let (whole, part) = (tenths / 10, tenths % 10);
    let _ = println!(rt; "holds of the latch for a packet of that chain: {whole}.{part}");
    say_mean(rt, "  a hold", &holds.all);
    say_mean(rt, "  the holds of a take", &holds.take);
    say_mean(rt, "  of an apply", &holds.apply);
    say_mean(rt, "  of a visit", &holds.visit);
    say_mean(rt, "  of a pass, with its frame", &holds.pass);
}

fn main(rt: HostRuntime) {
    let Ok(mut words) = env::args(&rt) else {
        return;
    };
    if words.len() < 2 {
        return;
    }
    let _ = println!(rt; "a log: {} bytes", size_of::<Log>());
    let _ = println!(rt; "a message of which nothing is known");
    let _ = both_ways(&rt, 0, 0);
    let _ = println!(rt; "with 16 groups of 4 partitions");
    let _ = both_ways(&rt, 16, 4);
    let _ = println!(rt; "with 16 groups of 64 partitions");
    let _ = both_ways(&rt, 16, 64);
    say(&rt, "prune of 256 logs, none dropped", pruning_none(&rt));
    say(&rt, "prune of 256 logs, one dropped", pruning_one(&rt));
    say(&rt, "a transaction that reads once and quits", reading(&rt));
    say(
        &rt,
        "a generated capture of 100000 packets",
        generating(&rt),
    );
    let _ = println!(rt; "5000 packets through four middleboxes, each visit 20 us long");
    say(&rt, "  by 1 worker", slow_run(&rt, 1, 20_000));
    say(&rt, "  by 2 workers", slow_run(&rt, 2, 20_000));
    say(&rt, "  by 4 workers", slow_run(&rt, 4, 20_000));
    let _ = println!(rt; "each visit 200 us long");
    say(&rt, "  by 1 worker", slow_run(&rt, 1, 200_000));
    say(&rt, "  by 2 workers", slow_run(&rt, 2, 200_000));
    say(&rt, "  by 4 workers", slow_run(&rt, 4, 200_000));
    say_holds(&rt);
}
