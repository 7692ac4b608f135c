//! Runs by workers, which make one run or another.

use crate::status::Status;
use crate::tests::checks::CHECK;
use crate::tests::frames::{DATAGRAM, NEIGHBOUR};
use crate::tests::{HEADER, MONITOR, WORDS, capture_of, desk_of, run};
use crate::top;
use ftc_base::{Bytes, NoMemory, PacketNo, ServerId};
use ftc_outside::{FailingDesk, Gate, MemoryDesk, Tap};
use ftc_stream::Taps;
use ftc_trials::{TRIALS, Trial};
use std::alloc::Global;
use std::process::Abort;
use std::sync::atomic::{AtomicBool, AtomicU64, Ordering};
use std::sync::{Arc, Wait};
use std::test::Fail;
use std::thread;
use std::thread::Threads;

/// How often a gate looks before it lets a visit go on all the same.
const MOST_TURNS: u32 = 10_000_000;

/// The words of a run by two workers.
const TWO: [&str; 9] = [
    "run",
    "chain",
    "script",
    "capture",
    "out",
    "journal",
    "report",
    "--workers",
    "2",
];

/// A desk with the texts of a trial.
fn trial_desk<R: AllocGlobal>(rt: &R, trial: &Trial) -> Result<MemoryDesk, Fail> {
    let capture = capture_of(rt, trial.packets)?;
    let mut desk = desk_of(rt, trial.chain.as_bytes(), capture.as_slice())?;
    desk.put("script", trial.script.as_bytes())?;
    Ok(desk)
}

#[test]
fn whatever_run_they_make_is_right(rt: HostRuntime) -> Result<(), Fail> {
    for workers in ["1", "3", "32"] {
        let mut words = TWO;
        words[8] = workers;
        for trials in TRIALS {
            for trial in trials {
                let mut desk = trial_desk(&rt, trial)?;
                assert_eq!(rt; run(&rt, &words, &mut desk), Status::Done, "{}", trial.name);
                assert_eq!(rt; run(&rt, &CHECK, &mut desk), Status::Done, "{}", trial.name);
            }
        }
    }
    Ok(())
}

/// A desk with one monitor and a packet from each of two sources.
fn two_packets<R: AllocGlobal>(rt: &R) -> Result<MemoryDesk, Fail> {
    let capture = capture_of(rt, &[&DATAGRAM, &NEIGHBOUR])?;
    desk_of(rt, MONITOR, capture.as_slice())
}

/// Whether the text has the words of a visit in that slot.
fn has_visit_in(text: &str, slot: &str) -> bool {
    text.lines()
        .any(|line| line.starts_with("visit ") && line.ends_with(slot))
}

/// A gate that holds each visit until two have come, and counts those that saw the other.
#[derive(Drop)]
struct Meeting {
    come: AtomicU64,
    seen: AtomicU64,
}

impl Gate for Meeting {
    fn pause(&self, _server: ServerId, _packet: PacketNo) {
        self.come.fetch_add(1, Ordering::SeqCst);
        for _ in 0..MOST_TURNS {
            if self.come.load(Ordering::SeqCst) >= 2 {
                self.seen.fetch_add(1, Ordering::SeqCst);
                return;
            }
            thread::yield_now();
        }
    }
}

#[test]
fn two_workers_visit_at_once(rt: HostRuntime) -> Result<(), Fail> {
    let mut desk = two_packets(&rt)?;
    let gate = Meeting {
        come: AtomicU64::new(0),
        seen: AtomicU64::new(0),
    };
    let mut taps = Taps::new(Vec::new(rt.alloc()));
    assert_eq!(rt;
        top::run(&rt, &TWO, &mut desk, &gate, &mut taps),
        Status::Done
    );
    assert_eq!(rt; gate.seen.load(Ordering::SeqCst), 2);
    let journal = desk
        .get("journal")
        .and_then(|bytes| str::from_utf8(bytes).ok());
    let journal = journal.expect(&rt, "a journal");
    assert!(rt; has_visit_in(journal, " 0") && has_visit_in(journal, " 1"));
    assert!(rt; !has_visit_in(journal, " 63"));
    assert_eq!(rt; run(&rt, &CHECK, &mut desk), Status::Done);
    Ok(())
}

/// A tap that sets a flag when it is told packet 0.
#[derive(Drop)]
struct FlagTap {
    flag: Arc<AtomicBool>,
}

impl Tap for FlagTap {
    ghost use Rattle.std.specs.Prelude.{None, [], false};

    ghost face = { λ tap. record { told = None; line = []; leaves = λ _. false; constant = false } };

    fn see(&mut self, _alloc: Global, number: PacketNo, _bytes: &[u8]) -> Result<bool, NoMemory> {
        if number == 0 {
            self.flag.store(true, Ordering::SeqCst);
        }
        Ok(true)
    }

    fn line(&self, alloc: Global) -> Result<Bytes, NoMemory> {
        Ok(Bytes::new(alloc))
    }
}

/// A gate that holds packet 1 until the flag is set, and says whether it saw it.
#[derive(Drop)]
struct FlagGate {
    flag: Arc<AtomicBool>,
    seen: AtomicBool,
}

impl Gate for FlagGate {
    fn pause(&self, _server: ServerId, packet: PacketNo) {
        if packet != 1 {
            return;
        }
        for _ in 0..MOST_TURNS {
            if self.flag.load(Ordering::SeqCst) {
                self.seen.store(true, Ordering::SeqCst);
                return;
            }
            thread::yield_now();
        }
    }
}

#[test]
fn released_packets_are_written_while_it_runs(rt: HostRuntime) -> Result<(), Fail> {
    let mut desk = two_packets(&rt)?;
    let flag = Arc::new(rt.alloc(), AtomicBool::new(false))?;
    let tap = FlagTap {
        flag: flag.clone()?,
    };
    let gate = FlagGate {
        flag,
        seen: AtomicBool::new(false),
    };
    let mut list: Vec<Box<dyn Tap + Send>> = Vec::new(rt.alloc());
    list.push(Box::new(rt.alloc(), tap)?)?;
    let mut taps = Taps::new(list);
    assert_eq!(rt;
        top::run(&rt, &TWO, &mut desk, &gate, &mut taps),
        Status::Done
    );
    assert!(rt; gate.seen.load(Ordering::SeqCst));
    Ok(())
}

#[test]
fn a_call_that_fails(rt: HostRuntime) -> Result<(), Fail> {
    let capture = capture_of(&rt, &[&DATAGRAM])?;
    let bytes = capture.as_slice();
    let front: &[u8] = &HEADER;
    // What OUT holds where the call of that number fails, and whether the journal was made. Three fetch the texts.
    let cases: [(u64, Option<&[u8]>, bool); 6] = [
        (2, None, false),
        (3, None, false),
        (4, Some(b""), false),
        (5, Some(front), false),
        (7, Some(bytes), false),
        (8, Some(bytes), true),
    ];
    for (call, out, begun) in cases {
        let desk = desk_of(&rt, MONITOR, bytes)?;
        let mut desk = FailingDesk::new(rt.alloc(), desk, &[call])?;
        assert_eq!(rt; run(&rt, &WORDS, &mut desk), Status::DeskFault, "at {call}");
        assert_eq!(rt; desk.inner().get("out"), out, "at {call}");
        assert_eq!(rt; desk.inner().get("journal").is_some(), begun, "at {call}");
        assert_eq!(rt; desk.inner().get("report"), None, "at {call}");
    }
    Ok(())
}
