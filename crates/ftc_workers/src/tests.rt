//! Small runs of workers.

ghost use Rattle.std.specs.Prelude.{◌≡◌, ◌≤◌, [], length, IfOk};
ghost use Rattle.ftc_base.specs.declared.limits.TheConstants.{MOST_THREADS};
ghost use Rattle.ftc_workers.specs.Choices.{MayBegin};

use crate::calls::{begin, step};
use crate::choosing::{Choice, choose};
use crate::{run, run_to};
use ftc_base::{Bytes, Items, NoMemory, PacketNo, Refuse, ServerId, WorkerId};
use ftc_chain::Chain;
use ftc_journal::{Event, Job};
use ftc_mbox::{ChainSpec, Rule};
use ftc_outside::{Desk, FailingDesk, Gate, ListTap, MemoryDesk, OpenGate, Tap};
use ftc_pcap::{Capture, CaptureFault, read_capture};
use ftc_protocol::ring_of;
use ftc_ring::Ring;
use ftc_script::{Script, accepted, read_script};
use ftc_stream::{PutFault, Taps};
use std::alloc::{AllocError, Global};
use std::process::Abort;
use std::sync::atomic::{AtomicBool, AtomicU64, Ordering};
use std::sync::{Arc, Wait};
use std::test::Fail;
use std::thread;
use std::thread::Threads;

/// How often a gate looks before it lets a visit go on all the same.
const MOST_TURNS: u32 = 10_000_000;

/// A UDP datagram without content. The last byte of its source is its byte 29.
const FRAME: [u8; 42] = [
    2, 0, 0, 0, 0, 1, 2, 0, 0, 0, 0, 2, 8, 0, 0x45, 0, 0, 28, 0, 1, 0, 0, 64, 17, 0x46, 0x91, 10,
    0, 0, 5, 198, 51, 100, 7, 0x13, 0x89, 0, 53, 0, 8, 0xb7, 0xe0,
];

/// The header of a capture, and the head of a packet of 42 bytes.
const HEADER: [u8; 24] = [
    0xd4, 0xc3, 0xb2, 0xa1, 2, 0, 4, 0, 0, 0, 0, 0, 0, 0, 0, 0, 0xff, 0xff, 0, 0, 1, 0, 0, 0,
];

const HEAD: [u8; 16] = [1, 0, 0, 0, 0, 0, 0, 0, 42, 0, 0, 0, 42, 0, 0, 0];

/// One monitor, without replicas.
fn one_monitor(alloc: Global) -> Result<ChainSpec, NoMemory> {
    let mut rules = Items::new(alloc);
    rules.push(Rule::Monitor { groups: 8 })?;
    Ok(ChainSpec::new(0, 4, rules))
}

/// Three monitors, of whose servers two may be down.
fn three_monitors(alloc: Global) -> Result<ChainSpec, NoMemory> {
    let mut rules = Items::new(alloc);
    rules.push(Rule::Monitor { groups: 8 })?;
    rules.push(Rule::Monitor { groups: 8 })?;
    rules.push(Rule::Monitor { groups: 8 })?;
    Ok(ChainSpec::new(2, 4, rules))
}

/// The packet from a source whose last byte is that.
fn frame_from(source: u8) -> [u8; 42] {
    let mut frame = FRAME;
    frame[29] = source;
    frame
}

/// A capture of so many packets, from two sources in turn.
fn capture_of(alloc: Global, packets: u16) -> Result<Capture, Refuse<CaptureFault>> {
    let mut text = Bytes::new(alloc);
    text.append(&HEADER)?;
    for packet in 0..packets {
        text.append(&HEAD)?;
        text.append(&frame_from(5 + (packet % 2) as u8))?;
    }
    read_capture(alloc, text.as_slice())
}

/// A script for that ring and so many packets.
fn script_of(alloc: Global, text: &[u8], ring: &Ring, packets: u32) -> Result<Script, Fail>
    ensures ring { IfOk result (λ script. script.ring ≡ ring.now) }
    ensures packets { IfOk result (λ script. script.packets ≡ packets) }
{
    let _servers = ring.servers();
    accepted();
    match read_script(alloc, text, ring, packets) {
        Ok(script) => Ok(script),
        Err(_) => Err(Fail::new("the script is right")),
    }
}

/// How many visits of the journal are in slots below that number.
fn visits_below(chain: &Chain<'_>, slots: u8) -> u32 {
    let mut count = 0u32;
    for event in chain.journal().as_slice() {
        match event {
            Event::Visit { worker, .. } if worker.number() < slots => {
                count = count.saturating_add(1)
            }
            _ => {}
        }
    }
    count
}

/// A chain of middleboxes, a capture, and a script for them.
#[derive(Drop)]
struct Parts {
    spec: ChainSpec,
    capture: Capture,
    script: Script,
    ghost ring: { script.ring ≡ record { servers = length spec.rules; failures = spec.failures } },
    ghost count: { script.packets ≡ length capture.packets },
}

impl Parts {
    fn new(alloc: Global, spec: ChainSpec, packets: u16, script: &[u8]) -> Result<Parts, Fail> {
        let Ok(capture) = capture_of(alloc, packets) else {
            return Err(Fail::new("the capture is right"));
        };
        let count = capture.packets.len() as u32;
        let script = script_of(alloc, script, &ring_of(&spec), count)?;
        Ok(Parts {
            spec,
            capture,
            script,
        })
    }

    /// The chain of them before its first event.
    fn chain(&self, alloc: Global) -> Result<Chain<'_>, NoMemory>
        ensures { IfOk result (λ chain. chain.drained ≡ []) }
    {
        Chain::new(alloc, &self.spec, &self.capture.packets, &self.script)
    }
}

/// How a run of workers ended. (What a contract says of it is no clause here, so that no proof carries it along.)
#[derive(Clone, Copy, Debug, PartialEq, Eq)]
struct Ran {
    finished: bool,
    commits: u64,
    /// The visits in the workers' slots.
    visits: u32,
}

/// So many workers run over a chain.
fn ran_over<R: AllocGlobal + Threads + Wait + Sync, G: Gate>(
    rt: &R,
    chain: Chain<'_>,
    workers: u8,
    gate: &G,
) -> Ran
    requires { (1 ≤ workers) × (workers ≤ MOST_THREADS) }
{
    let worked = run(rt, rt.alloc(), chain, workers, gate);
    Ran {
        finished: worked.chain.finished(),
        commits: worked.commits,
        visits: visits_below(&worked.chain, workers),
    }
}

/// The same from the first event on, over so many packets and a script.
fn run_chain<R: AllocGlobal + Threads + Wait + Sync, G: Gate>(
    rt: &R,
    spec: ChainSpec,
    texts: (u16, &[u8]),
    workers: u8,
    gate: &G,
) -> Result<Ran, Fail>
    requires { (1 ≤ workers) × (workers ≤ MOST_THREADS) }
{
    let (packets, script) = texts;
    let parts = Parts::new(rt.alloc(), spec, packets, script)?;
    Ok(ran_over(rt, parts.chain(rt.alloc())?, workers, gate))
}

#[test]
fn three_workers_make_six_visits(rt: HostRuntime) -> Result<(), Fail> {
    let ended = run_chain(&rt, three_monitors(rt.alloc())?, (2, b""), 3, &OpenGate)?;
    let expected = Ran {
        finished: true,
        commits: 6,
        visits: 6,
    };
    assert_eq!(rt; ended, expected);
    Ok(())
}

/// How workers end over 200 packets through three monitors.
const MANY: Ran = Ran {
    finished: true,
    commits: 600,
    visits: 600,
};

#[test]
fn many_packets_go_through(rt: HostRuntime) -> Result<(), Fail> {
    let ended = run_chain(&rt, three_monitors(rt.alloc())?, (200, b""), 4, &OpenGate)?;
    assert_eq!(rt; ended, MANY);
    Ok(())
}

/// A gate that holds each visit for a moment. Workers that found nothing meanwhile have to be woken.
#[derive(Clone, Copy)]
struct SlowGate;

impl Gate for SlowGate {
    fn pause(&self, _server: ServerId, _packet: PacketNo) {
        thread::yield_now();
    }
}

#[test]
fn many_packets_pass_a_gate_that_holds(rt: HostRuntime) -> Result<(), Fail> {
    let ended = run_chain(&rt, three_monitors(rt.alloc())?, (200, b""), 8, &SlowGate)?;
    assert_eq!(rt; ended, MANY);
    Ok(())
}

#[test]
fn workers_go_on_beside_a_down_server(rt: HostRuntime) -> Result<(), Fail> {
    let script = b"at 10 crash 1\nat 50 recover 1\n";
    let ended = run_chain(&rt, three_monitors(rt.alloc())?, (60, script), 4, &SlowGate)?;
    assert!(rt; ended.finished);
    assert_eq!(rt; u64::from(ended.visits), ended.commits);
    Ok(())
}

/// A gate that holds each visit until two have come, and counts those that saw the other.
#[derive(Drop)]
struct Meeting {
    come: AtomicU64,
    seen: AtomicU64,
}

impl Gate for Meeting {
    fn pause(&self, _server: ServerId, _packet: PacketNo) {
        self.come.fetch_add(1, Ordering::SeqCst);
        for _ in 0..MOST_TURNS {
            if self.come.load(Ordering::SeqCst) >= 2 {
                self.seen.fetch_add(1, Ordering::SeqCst);
                return;
            }
            thread::yield_now();
        }
    }
}

#[test]
fn two_visits_are_open_at_once(rt: HostRuntime) -> Result<(), Fail> {
    let gate = Meeting {
        come: AtomicU64::new(0),
        seen: AtomicU64::new(0),
    };
    let ended = run_chain(&rt, one_monitor(rt.alloc())?, (2, b""), 2, &gate)?;
    let seen = gate.seen.load(Ordering::SeqCst);
    assert_eq!(rt; (ended.finished, ended.commits, seen), (true, 2, 2));
    Ok(())
}

/// Does the first job: its step is made, or its visit begins.
fn do_job(chain: &mut Chain<'_>, worker: WorkerId, job: &Job) -> bool
    requires { MayBegin chain.old job.now }
{
    if let Job::Visit { server, packet } = *job {
        if chain.answers(worker).is_some() || !chain.ages_left(server) {
            return false;
        }
        begin(chain, worker, server, packet);
        return true;
    }
    step(chain, job).is_ok()
}

/// Does the first job, if there is one.
fn do_first(chain: &mut Chain<'_>, worker: WorkerId) -> bool {
    match choose(chain) {
        Choice::Do(job) => do_job(chain, worker, &job),
        _ => false,
    }
}

/// A packet enters, and the slot begins its visit. The answer is whether the slot runs then.
fn begins_first(chain: &mut Chain<'_>, slot: WorkerId) -> bool {
    do_first(chain, slot) && do_first(chain, slot) && chain.answers(slot).is_some()
}

/// A slot begins the first visit, and then a worker runs. None where the slot doesn't run then.
fn ran_behind<R: AllocGlobal + Threads + Wait + Sync>(
    rt: &R,
    spec: ChainSpec,
    slot: WorkerId,
) -> Result<Option<Ran>, Fail> {
    let parts = Parts::new(rt.alloc(), spec, 2, b"")?;
    let mut chain = parts.chain(rt.alloc())?;
    if !begins_first(&mut chain, slot) {
        return Ok(None);
    }
    Ok(Some(ran_over(rt, chain, 1, &OpenGate)))
}

#[test]
fn slots_that_run_give_up_first(rt: HostRuntime) -> Result<(), Fail> {
    let slot = WorkerId::new(40).expect(&rt, "a slot");
    let ended = ran_behind(&rt, one_monitor(rt.alloc())?, slot)?;
    let expected = Ran {
        finished: true,
        commits: 2,
        visits: 2,
    };
    assert_eq!(rt; ended, Some(expected));
    Ok(())
}

/// A desk with a file `out` that has the header.
fn desk_with_out(alloc: Global) -> Result<MemoryDesk, NoMemory> {
    let mut desk = MemoryDesk::new(alloc);
    desk.put("out", &HEADER)?;
    Ok(desk)
}

/// Taps of one list.
fn one_list(alloc: Global) -> Result<Taps, AllocError> {
    let mut list: Vec<Box<dyn Tap + Send>> = Vec::new(alloc);
    list.push(Box::new(alloc, ListTap::new(alloc))?)?;
    Ok(Taps::new(list))
}

/// The length of the file `out`, and 0 where there is none.
fn out_len(desk: &MemoryDesk) -> usize {
    match desk.get("out") {
        Some(held) => held.len(),
        None => 0,
    }
}

/// How a run of workers that is written ended, and how many packets were put.
#[derive(Clone, Copy, Debug, PartialEq, Eq)]
struct Wrote {
    result: Result<(), PutFault>,
    finished: bool,
    commits: u64,
    put: usize,
}

/// So many workers run over a chain and so many packets, and what they release is appended to `out`.
fn write_chain<R: AllocGlobal + Threads + Wait + Sync, G: Gate, D: Desk>(
    rt: &R,
    spec: ChainSpec,
    packets: u16,
    workers: u8,
    gate: &G,
    desk: &mut D,
    taps: &mut Taps,
) -> Result<Wrote, Fail>
    requires { (1 ≤ workers) × (workers ≤ MOST_THREADS) }
{
    let alloc = rt.alloc();
    let parts = Parts::new(alloc, spec, packets, b"")?;
    let chain = parts.chain(alloc)?;
    let written = run_to(
        rt,
        alloc,
        chain,
        workers,
        gate,
        &parts.capture,
        "out",
        desk,
        taps,
    );
    Ok(Wrote {
        result: written.result,
        finished: written.chain.finished(),
        commits: written.commits,
        put: written.put.len(),
    })
}

/// The line of the first tap.
fn first_line(alloc: Global, taps: &Taps) -> Result<Bytes, Fail> {
    let lines = taps.lines(alloc)?;
    if lines.len() == 0 {
        return Err(Fail::new("a line"));
    }
    Ok(lines.at(0).copy()?)
}

/// The file `out` is so long, and the line of the first tap is that.
fn is_written(
    rt: &impl Abort,
    alloc: Global,
    desk: &MemoryDesk,
    taps: &Taps,
    (length, line): (usize, &[u8]),
) -> Result<(), Fail> {
    let first = first_line(alloc, taps)?;
    assert_eq!(rt; (out_len(desk), first.as_slice()), (length, line));
    Ok(())
}

#[test]
fn what_is_released_is_written(rt: HostRuntime) -> Result<(), Fail> {
    let alloc = rt.alloc();
    let mut desk = desk_with_out(alloc)?;
    let mut taps = one_list(alloc)?;
    let spec = three_monitors(alloc)?;
    let ended = write_chain(&rt, spec, 20, 3, &OpenGate, &mut desk, &mut taps)?;
    let expected = Wrote {
        result: Ok(()),
        finished: true,
        commits: 60,
        put: 20,
    };
    assert_eq!(rt; ended, expected);
    is_written(&rt, alloc, &desk, &taps, (24 + 20 * 58, b"list 20"))
}

#[test]
fn a_fault_ends_the_workers(rt: HostRuntime) -> Result<(), Fail> {
    let alloc = rt.alloc();
    let mut desk = FailingDesk::new(alloc, desk_with_out(alloc)?, &[1])?;
    let mut taps = one_list(alloc)?;
    let spec = three_monitors(alloc)?;
    let ended = write_chain(&rt, spec, 20, 3, &OpenGate, &mut desk, &mut taps)?;
    assert_eq!(rt; (ended.result, ended.put), (Err(PutFault::Failed), 1));
    is_written(&rt, alloc, desk.inner(), &taps, (24 + 58, b"list 1"))
}

/// A tap that raises a flag when it is told packet 0.
#[derive(Drop)]
struct FlagTap {
    flag: Arc<AtomicBool, Global>,
}

impl Tap for FlagTap {
    ghost use Rattle.std.specs.Prelude.{None, [], true, false};

    ghost face = { λ tap. record { told = None; line = []; leaves = λ _. false; constant = true } };

    fn see(&mut self, _alloc: Global, number: PacketNo, _bytes: &[u8]) -> Result<bool, NoMemory> {
        if number == 0 {
            self.flag.store(true, Ordering::SeqCst);
        }
        Ok(true)
    }

    fn line(&self, alloc: Global) -> Result<Bytes, NoMemory> {
        Ok(Bytes::new(alloc))
    }
}

/// A gate that holds packet 1 until the flag is raised.
#[derive(Drop)]
struct FlagGate {
    flag: Arc<AtomicBool, Global>,
    seen: AtomicBool,
}

impl Gate for FlagGate {
    fn pause(&self, _server: ServerId, packet: PacketNo) {
        if packet != 1 {
            return;
        }
        for _ in 0..MOST_TURNS {
            if self.flag.load(Ordering::SeqCst) {
                self.seen.store(true, Ordering::SeqCst);
                return;
            }
            thread::yield_now();
        }
    }
}

/// Taps of one that raises the flag.
fn one_flag(alloc: Global, flag: Arc<AtomicBool, Global>) -> Result<Taps, AllocError> {
    let mut list: Vec<Box<dyn Tap + Send>> = Vec::new(alloc);
    list.push(Box::new(alloc, FlagTap { flag })?)?;
    Ok(Taps::new(list))
}

/// Two workers write two packets behind this gate and beside these taps. The answer is how they ended.
fn wrote_two<R: AllocGlobal + Threads + Wait + Sync>(
    rt: &R,
    gate: &FlagGate,
    taps: &mut Taps,
) -> Result<Wrote, Fail> {
    let mut desk = desk_with_out(rt.alloc())?;
    let spec = one_monitor(rt.alloc())?;
    write_chain(rt, spec, 2, 2, gate, &mut desk, taps)
}

#[test]
fn a_packet_is_written_while_another_waits(rt: HostRuntime) -> Result<(), Fail> {
    let alloc = rt.alloc();
    let flag = Arc::new(alloc, AtomicBool::new(false))?;
    let gate = FlagGate {
        flag: Arc::try_clone(&flag)?,
        seen: AtomicBool::new(false),
    };
    let mut taps = one_flag(alloc, flag)?;
    let ended = wrote_two(&rt, &gate, &mut taps)?;
    let seen = gate.seen.load(Ordering::SeqCst);
    assert_eq!(rt; (ended.result, seen, ended.put), (Ok(()), true, 2));
    Ok(())
}
