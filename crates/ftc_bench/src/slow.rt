//! Workers before slow middleboxes: how long a run takes with so many of them.

ghost use Rattle.std.specs.Prelude.{◌≡◌, ◌≤◌, length};
ghost use Rattle.ftc_base.specs.declared.limits.TheConstants.{MOST_THREADS};

use ftc_base::{PacketNo, ServerId};
use ftc_chain::Chain;
use ftc_conf::read_chain;
use ftc_gen::generate;
use ftc_mbox::ChainSpec;
use ftc_outside::Gate;
use ftc_pcap::{Capture, read_capture};
use ftc_protocol::ring_of;
use ftc_script::{Script, accepted, read_script};
use ftc_workers::run;
use std::alloc::Global;
use std::sync::Wait;
use std::thread::Threads;
use std::time::{Clock, Instant};

/// How often a gate looks at the clock before it lets a visit go on all the same.
const MOST_TURNS: u32 = 10_000_000;

/// How many packets there are.
const PACKETS: u32 = 5_000;

/// The chain that a made capture runs through.
const CHAIN: &[u8] =
    b"f 1\npartitions 16\nnat inside 10.0.0.0/8 outside 203.0.113.5 ports 20000-59999\nfirewall\n\
    allow udp any 198.51.100.10/32 80\nbalance 198.51.100.10:80 to 192.0.2.1,192.0.2.2\n\
    monitor 16\n";

/// A gate that holds each visit for so many nanoseconds, at work.
#[derive(Clone, Copy)]
struct SlowGate<'a, R: Clock + Sync> {
    clock: &'a R,
    pause: u128,
}

impl<R: Clock + Sync> Gate for SlowGate<'_, R> {
    fn pause(&self, _server: ServerId, _packet: PacketNo) {
        let Ok(start) = Instant::now(self.clock) else {
            return;
        };
        for _ in 0..MOST_TURNS {
            match start.elapsed(self.clock) {
                Ok(taken) if taken.as_nanos() < self.pause => {}
                _ => return,
            }
        }
    }
}

/// A chain of middleboxes, a made capture, and the script without lines for them.
#[derive(Drop)]
pub struct Load {
    pub spec: ChainSpec,
    pub capture: Capture,
    pub script: Script,
    ghost ring: { script.ring ≡ record { servers = length spec.rules; failures = spec.failures } },
    ghost count: { script.packets ≡ length capture.packets },
}

impl Load {
    /// None where there was no memory.
    pub fn new(alloc: Global) -> Option<Load> {
        accepted();
        let spec = read_chain(alloc, CHAIN).ok()?;
        let bytes = generate(alloc, PACKETS, 7).ok()?;
        let capture = read_capture(alloc, bytes.as_slice()).ok()?;
        let ring = ring_of(&spec);
        let _servers = ring.servers();
        let script = read_script(alloc, b"", &ring, capture.packets.len() as u32).ok()?;
        Some(Load {
            spec,
            capture,
            script,
        })
    }
}

/// The nanoseconds that so many workers need where each visit stays so many in its middlebox. None where there was no
/// memory, or no clock.
pub fn slow_run<R: AllocGlobal + Clock + Threads + Wait + Sync>(
    rt: &R,
    workers: u8,
    pause: u128,
) -> Option<u128>
    requires { (1 ≤ workers) × (workers ≤ MOST_THREADS) }
{
    let load = Load::new(rt.alloc())?;
    let chain = Chain::new(rt.alloc(), &load.spec, &load.capture.packets, &load.script).ok()?;
    let start = Instant::now(rt).ok()?;
    let worked = run(
        rt,
        rt.alloc(),
        chain,
        workers,
        &SlowGate { clock: rt, pause },
    );
    let taken = start.elapsed(rt).ok()?;
    if worked.chain.finished() {
        Some(taken.as_nanos())
    } else {
        None
    }
}
