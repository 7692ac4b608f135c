//! What a worker does under the latch, one call after the other on one thread: how often, and for how long.

ghost use Rattle.std.specs.Prelude.{◌≡◌, false};
ghost use Rattle.ftc_journal.specs.declared.job.Job.TheVariants as job;
ghost use Rattle.ftc_protocol.specs.Jobs.{IsLegalJob};
ghost use Rattle.ftc_chain.specs.ChainRun.{setting_in, chain_state};
ghost use Rattle.ftc_chain.specs.Doing.{is_visit};

use crate::slow::Load;
use ftc_base::limits::MOST_READS;
use ftc_base::{Answer, Answers, Ask, Key, PacketNo, ServerId, WorkerId};
use ftc_chain::Chain;
use ftc_journal::Job;
use ftc_mbox::{Plan, Rule, ask};
use ftc_message::Seen;
use ftc_server::CommitAnswer;
use ftc_txn::ReadAnswer;
use std::alloc::Global;
use std::time::{Clock, Instant};

/// More jobs than the run has.
const MOST_JOBS: u32 = 10_000_000;

/// How often something is done, and how many nanoseconds that takes in all.
#[derive(Clone, Copy, Debug)]
pub struct Sum {
    pub count: u32,
    pub nanoseconds: u128,
}

impl Sum {
    /// Nothing was done.
    fn new() -> Sum {
        Sum {
            count: 0,
            nanoseconds: 0,
        }
    }

    /// It was done once more.
    fn add(&mut self, nanoseconds: u128) {
        self.count = self.count.saturating_add(1);
        self.nanoseconds = self.nanoseconds.saturating_add(nanoseconds);
    }
}

/// What is held under the latch in a run: all holds, and what the events of each kind have of them. A frame that is
/// taken and a rule that is asked have no part in it; the frame that a pass writes does.
#[derive(Clone, Copy, Debug)]
pub struct Holds {
    pub all: Sum,
    pub take: Sum,
    pub apply: Sum,
    pub visit: Sum,
    pub pass: Sum,
}

impl Holds {
    /// Nothing was held.
    fn new() -> Holds {
        Holds {
            all: Sum::new(),
            take: Sum::new(),
            apply: Sum::new(),
            visit: Sum::new(),
            pass: Sum::new(),
        }
    }

    /// The event of this job took so many nanoseconds.
    fn add(&mut self, job: &Job, nanoseconds: u128) {
        match job {
            Job::Take { .. } => self.take.add(nanoseconds),
            Job::Apply { .. } => self.apply.add(nanoseconds),
            Job::Visit { .. } => self.visit.add(nanoseconds),
            Job::Pass { .. } => self.pass.add(nanoseconds),
            _ => {}
        }
    }
}

/// A clock, and the holds so far.
#[derive(Drop)]
struct Meter<'a, R: Clock> {
    clock: &'a R,
    holds: Holds,
}

impl<R: Clock> Meter<'_, R> {
    /// What stands from here on is measured.
    fn start(&self) -> Option<Instant> {
        Instant::now(self.clock).ok()
    }

    /// What stood since then is a part of a hold.
    fn part(&mut self, start: &Instant) -> Option<()> {
        let taken = start.elapsed(self.clock).ok()?;
        let all = &mut self.holds.all;
        all.nanoseconds = all.nanoseconds.saturating_add(taken.as_nanos());
        Some(())
    }

    /// What stood since then is a hold, or the last part of one.
    fn hold(&mut self, start: &Instant) -> Option<()> {
        self.holds.all.count = self.holds.all.count.saturating_add(1);
        self.part(start)
    }
}

/// A read of a slot. What it answers is added to the answers.
fn read<R: Clock>(
    meter: &mut Meter<'_, R>,
    chain: &mut Chain<'_>,
    worker: WorkerId,
    key: &Key,
    answers: &mut Answers,
) -> Option<()> {
    let start = meter.start()?;
    let answer = chain.read(worker, key);
    meter.hold(&start)?;
    match answer {
        ReadAnswer::Value(value) => answers.try_push(Answer { key: *key, value }).ok(),
        _ => None,
    }
}

/// A commit of a slot, with what it releases.
fn commit<R: Clock>(
    meter: &mut Meter<'_, R>,
    chain: &mut Chain<'_>,
    worker: WorkerId,
    plan: &Plan,
) -> Option<()> {
    let start = meter.start()?;
    let answer = chain.commit(worker, plan);
    let _released = chain.drain();
    meter.hold(&start)?;
    match answer {
        CommitAnswer::Done => Some(()),
        _ => None,
    }
}

/// The reads of a visit that was begun, and its commit.
fn finish<R: Clock>(
    meter: &mut Meter<'_, R>,
    alloc: Global,
    chain: &mut Chain<'_>,
    worker: WorkerId,
    rule: &Rule,
    bytes: &[u8],
) -> Option<()> {
    let mut answers = Answers::new();
    for _ in 0..=MOST_READS {
        match ask(rule, bytes, &answers) {
            Ask::Read { key, .. } => read(meter, chain, worker, &key, &mut answers)?,
            Ask::Finish(_) => {
                let plan = Plan::make(alloc, rule, bytes, &answers).ok()??;
                return commit(meter, chain, worker, &plan);
            }
        }
    }
    None
}

/// A visit, from its begin to its commit.
fn visit<R: Clock>(
    meter: &mut Meter<'_, R>,
    alloc: Global,
    chain: &mut Chain<'_>,
    load: &Load,
    server: ServerId,
    packet: PacketNo,
) -> Option<()>
    requires { ∥ IsLegalJob (setting_in chain.old) (chain_state chain.old) (job.Visit server packet) ∥₁ }
{
    let worker = WorkerId::new(0)?;
    let place = usize::from(server.number());
    if chain.answers(worker).is_some()
        || chain.is_running(server, packet)
        || !chain.ages_left(server)
        || place >= load.spec.rules().len()
    {
        return None;
    }
    let start = meter.start()?;
    chain.begin(worker, server, packet);
    let bytes = chain.look(worker).ok()??;
    meter.hold(&start)?;
    finish(
        meter,
        alloc,
        chain,
        worker,
        load.spec.rules().at(place),
        bytes.as_slice(),
    )
}

/// A take, whose frame is read between two holds.
fn take<R: Clock>(
    meter: &mut Meter<'_, R>,
    alloc: Global,
    chain: &mut Chain<'_>,
    link: ServerId,
    origin: PacketNo,
) -> Option<()>
    requires { ∥ IsLegalJob (setting_in chain.old) (chain_state chain.old) (job.Take link origin) ∥₁ }
{
    let start = meter.start()?;
    let frame = chain.frame(link).ok()??;
    meter.hold(&start)?;
    let seen = Seen::make(alloc, frame.as_slice()).ok()?;
    let start = meter.start()?;
    chain.take_seen(link, seen).ok()?;
    let _released = chain.drain();
    meter.hold(&start)
}

/// A job that is neither.
fn step<R: Clock>(meter: &mut Meter<'_, R>, chain: &mut Chain<'_>, job: &Job) -> Option<()>
    requires other { is_visit job.now ≡ false }
    requires legal { ∥ IsLegalJob (setting_in chain.old) (chain_state chain.old) job.now ∥₁ }
{
    let start = meter.start()?;
    chain.step(job).ok()?;
    let _released = chain.drain();
    meter.hold(&start)
}

/// A legal job, by its kind.
fn make<R: Clock>(
    meter: &mut Meter<'_, R>,
    alloc: Global,
    chain: &mut Chain<'_>,
    load: &Load,
    job: &Job,
) -> Option<()>
    requires { ∥ IsLegalJob (setting_in chain.old) (chain_state chain.old) job.now ∥₁ }
{
    match *job {
        Job::Visit { server, packet } => visit(meter, alloc, chain, load, server, packet),
        Job::Take { link, origin } => take(meter, alloc, chain, link, origin),
        _ => step(meter, chain, job),
    }
}

/// The next job. None where the run is finished, and where there was no memory or no clock.
fn next<R: Clock>(
    meter: &mut Meter<'_, R>,
    alloc: Global,
    chain: &mut Chain<'_>,
    load: &Load,
) -> Option<()> {
    let start = meter.start()?;
    let job = chain.next()?;
    meter.part(&start)?;
    if !chain.legal(&job) {
        return None;
    }
    let before = meter.holds.all.nanoseconds;
    make(meter, alloc, chain, load, &job)?;
    let taken = meter.holds.all.nanoseconds.saturating_sub(before);
    meter.holds.add(&job, taken);
    Some(())
}

/// The holds of a whole run, and how many packets it has. None where it came to no end.
pub fn holds_of_a_run<R: AllocGlobal + Clock>(rt: &R) -> Option<(Holds, usize)> {
    let alloc = rt.alloc();
    let load = Load::new(alloc)?;
    let mut chain = Chain::new(alloc, &load.spec, &load.capture.packets, &load.script).ok()?;
    let mut meter = Meter {
        clock: rt,
        holds: Holds::new(),
    };
    for _ in 0..MOST_JOBS {
        if next(&mut meter, alloc, &mut chain, &load).is_none() {
            break;
        }
    }
    if !chain.finished() {
        return None;
    }
    Some((meter.holds, load.capture.packets.len()))
}
