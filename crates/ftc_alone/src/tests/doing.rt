//! Calls on a chain, made where what they require is so. Most say nothing of what comes of them: the tests look at
//! that.

ghost use Rattle.std.specs.Prelude.{◌≡◌, true};
ghost use Rattle.ftc_journal.specs.declared.job.Job.{Job as AJob};
ghost use Rattle.ftc_journal.specs.declared.job.Job.TheVariants as job;
ghost use Rattle.ftc_serial.specs.Words.{AnyOf};
ghost use Rattle.ftc_chain.specs.Doing.{is_visit};

use crate::tests::given::Frame;
use ftc_base::{Answer, Answers, Bytes, Key, NoMemory, PacketNo, ServerId, WorkerId, split_line};
use ftc_chain::{Chain, Jobs};
use ftc_journal::{Job, print};
use ftc_mbox::{Plan, Rule};
use ftc_message::Seen;
use ftc_server::{CommitAnswer, ReadAnswer};
use std::alloc::Global;

/// Whether a job is a visit.
fn is_visit(job: &Job) -> bool
    ensures { result ≡ is_visit job.now }
{
    match job {
        Job::Visit { .. } => true,
        _ => false,
    }
}

/// Makes the event of a job, where it is legal and no visit. The answer is whether it was.
pub fn step(chain: &mut Chain<'_>, job: &Job) -> Result<bool, NoMemory> {
    if is_visit(job) || !chain.legal(job) {
        return Ok(false);
    }
    chain.step(job)?;
    Ok(true)
}

/// Makes a visit from its begin to its commit, where it is legal. The answer is whether it was.
pub fn visit(
    chain: &mut Chain<'_>,
    worker: WorkerId,
    server: ServerId,
    packet: PacketNo,
) -> Result<bool, NoMemory> {
    if !chain.legal(&Job::Visit { server, packet }) {
        return Ok(false);
    }
    chain.visit(worker, server, packet)?;
    Ok(true)
}

/// A copy of the oldest frame of a link.
pub fn frame(chain: &Chain<'_>, link: ServerId) -> Result<Option<Bytes>, NoMemory> {
    chain.frame(link)
}

/// Takes the message of that origin from a link, as it was seen, where it may be taken. The answer is whether it was.
pub fn take_seen(
    chain: &mut Chain<'_>,
    link: ServerId,
    origin: PacketNo,
    seen: Seen,
) -> Result<bool, NoMemory> {
    if !chain.legal(&Job::Take { link, origin }) {
        return Ok(false);
    }
    chain.take_seen(link, seen)?;
    Ok(true)
}

/// Whether a job is that visit.
fn is_visit_of(one: &Job, server: ServerId, packet: PacketNo) -> bool
    ensures { result ≡ true → one.now ≡ job.Visit server packet }
{
    match *one {
        Job::Visit {
            server: at,
            packet: number,
        } => at.number() == server.number() && number == packet,
        _ => false,
    }
}

/// Whether a visit is in a list of jobs.
fn is_listed(jobs: &Jobs, server: ServerId, packet: PacketNo) -> bool
    ensures { result ≡ true → AnyOf (λ (other : AJob). other ≡ job.Visit server packet) jobs.now }
{
    for other in jobs.as_slice() {
        if is_visit_of(other, server, packet) {
            return true;
        }
    }
    false
}

/// A slot begins a visit, where it is idle, no slot runs the visit, that is legal, and an age is left. The answer is
/// the age.
pub fn begin(
    chain: &mut Chain<'_>,
    worker: WorkerId,
    server: ServerId,
    packet: PacketNo,
) -> Result<Option<u64>, NoMemory> {
    let job = Job::Visit { server, packet };
    if chain.answers(worker).is_some() || !chain.legal(&job) || !chain.ages_left(server) {
        return Ok(None);
    }
    let jobs = chain.jobs()?;
    if !is_listed(&jobs, server, packet) {
        return Ok(None);
    }
    Ok(Some(chain.begin(worker, server, packet)))
}

/// How a monitor of eight groups ends the visit of a packet after these answers. None where it asks for a read more.
fn monitored(alloc: Global, packet: &[u8], answers: &Answers) -> Result<Option<Plan>, NoMemory> {
    Plan::make(alloc, &Rule::Monitor { groups: 8 }, packet, answers)
}

/// How it ends the visit that a slot runs. None where that runs nothing, or has a read before it.
pub fn plan_of(
    alloc: Global,
    chain: &Chain<'_>,
    worker: WorkerId,
) -> Result<Option<Plan>, NoMemory> {
    match (chain.look(worker)?, chain.answers(worker)) {
        (Some(packet), Some(answers)) => monitored(alloc, packet.as_slice(), answers),
        _ => Ok(None),
    }
}

/// A plan of no visit here: that of a middlebox that passes a packet without bytes.
pub fn foreign_plan(alloc: Global) -> Result<Option<Plan>, NoMemory> {
    Plan::make(alloc, &Rule::Pass, &[], &Answers::new())
}

/// The plan of that monitor for packet C, as if its key had been read.
pub fn plan_for_c(alloc: Global) -> Result<Option<Plan>, NoMemory> {
    let Some(key) = Frame::C.key() else {
        return Ok(None);
    };
    let mut answers = Answers::new();
    answers.push(Answer { key, value: None });
    monitored(alloc, &Frame::C.bytes(), &answers)
}

/// What a slot runs reads a key.
pub fn read(chain: &mut Chain<'_>, worker: WorkerId, key: &Key) -> ReadAnswer {
    chain.read(worker, key)
}

/// Commits what a slot runs.
pub fn commit(chain: &mut Chain<'_>, worker: WorkerId, plan: &Plan) -> CommitAnswer {
    chain.commit(worker, plan)
}

/// A slot gives up what it runs.
pub fn quit(chain: &mut Chain<'_>, worker: WorkerId) {
    chain.quit(worker);
}

/// How many reads of what a slot runs were answered. None where it runs nothing.
pub fn reads(chain: &Chain<'_>, worker: WorkerId) -> Option<usize> {
    Some(chain.answers(worker)?.len())
}

/// The packet that a slot runs. None where it runs nothing.
pub fn look(chain: &Chain<'_>, worker: WorkerId) -> Result<Option<Bytes>, NoMemory> {
    chain.look(worker)
}

/// Whether a visit is in the list of jobs that no slot runs.
pub fn lists(chain: &Chain<'_>, server: ServerId, packet: PacketNo) -> Result<bool, NoMemory> {
    Ok(is_listed(&chain.jobs()?, server, packet))
}

/// How many events there are.
pub fn told(chain: &Chain<'_>) -> usize {
    chain.journal().len()
}

/// The text of the events so far, behind its first line.
pub fn lines(alloc: Global, chain: &Chain<'_>) -> Result<Bytes, NoMemory> {
    let mut lines = Bytes::new(alloc);
    let text = print(alloc, chain.journal())?;
    if let Some((_, events)) = split_line(text.as_slice()) {
        lines.append(events)?;
    }
    Ok(lines)
}
