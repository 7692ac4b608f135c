//! The one latch, the workers' seats, and what tells of changes.
//!
//! One worker leads: it alone looks for jobs, and makes the steps. Before an open gate it makes the visits too. Before
//! a gate that may hold a visit it prepares visits for the others: it begins one, reads for it, makes the plan, and has
//! it ready for the next worker that waits, at whose seat it puts it. The worker passes the gate and puts it back, and
//! the leader commits it. So what lies under the latch stays near one processor, and mostly nobody but the leader wants
//! it. Where the leader is held itself, by a gate or by an older transaction, it leads no more, and the next worker
//! that is awake does. So wherever a job can be done a worker is awake that looks for it, or comes to.

ghost use Rattle.std.specs.Prelude.{◌≡◌, ◌<◌, ◌+◌};

use crate::latch::{Begun, Found, Latch};
use crate::office::{Office, depart, give_up, leave_seat, take_own_back};
use crate::seat::Planned;
use crate::tally::{Run, Tally};
use ftc_base::{Answer, Answers, Key, NoMemory, PacketNo, ServerId, WorkerId};
use ftc_mbox::{Plan, Rules};
use ftc_message::Seen;
use ftc_server::CommitAnswer;
use ftc_txn::ReadAnswer;
use std::alloc::Global;
use std::sync::{Condvar, Mutex, MutexGuard, Wait};
use std::thread::yield_now;

/// How often a worker looks for the latch before it sleeps.
const LOOKS: u32 = 100;

/// What workers share.
#[derive(Drop)]
pub struct Shared<'a, L: Run> {
    latch: Mutex<Latch<'a, L>>,
    pub office: Office,
    /// Tells workers that an older transaction blocked that they may ask again.
    freed: Condvar,
    /// Tells the writer to write.
    output: Condvar,
}

impl<'a, L: Run> Shared<'a, L> {
    /// Nobody waits yet.
    pub fn new(latch: Latch<'a, L>, workers: u8) -> Shared<'a, L> {
        Shared {
            latch: Mutex::new(latch),
            office: Office::new(workers),
            freed: Condvar::new(),
            output: Condvar::new(),
        }
    }

    /// Waits for the latch, first awake: who has it does one call, which takes less time than to sleep and to be woken.
    fn lock<R: Wait>(&self, rt: &R) -> MutexGuard<'_, Latch<'a, L>> {
        for _ in 0..LOOKS {
            if let Some(latch) = self.latch.try_lock() {
                return latch;
            }
            yield_now();
        }
        self.latch.lock(rt)
    }

    /// Sends what was released, and tells the writer where much is unwritten.
    fn tell(&self, latch: &mut Latch<'a, L>) {
        if latch.flush() {
            self.output.notify_one();
        }
    }

    /// What lay under the latch.
    pub fn into_inner(self) -> Latch<'a, L> {
        let Shared {
            latch,
            office: _,
            freed: _,
            output: _,
        } = self;
        latch.into_inner()
    }
}

/// How a visit goes on.
#[derive(Clone, Copy, Debug, PartialEq, Eq)]
pub enum Progress {
    /// The rule is asked.
    Asks,
    /// The slot runs nothing any more.
    Over,
    /// An older transaction has what is asked for.
    Blocked,
    /// There was no memory.
    NoMemory,
}

/// The rule is asked after the answers of what a slot runs, where it runs something.
fn progress_of<L: Run>(latch: &Latch<'_, L>, worker: WorkerId, answers: &mut Answers) -> Progress {
    match latch.answers(worker) {
        Some(others) => {
            *answers = others;
            Progress::Asks
        }
        None => Progress::Over,
    }
}

/// A copy of the chain's rules.
pub fn rules<L: Run, R: Wait>(
    rt: &R,
    alloc: Global,
    shared: &Shared<'_, L>,
) -> Result<Rules, NoMemory> {
    shared.lock(rt).rules(alloc)
}

/// What a leader looks for.
#[derive(Clone, Copy, Debug, PartialEq, Eq)]
pub enum Search {
    /// Any job. A visit is begun in this slot.
    Any(WorkerId),
    /// A visit, which is begun in this slot, or else another job.
    Visit(WorkerId),
    /// A job that is no visit.
    Other,
}

/// Begins a visit in that slot, or else makes another step.
fn find_visit_first<L: Run>(latch: &mut Latch<'_, L>, slot: WorkerId) -> Found {
    match latch.find_visit(slot) {
        Found::Nothing => latch.find_other(),
        found => found,
    }
}

/// The leader finds something to do, and sends what was released.
pub fn find<L: Run, R: Wait>(rt: &R, shared: &Shared<'_, L>, search: Search) -> Found {
    if shared.office.is_over() {
        return Found::Finished;
    }
    let mut latch = shared.lock(rt);
    let found = match search {
        Search::Any(slot) => latch.find(slot),
        Search::Visit(slot) => find_visit_first(&mut latch, slot),
        Search::Other => latch.find_other(),
    };
    match &found {
        Found::Stepped | Found::Freed => shared.tell(&mut latch),
        _ => {}
    }
    found
}

/// Nothing is to be done now: the writer writes what is left.
pub fn tell_of_rest<L: Run, R: Wait>(rt: &R, shared: &Shared<'_, L>) {
    if shared.lock(rt).batch.close() {
        shared.output.notify_one();
    }
}

/// What a slot runs at a server, with the packet as it is there. None where it runs nothing.
pub fn look<L: Run, R: Wait>(
    rt: &R,
    shared: &Shared<'_, L>,
    slot: WorkerId,
    server: ServerId,
    packet: PacketNo,
) -> Result<Option<Begun>, NoMemory> {
    shared.lock(rt).look(slot, server, packet)
}

/// Slots may have become idle: those that were blocked ask again.
pub fn wake_blocked<L: Run>(shared: &Shared<'_, L>) {
    shared.freed.notify_all();
}

/// Takes the message of a frame that was read, where it may still be taken, and sends what was released. False where
/// there was no memory.
pub fn take<L: Run, R: Wait>(
    rt: &R,
    shared: &Shared<'_, L>,
    link: ServerId,
    origin: PacketNo,
    seen: Seen,
) -> bool {
    let mut latch = shared.lock(rt);
    let taken = latch.take_seen(link, origin, seen);
    shared.tell(&mut latch);
    taken
}

/// A slot reads a key, and the answer is added.
fn try_read<L: Run>(
    latch: &mut Latch<'_, L>,
    slot: WorkerId,
    key: &Key,
    answers: &mut Answers,
) -> Progress {
    match latch.read(slot, key) {
        ReadAnswer::Value(value) => match answers.try_push(Answer { key: *key, value }) {
            Ok(()) => Progress::Asks,
            Err(_) => progress_of(latch, slot, answers),
        },
        ReadAnswer::Blocked { .. } => Progress::Blocked,
        _ => progress_of(latch, slot, answers),
    }
}

/// Reads a key for a slot, and adds the answer.
pub fn read<L: Run, R: Wait>(
    rt: &R,
    shared: &Shared<'_, L>,
    slot: WorkerId,
    key: &Key,
    answers: &mut Answers,
) -> Progress {
    let mut latch = shared.lock(rt);
    try_read(&mut latch, slot, key, answers)
}

/// The same for a visit that a worker makes itself. It waits where an older transaction has the key's partition, and
/// leads no more.
pub fn read_or_wait<L: Run, R: Wait>(
    rt: &R,
    shared: &Shared<'_, L>,
    worker: WorkerId,
    slot: WorkerId,
    key: &Key,
    answers: &mut Answers,
) -> Progress {
    let mut latch = shared.lock(rt);
    match try_read(&mut latch, slot, key, answers) {
        Progress::Blocked => {
            give_up(rt, &shared.office, worker);
            let _latch = shared.freed.wait(rt, latch);
            Progress::Asks
        }
        progress => progress,
    }
}

/// Commits what the slot runs, and sends what was released.
fn try_commit<L: Run, R: Wait>(
    rt: &R,
    shared: &Shared<'_, L>,
    slot: WorkerId,
    plan: &Plan,
    mine: &mut Tally<L>,
) -> Progress
    requires { 0 < mine.old.share.parts }
    ensures { mine.new.share.parts ≡ mine.old.share.parts }
{
    let mut latch = shared.lock(rt);
    let answer = latch.commit(slot, plan, mine);
    shared.tell(&mut latch);
    match answer {
        CommitAnswer::Done | CommitAnswer::Idle => Progress::Over,
        CommitAnswer::NoMemory => Progress::NoMemory,
        _ => Progress::Asks,
    }
}

/// Commits what the slot runs, and wakes those that it blocked.
pub fn commit<L: Run, R: Wait>(
    rt: &R,
    shared: &Shared<'_, L>,
    slot: WorkerId,
    plan: &Plan,
    mine: &mut Tally<L>,
) -> Progress
    requires { 0 < mine.old.share.parts }
    ensures { mine.new.share.parts ≡ mine.old.share.parts }
{
    let progress = try_commit(rt, shared, slot, plan, mine);
    wake_blocked(shared);
    progress
}

/// A slot gives up what it runs, and those that it blocked ask again.
pub fn quit<L: Run, R: Wait>(rt: &R, shared: &Shared<'_, L>, slot: WorkerId) {
    shared.lock(rt).leave(slot);
    wake_blocked(shared);
}

/// A visit is given up, and its slot is free for another one.
pub fn drop_visit<L: Run, R: Wait>(rt: &R, shared: &Shared<'_, L>, slot: WorkerId) {
    quit(rt, shared, slot);
    shared.office.slots.free(slot);
}

/// A worker that ends gives a visit up, if it has one.
fn drop_left<L: Run, R: Wait>(rt: &R, shared: &Shared<'_, L>, left: Option<Planned>) {
    if let Some(planned) = left {
        drop_visit(rt, shared, planned.slot);
    }
}

/// The worker ends: it gives up what it was given and what isn't committed, and all others look again.
pub fn leave<L: Run, R: Wait>(rt: &R, shared: &Shared<'_, L>, worker: WorkerId) {
    drop_left(rt, shared, leave_seat(rt, &shared.office, worker));
    drop_left(rt, shared, take_own_back(rt, &shared.office, worker));
    depart(rt, &shared.office, worker);
}

/// Tells the writer that all workers ended.
pub fn end<L: Run, R: Wait>(rt: &R, shared: &Shared<'_, L>) {
    shared.lock(rt).end();
    shared.output.notify_all();
}

/// The writer begins to write. True where all workers ended.
pub fn begin_writing<L: Run, R: Wait>(rt: &R, shared: &Shared<'_, L>) -> bool {
    shared.lock(rt).begin_writing()
}

/// The writer wrote all that it saw, and waits until it is told to write.
pub fn wait_to_write<L: Run, R: Wait>(rt: &R, shared: &Shared<'_, L>) {
    let latch = shared.lock(rt);
    if !latch.writes_on() {
        let _latch = shared.output.wait(rt, latch);
    }
}

/// Puts two tallies together.
pub fn merge<L: Run, R: Wait>(rt: &R, shared: &Shared<'_, L>, mine: &mut Tally<L>, other: Tally<L>)
    ensures { mine.new.share.parts ≡ mine.old.share.parts + other.share.parts }
{
    shared.lock(rt).merge(mine, other);
}
