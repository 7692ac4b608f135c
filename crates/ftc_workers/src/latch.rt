//! What lies under the latch. In each hold a worker makes one call that changes the chain, and what is released goes to
//! the writer.

ghost use Rattle.std.specs.Prelude.{◌≡◌, ◌≤◌, ◌<◌, ◌+◌, false, length};
ghost use Rattle.ftc_journal.specs.declared.job.Job.TheVariants as job;
ghost use Rattle.ftc_chain.specs.Doing.{is_visit};
ghost use Rattle.ftc_chain.specs.Slots.{IsIdle, AreIdle};
ghost use Rattle.ftc_workers.specs.Choices.{MayBegin, IsChoice};
ghost use Rattle.ftc_workers.specs.Given.{given_of};
ghost use Rattle.ftc_workers.specs.Outlets.{sent_of, room_of};
ghost use Rattle.ftc_workers.specs.Visits.{visits};

use crate::batch::Batch;
use crate::calls::{begin, commit, few, quit, read, step, take_seen};
use crate::choosing::{Choice, choose, choose_other, choose_visit};
use crate::outlet::pass_on;
use crate::tally::{Run, Tally};
use ftc_base::{Answers, Bytes, Key, NoMemory, PacketNo, ServerId, WorkerId};
use ftc_chain::Chain;
use ftc_journal::Job;
use ftc_mbox::{Plan, Rules, copy_rules};
use ftc_message::Seen;
use ftc_server::CommitAnswer;
use ftc_stream::Sender;
use ftc_txn::ReadAnswer;
use std::alloc::Global;
use std::sync::ledger::Book;

/// The chain, with the book of the commits that were made since it was handed in.
#[derive(Drop)]
pub struct Latch<'a, L: Run> {
    pub chain: Chain<'a>,
    pub book: Book<L>,
    /// Where released packets go, where they are taken out.
    pub outlet: Option<Sender>,
    pub batch: Batch,
    /// All workers ended.
    pub ended: bool,
    pub ghost counted: { visits chain.journal ≡ L.start + book.total },
    pub ghost given: { given_of chain ≡ L.given },
    pub ghost sent: { sent_of outlet chain.drained ≡ chain.drained },
    pub ghost room: { length chain.packets ≤ room_of outlet (length chain.packets) },
}

/// A visit that was begun in a slot: the server, and the packet as it is there.
#[derive(Debug, Drop)]
pub struct Begun {
    pub slot: WorkerId,
    pub server: ServerId,
    pub packet: PacketNo,
    pub bytes: Bytes,
}

/// The oldest frame of a link, which a worker reads outside the latch, and the origin of its message.
#[derive(Debug, Drop)]
pub struct Copied {
    pub link: ServerId,
    pub origin: PacketNo,
    pub frame: Bytes,
}

/// What a worker found to do.
#[derive(Debug, Drop)]
pub enum Found {
    /// It made a step.
    Stepped,
    /// It made a step, or gave a visit up, after which slots that were blocked may go on.
    Freed,
    /// It began this visit.
    Begun(Begun),
    /// It copied this frame.
    Copied(Copied),
    /// Nothing now.
    Nothing,
    /// Nothing more: the run is finished.
    Finished,
    /// Nothing: there was no memory, or no age was left.
    Failed,
}

/// What was found, where the step that was made frees slots.
fn freed_by(found: Found) -> Found {
    match found {
        Found::Stepped => Found::Freed,
        other => other,
    }
}

impl<'a, L: Run> Latch<'a, L> {
    /// All slots are idle, and nothing was counted yet.
    pub fn new(chain: Chain<'a>, book: Book<L>, outlet: Option<Sender>) -> Latch<'a, L>
        requires start { visits chain.journal ≡ L.start + book.total }
        requires given { given_of chain ≡ L.given }
        requires idle { AreIdle chain }
        requires sent { sent_of outlet chain.drained ≡ chain.drained }
        requires room { length chain.packets ≤ room_of outlet (length chain.packets) }
    {
        Latch {
            chain,
            book,
            outlet,
            batch: Batch::new(),
            ended: false,
        }
    }

    /// A copy of the chain's rules.
    pub fn rules(&self, alloc: Global) -> Result<Rules, NoMemory> {
        copy_rules(alloc, self.chain.spec().rules())
    }

    /// A slot that is idle begins a visit, where an age is left.
    fn begin(&mut self, worker: WorkerId, server: ServerId, packet: PacketNo) -> Found
        requires may { MayBegin self.old.chain (job.Visit server packet) }
        requires idle { IsIdle self.old.chain worker }
    {
        if !self.chain.ages_left(server) {
            return Found::Failed;
        }
        begin(&mut self.chain, worker, server, packet);
        match self.look(worker, server, packet) {
            Ok(Some(begun)) => Found::Begun(begun),
            Ok(None) => Found::Stepped,
            Err(_) => Found::Failed,
        }
    }

    /// What a slot runs at a server, with the packet as it is there. None where it runs nothing.
    pub fn look(
        &self,
        slot: WorkerId,
        server: ServerId,
        packet: PacketNo,
    ) -> Result<Option<Begun>, NoMemory> {
        let Some(bytes) = self.chain.look(slot)? else {
            return Ok(None);
        };
        Ok(Some(Begun {
            slot,
            server,
            packet,
            bytes,
        }))
    }

    /// Makes the step of a job other than a visit.
    fn step(&mut self, job: &Job) -> Found
        requires other { is_visit job.now ≡ false }
        requires may { MayBegin self.old.chain job.now }
    {
        match step(&mut self.chain, job) {
            Ok(()) => Found::Stepped,
            Err(_) => Found::Failed,
        }
    }

    /// Copies the frame that a job takes. Where there is no memory for the copy, the step is made at once.
    fn copy(&mut self, job: &Job, link: ServerId, origin: PacketNo) -> Found
        requires other { is_visit job.now ≡ false }
        requires may { MayBegin self.old.chain job.now }
    {
        match self.chain.frame(link) {
            Ok(Some(frame)) => Found::Copied(Copied {
                link,
                origin,
                frame,
            }),
            _ => self.step(job),
        }
    }

    /// Makes the step of a job that is no visit, or copies the frame that it takes.
    fn make_other(&mut self, job: &Job) -> Found
        requires other { is_visit job.now ≡ false }
        requires may { MayBegin self.old.chain job.now }
    {
        match *job {
            Job::Take { link, origin } => self.copy(job, link, origin),
            Job::Crash { .. } => freed_by(self.step(job)),
            _ => self.step(job),
        }
    }

    /// Begins the visit of a job, copies the frame that it takes, or makes its step.
    fn make(&mut self, worker: WorkerId, job: &Job) -> Found
        requires may { MayBegin self.old.chain job.now }
        requires idle { IsIdle self.old.chain worker }
    {
        match *job {
            Job::Visit { server, packet } => self.begin(worker, server, packet),
            _ => self.make_other(job),
        }
    }

    /// Takes the message of a frame that was read, where it may still be taken. False where there was no memory.
    pub fn take_seen(&mut self, link: ServerId, origin: PacketNo, seen: Seen) -> bool {
        if !self.chain.legal(&Job::Take { link, origin }) {
            return true;
        }
        take_seen(&mut self.chain, link, seen).is_ok()
    }

    /// Does what was chosen, in that slot, where it is a visit.
    fn follow(&mut self, slot: WorkerId, choice: Choice) -> Found
        requires may { IsChoice self.old.chain choice }
        requires idle { IsIdle self.old.chain slot }
    {
        match choice {
            Choice::Do(job) => self.make(slot, &job),
            Choice::Wait => Found::Nothing,
            Choice::Finished => Found::Finished,
        }
    }

    /// Makes a step, or begins a visit in this worker's slot. What that runs is given up first.
    pub fn find(&mut self, worker: WorkerId) -> Found {
        if self.chain.answers(worker).is_some() {
            quit(&mut self.chain, worker);
            return Found::Freed;
        }
        let choice = choose(&self.chain);
        self.follow(worker, choice)
    }

    /// Begins a visit in a slot, where that runs nothing and a visit waits.
    pub fn find_visit(&mut self, slot: WorkerId) -> Found {
        if self.chain.answers(slot).is_some() {
            return Found::Nothing;
        }
        let choice = choose_visit(&self.chain);
        self.follow(slot, choice)
    }

    /// Makes a step that is no visit.
    pub fn find_other(&mut self) -> Found {
        match choose_other(&self.chain, false) {
            Choice::Do(job) => self.make_other(&job),
            Choice::Wait => Found::Nothing,
            Choice::Finished => Found::Finished,
        }
    }

    /// What a slot runs reads a key.
    pub fn read(&mut self, worker: WorkerId, key: &Key) -> ReadAnswer {
        read(&mut self.chain, worker, key)
    }

    /// The answers of what a slot runs.
    pub fn answers(&self, worker: WorkerId) -> Option<Answers> {
        let answers = self.chain.answers(worker)?;
        Answers::try_from(answers.as_slice()).ok()
    }

    /// A worker ends: its slot gives up what it runs.
    pub fn leave(&mut self, worker: WorkerId) {
        quit(&mut self.chain, worker)
    }

    /// Commits what a slot runs, and counts what was done.
    pub fn commit(&mut self, worker: WorkerId, plan: &Plan, mine: &mut Tally<L>) -> CommitAnswer
        requires { 0 < mine.old.share.parts }
        ensures { mine.new.share.parts ≡ mine.old.share.parts }
    {
        let answer = commit(&mut self.chain, worker, plan);
        few(&self.chain);
        match answer {
            CommitAnswer::Done => {
                self.book.add(&mut mine.share, 1);
                self.book.audit(&mut mine.share);
                mine.count += 1;
            }
            _ => {}
        }
        answer
    }

    /// Sends what was released. True where so much is unwritten that the writer is to be told.
    pub fn flush(&mut self) -> bool {
        let Latch {
            chain,
            book: _,
            outlet,
            batch,
            ended: _,
        } = self;
        match outlet {
            Some(sender) => batch.add(pass_on(chain, sender)),
            None => false,
        }
    }

    /// The writer begins to write. True where all workers ended.
    pub fn begin_writing(&mut self) -> bool {
        self.batch.begin();
        self.ended
    }

    /// Whether the writer is to write on.
    pub fn writes_on(&self) -> bool {
        self.batch.is_due() || self.ended
    }

    /// Tells that all workers ended.
    pub fn end(&mut self) {
        self.ended = true;
    }

    /// Puts two tallies together.
    pub fn merge(&mut self, mine: &mut Tally<L>, other: Tally<L>)
        ensures { mine.new.share.parts ≡ mine.old.share.parts + other.share.parts }
    {
        let Tally { share, count } = other;
        mine.share.merge(share);
        few(&self.chain);
        self.book.audit(&mut mine.share);
        mine.count += count;
    }

    /// The chain, and how many commits it has since it was handed in.
    pub fn close(self, all: Tally<L>) -> (Chain<'a>, u64)
        requires { all.share.parts ≡ L.parts }
        ensures counted { visits result.0.journal ≡ L.start + result.1 }
        ensures given { given_of result.0 ≡ L.given }
    {
        let Latch {
            chain,
            book,
            outlet,
            batch: _,
            ended: _,
        } = self;
        drop(outlet);
        let Tally { share, count } = all;
        let mut book = book;
        let mut share = share;
        book.audit(&mut share);
        (chain, count)
    }
}
