//! The commit of a visit.

ghost use Rattle.std.specs.Prelude.{◌≡◌, ◌≤◌, ◌<◌, true, Some, None, is_some, IfOk};
ghost use Rattle.ftc_base.specs.declared.ask.Ask.TheVariants.{Finish as Ends};
ghost use Rattle.ftc_txn.specs.Slots.{Running, slot_at, wounded_at};
ghost use Rattle.ftc_txn.specs.Head.{RunsUnwounded, AreItsWrites};
ghost use Rattle.ftc_server.specs.Replicas.{may_rise};
ghost use Rattle.ftc_server.specs.Looks.{ask_in};
ghost use Rattle.ftc_server.specs.Prepared.{IsLogLeft, IsPrepared};
ghost use Rattle.ftc_server.specs.Steps.{with_kept, with_written, EndsVisit};

use crate::answers::CommitAnswer;
use crate::server::Server;
use crate::standing::learn;
use crate::visited::{Visited, visit_of};
use ftc_base::{Ask, Finish, NoMemory, ServerId, WorkerId, Writes};
use ftc_mbox::Plan;
use ftc_message::Log;
use ftc_packet::law_of_flows;
use ftc_replica::Kept;
use ftc_ring::Ring;
use ftc_txn::HeadCommit;
use ftc_vector::{Commits, Vector};

/// The same end of a visit once more.
fn copy_finish(finish: &Finish) -> Finish
    ensures { result ≡ finish.now }
{
    Finish {
        writes: Writes::try_from(finish.writes.as_slice()).unwrap(),
        verdict: finish.verdict,
    }
}

/// Keeps the log of a visit that wrote something. There is room for it.
fn keep(kept: &mut Kept, writes: &Writes, log: Option<Log>)
    requires { 1 ≤ kept.old.spare }
    ensures { kept.new.items ≡ with_kept writes.now.items log kept.old.items }
{
    match log {
        Some(log) if !writes.is_empty() => {
            let _ = kept.add(log);
        }
        _ => {}
    }
}

/// What a server knows of the tails after a visit with these writes, where it has this vector of its own
/// group.
fn learn_own(known: &mut Commits, ring: &Ring, id: ServerId, writes: &Writes, vector: &Vector)
    requires { id < ring.now.servers }
    ensures { known.new ≡ with_written ring.now id writes.now.items vector.now known.old }
{
    if !writes.is_empty() {
        learn(known, ring, id, id, vector);
    }
}

impl Server {
    /// What the rule asks of what a slot runs, taken from a plan where it is that of the slot.
    fn asked_or_planned(&self, worker: WorkerId, plan: &Plan) -> Option<Ask>
        ensures { result ≡ ask_in self.now worker }
    {
        let packet = self.head.packet(worker)?;
        let answers = self.head.answers(worker)?;
        let held = self.held.get(packet)?;
        let bytes = held.message.packet.as_ref()?;
        if plan.is_of(&self.rule, bytes.as_slice(), answers) {
            return Some(Ask::Finish(copy_finish(plan.finish())));
        }
        self.asked(worker)
    }

    /// The log that the visit of what a slot runs leaves, with these writes.
    fn log_left(&self, worker: WorkerId, writes: &Writes) -> Option<Log>
        requires writes { (running : Running) → RunsUnwounded self.now.head worker running →
            AreItsWrites self.now.head worker running writes.now.items }
        requires unwounded { wounded_at self.now.head.slots worker ≡ None }
        ensures { IsLogLeft self.now.head (slot_at self.now.head.slots worker) writes.now.items result }
    {
        self.head.log_of(worker, writes)
    }

    /// What the visit of what a slot runs makes of its message, with this end and the log that it leaves.
    fn prepare(
        &self,
        worker: WorkerId,
        finish: &Finish,
        log: &Option<Log>,
    ) -> Result<Visited, NoMemory>
        requires asked { ask_in self.now worker ≡ Some (Ends finish.now) }
        requires unwounded { wounded_at self.now.head.slots worker ≡ None }
        requires rise { may_rise self.now.head.vector ≡ true }
        requires log { IsLogLeft self.now.head (slot_at self.now.head.slots worker) finish.now.writes.items log.now }
        ensures { IfOk result (IsPrepared self.now worker finish.now log.now) }
    {
        law_of_flows();
        let Some(packet) = self.head.packet(worker) else {
            unreachable!()
        };
        let Some(held) = self.held.get(packet) else {
            unreachable!()
        };
        let Some(bytes) = held.message.packet.as_ref() else {
            unreachable!()
        };
        visit_of(
            self.alloc,
            self.ring.failures(),
            log,
            bytes,
            &finish.verdict,
            &held.message,
        )
    }

    /// What a slot runs begins again, since another took a partition from it.
    fn restart(&mut self, worker: WorkerId) -> CommitAnswer
        requires { is_some (wounded_at self.old.head.slots worker) ≡ true }
        ensures { EndsVisit self.old self.new worker result }
    {
        match self.head.commit(worker, &Writes::new()) {
            HeadCommit::Wounded { by } => CommitAnswer::Wounded { by },
            _ => unreachable!(),
        }
    }

    /// The visit of a slot is made with this end, which is what its rule asks. All memory is taken before anything
    /// changes.
    pub fn end_visit(&mut self, worker: WorkerId, finish: &Finish) -> CommitAnswer
        requires asked { ask_in self.old worker ≡ Some (Ends finish.now) }
        requires unwounded { wounded_at self.old.head.slots worker ≡ None }
        requires rise { may_rise self.old.head.vector ≡ true }
        ensures { EndsVisit self.old self.new worker result }
    {
        let Some(packet) = self.head.packet(worker) else {
            return CommitAnswer::Idle;
        };
        let log = self.log_left(worker, &finish.writes);
        let Ok(visited) = self.prepare(worker, finish, &log) else {
            return CommitAnswer::NoMemory;
        };
        if self.own.reserve(1).is_err() {
            return CommitAnswer::NoMemory;
        }
        if self.head.commit_logged(worker, &finish.writes).is_err() {
            return CommitAnswer::NoMemory;
        }
        keep(&mut self.own, &finish.writes, log);
        learn_own(
            &mut self.known,
            &self.ring,
            self.id,
            &finish.writes,
            self.head.vector(),
        );
        // The contract of this call tells that the logs rise.
        let _ = visited.logs.len();
        self.held.visit(packet, visited);
        CommitAnswer::Done
    }

    /// The visit of a slot ends where the rule asks for nothing more.
    fn end(&mut self, worker: WorkerId, asked: &Ask) -> CommitAnswer
        requires asked { ask_in self.old worker ≡ Some asked.now }
        requires unwounded { wounded_at self.old.head.slots worker ≡ None }
        requires rise { may_rise self.old.head.vector ≡ true }
        ensures { EndsVisit self.old self.new worker result }
    {
        match asked {
            Ask::Read { key, .. } => CommitAnswer::Unfinished { key: *key },
            Ask::Finish(finish) => self.end_visit(worker, finish),
        }
    }

    /// The visit of a slot is made, as the plan says where it is the plan of what the slot runs, and else as the
    /// rule says.
    pub fn finish_visit(&mut self, worker: WorkerId, plan: &Plan) -> CommitAnswer
        requires { may_rise self.old.head.vector ≡ true }
        ensures { EndsVisit self.old self.new worker result }
    {
        if self.head.packet(worker).is_none() {
            return CommitAnswer::Idle;
        }
        if self.head.wounded(worker).is_some() {
            return self.restart(worker);
        }
        match self.asked_or_planned(worker, plan) {
            Some(asked) => self.end(worker, &asked),
            None => unreachable!(),
        }
    }
}
