//! What a slot runs at a server is committed.

ghost use Rattle.std.specs.Prelude.{◌≡◌, ◌≢◌, ◌<◌, ℕ, true, is_some, IfOk, IfErr, OnErr};
ghost use Rattle.ftc_server.specs.declared.answers.CommitAnswer.TheVariants as commit;
ghost use Rattle.ftc_server.specs.Replicas.{may_rise};
ghost use Rattle.ftc_server.specs.Steps.{EndsVisit};
ghost use Rattle.ftc_txn.specs.Slots.{wounded_at};
ghost use Rattle.ftc_network.specs.Committing.{IsAtRestAt, HasMade, SlotFollowsCommit, commit_answer};
ghost use Rattle.ftc_network.specs.Events.{StandsStill, SlotStandsStill};
ghost use Rattle.ftc_network.specs.Parts.{server_in, withheld_in};
ghost use Rattle.ftc_network.specs.Slots.{IsNetworkAtRest, SlotEndsVisit, FollowsCommit};

use crate::laws::{servers_beside, slots_stay_ready, what_runs_may_be_visited};
use crate::network::Network;
use crate::places::place_of;
use crate::visiting::copy_answers;
use ftc_base::{Ask, Key, ServerId, WorkerId};
use ftc_mbox::Plan;
use ftc_refinement::{what_a_commit_does, what_a_commit_wants, what_stays};
use ftc_server::{CommitAnswer, ReadAnswer, Server};
use ftc_standing::links_stand_still;
use ftc_visits::{MadeVisit, a_made_visit_is_added, made};

/// What a slot runs at a server is committed. Where the visit is made, the answer is that visit with what it needs.
fn commit_there(live: &mut Server, worker: WorkerId, plan: &Plan) -> Result<MadeVisit, CommitAnswer>
    requires { may_rise live.old.head.vector ≡ true }
    ensures ends { EndsVisit live.old live.new worker (commit_answer result) }
    ensures made { IfOk result (HasMade live.old live.new worker) }
    ensures undone { IfErr result (λ answer. answer ≢ commit.Done) }
{
    let Some(packet) = live.packet_of(worker) else {
        return Err(CommitAnswer::Idle);
    };
    let Some(answers) = live.answers(worker) else {
        return Err(CommitAnswer::Idle);
    };
    let answers = copy_answers(answers);
    match live.finish_visit(worker, plan) {
        CommitAnswer::Done => Ok(made(
            &answers,
            live.partitions,
            live.id,
            packet,
            live.head.vector(),
        )),
        other => Err(other),
    }
}

/// The same at a server that may be down.
fn commit_at(
    slot: &mut Option<Server>,
    worker: WorkerId,
    server: ServerId,
    plan: &Plan,
) -> Result<MadeVisit, CommitAnswer>
    requires { ∥ IsAtRestAt server slot.old ∥₁ }
    ensures ends { SlotEndsVisit slot.old slot.new worker (commit_answer result) }
    ensures follows { IfOk result (SlotFollowsCommit worker server slot.old slot.new) }
    ensures undone { IfErr result (λ answer. answer ≢ commit.Done) }
    ensures stands { OnErr result ((number : ℕ) → SlotStandsStill number slot.old slot.new) }
{
    what_stays();
    slots_stay_ready();
    what_runs_may_be_visited();
    what_a_commit_wants();
    what_a_commit_does();
    a_made_visit_is_added();
    match slot {
        Some(live) => commit_there(live, worker, plan),
        None => Err(CommitAnswer::Idle),
    }
}

/// What a slot runs that another wounded begins again: by a read, whose key is of no matter then.
fn restart(live: &mut Server, worker: WorkerId) -> CommitAnswer
    requires { is_some (wounded_at live.old.head.slots worker) ≡ true }
    ensures ends { EndsVisit live.old live.new worker result }
    ensures undone { result ≢ commit.Done }
{
    let key = Key::new(b"-").unwrap();
    match live.read(worker, &key) {
        ReadAnswer::Wounded { by } => CommitAnswer::Wounded { by },
        _ => unreachable!(),
    }
}

/// The commit of what a slot runs at a server that is up, where there is no memory to make its visit.
fn refuse_there(live: &mut Server, worker: WorkerId) -> CommitAnswer
    ensures ends { EndsVisit live.old live.new worker result }
    ensures undone { result ≢ commit.Done }
{
    if live.wounded(worker).is_some() {
        return restart(live, worker);
    }
    let Some(asked) = live.asked(worker) else {
        return CommitAnswer::Idle;
    };
    match asked {
        Ask::Read { key, .. } => CommitAnswer::Unfinished { key },
        Ask::Finish(_) => CommitAnswer::NoMemory,
    }
}

/// The same at a server that may be down.
fn refuse_at(slot: &mut Option<Server>, worker: WorkerId) -> CommitAnswer
    ensures ends { SlotEndsVisit slot.old slot.new worker result }
    ensures undone { result ≢ commit.Done }
    ensures stands { (number : ℕ) → SlotStandsStill number slot.old slot.new }
{
    what_stays();
    match slot {
        Some(live) => refuse_there(live, worker),
        None => CommitAnswer::Idle,
    }
}

impl Network {
    /// What a slot runs at a server is committed. The plan is used where it is that of what the slot runs; else the
    /// rule is asked.
    pub fn commit(&mut self, worker: WorkerId, server: ServerId, plan: &Plan) -> CommitAnswer
        requires inside { server < self.old.ring.servers }
        requires rests { ∥ IsNetworkAtRest self.old ∥₁ }
        ensures ends { SlotEndsVisit (server_in self.old.servers.items server) (server_in self.new.servers.items server)
            worker result }
        ensures follows { result ≡ commit.Done → FollowsCommit worker server self.old self.new }
        ensures stands { result ≢ commit.Done → StandsStill self.old self.new }
        ensures others { (other : ℕ) → other ≢ server →
            server_in self.new.servers.items other ≡ server_in self.old.servers.items other }
        ensures withheld { withheld_in self.new ≡ withheld_in self.old }
    {
        servers_beside();
        links_stand_still();
        if self.visits.reserve(1).is_err() {
            return self.refuse(worker, server);
        }
        match commit_at(&mut self.servers[place_of(server)], worker, server, plan) {
            Ok(visit) => {
                self.visits.add(visit);
                CommitAnswer::Done
            }
            Err(answer) => answer,
        }
    }

    /// The commit of what a slot runs at a server, where there is no memory to make its visit: the answer is NoMemory
    /// where it would be Done.
    pub fn refuse(&mut self, worker: WorkerId, server: ServerId) -> CommitAnswer
        requires { server < self.old.ring.servers }
        ensures ends { SlotEndsVisit (server_in self.old.servers.items server) (server_in self.new.servers.items server)
            worker result }
        ensures undone { result ≢ commit.Done }
        ensures stands { StandsStill self.old self.new }
        ensures others { (other : ℕ) → other ≢ server →
            server_in self.new.servers.items other ≡ server_in self.old.servers.items other }
        ensures withheld { withheld_in self.new ≡ withheld_in self.old }
    {
        refuse_at(&mut self.servers[place_of(server)], worker)
    }
}
