//! What the workers' slots of a chain do: each begins a visit, reads for it, and commits it or gives it up.

ghost use Rattle.std.specs.Prelude.{◌≡◌, ◌↔◌, ◌<◌, ℕ, true, false, None, IfOk, IfSome, IsNone, option_map};
ghost use Rattle.ftc_journal.specs.declared.job.Job.TheVariants as job;
ghost use Rattle.ftc_protocol.specs.Jobs.{IsLegalJob};
ghost use Rattle.ftc_txn.specs.Head.{next_age};
ghost use Rattle.ftc_txn.specs.Slots.{packet_of};
ghost use Rattle.ftc_txn.specs.Steps.{begins};
ghost use Rattle.ftc_network.specs.Slots.{head_at, runs_in};
ghost use Rattle.ftc_chain.specs.ChainRun.{setting_in, chain_state};
ghost use Rattle.ftc_chain.specs.Slots.{head_in, runs_at, IsIdle, is_running_at, ages_left_at, IsButHeads, OthersStay};
ghost use Rattle.ftc_chain.specs.Slots.{Answered, Looks, ReadsAt, CommitsAt, HasQuitAt};

use crate::chain::Chain;
use crate::releasing::release_due;
use ftc_base::{Answers, Bytes, Key, NoMemory, PacketNo, ServerId, WorkerId};
use ftc_journal::Event;
use ftc_mbox::Plan;
use ftc_network::{Network, what_runs_may_be_visited, what_slots_ask};
use ftc_protocol::{jobs_of_events, releases};
use ftc_server::{CommitAnswer, ReadAnswer};

/// The packet that a slot runs at a server.
fn packet_run(network: &Network, worker: WorkerId, server: ServerId) -> Option<PacketNo>
    requires { server < network.now.ring.servers }
    ensures { result ≡ packet_of (runs_in (head_at network.now server) worker) }
{
    match &network.servers[usize::from(server.number())] {
        Some(live) => live.packet_of(worker),
        None => None,
    }
}

impl<'a> Chain<'a> {
    /// A slot that is idle begins the visit of a packet at a server, which no slot runs. The answer is its age.
    pub fn begin(&mut self, worker: WorkerId, server: ServerId, packet: PacketNo) -> u64
        requires idle { IsIdle self.old worker }
        requires legal { ∥ IsLegalJob (setting_in self.old) (chain_state self.old) (job.Visit server packet) ∥₁ }
        requires once { is_running_at self.old server packet ≡ false }
        requires age { ages_left_at self.old server ≡ true }
        ensures age { IfSome (head_in self.old server) (λ head. result ≡ next_age head) }
        ensures head { head_in self.new server
            ≡ option_map (λ head. begins head worker packet) (head_in self.old server) }
        ensures others { OthersStay server self.old self.new }
        ensures rest { IsButHeads self.old self.new }
    {
        jobs_of_events();
        self.course.network.begin(worker, server, packet)
    }

    /// The answers of what a slot runs. None where it runs nothing.
    pub fn answers(&self, worker: WorkerId) -> Option<&Answers>
        ensures none { IsNone result ↔ IsIdle self.now worker }
        ensures some { IfSome result (λ answers. Answered self.now worker answers.now.items) }
    {
        match self.course.network.server_of(worker) {
            Some(server) => self.course.network.answers(worker, server),
            None => None,
        }
    }

    /// Whether some slot runs the visit of a packet at a server.
    pub fn is_running(&self, server: ServerId, packet: PacketNo) -> bool
        ensures { result ≡ is_running_at self.now server packet }
    {
        if server.number() >= self.course.network.ring.servers() {
            return false;
        }
        self.course.network.is_running(server, packet)
    }

    /// Whether an age is left for a slot to begin at a server. True where it is down.
    pub fn ages_left(&self, server: ServerId) -> bool
        ensures { result ≡ ages_left_at self.now server }
    {
        if server.number() >= self.course.network.ring.servers() {
            return true;
        }
        self.course.network.ages_left(server)
    }

    /// The packet that a slot runs, copied. None where it runs nothing.
    pub fn look(&self, worker: WorkerId) -> Result<Option<Bytes>, NoMemory>
        ensures { IfOk result (λ bytes. ∥ Looks self.now worker bytes ∥₁) }
    {
        what_slots_ask();
        match self.course.network.server_of(worker) {
            Some(server) => self.course.network.look(worker, server),
            None => Ok(None),
        }
    }

    /// What a slot runs reads a key, which has to be the one that the rule asks for.
    pub fn read(&mut self, worker: WorkerId, key: &Key) -> ReadAnswer
        ensures { ∥ ReadsAt self.old self.new worker key.now result ∥₁ }
    {
        what_slots_ask();
        match self.course.network.server_of(worker) {
            Some(server) => self.course.network.read(worker, server, key),
            None => ReadAnswer::Idle,
        }
    }

    /// A slot gives up what it runs.
    pub fn quit(&mut self, worker: WorkerId)
        ensures idle { IsIdle self.new worker }
        ensures still { (other : ℕ) → IsIdle self.old other → IsIdle self.new other }
        ensures quits { HasQuitAt self.old self.new worker }
    {
        if let Some(server) = self.course.network.server_of(worker) {
            self.course.network.quit(worker, server);
        }
    }

    /// Commits what a slot runs, by the plan where it is that of the slot, and else as the rule says. Done makes the
    /// visit, and the releases that are due after it.
    pub fn commit(&mut self, worker: WorkerId, plan: &Plan) -> CommitAnswer
        ensures { ∥ CommitsAt self.old self.new worker result ∥₁ }
    {
        jobs_of_events();
        releases();
        what_runs_may_be_visited();
        what_slots_ask();
        let Some(server) = self.course.network.server_of(worker) else {
            return CommitAnswer::Idle;
        };
        let Some(packet) = packet_run(&self.course.network, worker, server) else {
            return CommitAnswer::Idle;
        };
        if self.course.make_room().is_err() {
            return self.course.network.refuse(worker, server);
        }
        match self.course.network.commit(worker, server, plan) {
            CommitAnswer::Done => {}
            other => return other,
        }
        let visit = Event::Visit {
            server,
            packet,
            worker,
        };
        let _ = self.course.journal.push(visit);
        release_due(&mut self.course);
        CommitAnswer::Done
    }
}
