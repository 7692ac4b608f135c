//! The chain.

ghost use Rattle.std.specs.Prelude.{◌≡◌, ◌<◌, ◌≤◌, ℕ, [], ◌∷◌, ◌++◌, true, false, length, take, OnOk, OnErr, IfOk};
ghost use Rattle.std.specs.Prelude.{IfSome, IsNone};
ghost use Rattle.ftc_base.specs.declared.limits.TheConstants.{FINISHING_SLOT};
ghost use Rattle.ftc_journal.specs.declared.job.Job.TheVariants as job;
ghost use Rattle.ftc_serial.specs.Packets.{bytes_of_packets};
ghost use Rattle.ftc_chain.specs.Doing.{is_visit};

use crate::course::Course;
use crate::given::Given;
use crate::messages::messages_in;
use crate::outlet::Outlet;
use crate::releasing::release_due;
use ftc_base::{NoMemory, PacketNo, Released, ServerId, WorkerId};
use ftc_jobs::{Jobs, all_jobs, first_job, free_visit, is_legal, other_job};
use ftc_journal::{Event, Job, Journal};
use ftc_mbox::ChainSpec;
use ftc_message::Seen;
use ftc_network::Network;
use ftc_pcap::Packets;
use ftc_protocol::{
    accepted, every_moment, fates, few_propagates, first_job as order_of_jobs, jobs_of_events,
    order_of_a_state, releases, runs,
};
use ftc_script::Script;
use std::alloc::Global;
use std::marker::Model;

/// A chain of servers on the packets of a capture, with a script of crashes, recoveries and losses. A contract sees
/// what it was given, its events so far, which released packets were taken out, and what the heads of its servers have.
#[derive(Drop)]
pub struct Chain<'a> {
    pub(crate) given: Given<'a>,
    pub(crate) course: Course,
}

impl<'a> Model for Chain<'a> {
    ghost use Rattle.std.specs.Prelude.{map, take};
    ghost use Rattle.std.specs.Coded.{codes};
    ghost use Rattle.ftc_serial.specs.Packets.{bytes_of_packets};
    ghost use Rattle.ftc_protocol.specs.Moment.{released_in};
    ghost use Rattle.ftc_txn.specs.Head.{head_code};
    ghost use Rattle.ftc_network.specs.Slots.{head_of};
    ghost use Rattle.ftc_chain.specs.ChainRun.{ChainRun};
    ghost use Rattle.ftc_chain.specs.Course.{IsCourseResting, RunsOnce, state_by};
    ghost use Rattle.ftc_chain.specs.Doing.{ScriptFits, setting_by};

    ghost Value = { ChainRun };

    ghost coded = { Prim.hlevel (codes, head_code) };

    ghost view = { λ chain. record {
      chain = chain.given.spec.now;
      packets = bytes_of_packets chain.given.packets.now;
      script = chain.given.script.now;
      journal = chain.course.journal.items;
      drained = take chain.course.outlet.drained
          (released_in (state_by (setting_by chain.given) chain.course.journal.items).trace);
      heads = map head_of chain.course.network.servers.items;
    } };

    ghost invariant = { λ chain. ScriptFits chain.given × ∥ IsCourseResting (setting_by chain.given) chain.course ∥₁
        × RunsOnce chain.course.network };
}

impl<'a> Chain<'a> {
    ghost use Rattle.ftc_chain.specs.ChainRun.{setting_in, chain_state, released_by};
    ghost use Rattle.ftc_chain.specs.Course.{HasMade};
    ghost use Rattle.ftc_chain.specs.Messages.{AreUnderWay};
    ghost use Rattle.ftc_chain.specs.Slots.{head_in, is_running_at, IsIdle, AreIdle, IsButHeads, OthersStay};
    ghost use Rattle.ftc_chain.specs.Slots.{HeadsAfter};
    ghost use Rattle.ftc_network.specs.Slots.{IsIdleHead};
    ghost use Rattle.ftc_jobs.specs.All.{AreJobs};
    ghost use Rattle.ftc_jobs.specs.Beside.{IsWanted, IsNoneWanted};
    ghost use Rattle.ftc_protocol.specs.Jobs.{IsLegalJob, IsFirstJob};
    ghost use Rattle.ftc_protocol.specs.Moment.{IsSound};
    ghost use Rattle.ftc_protocol.specs.Run.{IsRun, IsFinished};
    ghost use Rattle.ftc_protocol.specs.Setting.{IsSetting};

    /// The chain before its first event. The script was accepted for the chain's ring and for as many packets.
    pub fn new(
        alloc: Global,
        spec: &'a ChainSpec,
        packets: &'a Packets,
        script: &'a Script,
    ) -> Result<Chain<'a>, NoMemory>
        requires ring { script.now.ring ≡ record { servers = length spec.now.rules; failures = spec.now.failures } }
        requires packets { script.now.packets ≡ length packets.now }
        ensures new { IfOk result (λ chain. chain ≡ record {
          chain = spec.now;
          packets = bytes_of_packets packets.now;
          script = script.now;
          journal = [];
          drained = [];
          heads = chain.heads;
        }) }
        ensures up { IfOk result (λ chain. (server : ℕ) → server < length spec.now.rules →
            IsIdleHead (head_in chain server)) }
        ensures idle { IfOk result AreIdle }
    {
        accepted();
        let _ = spec.rules();
        let network = Network::new(alloc, *script.ring(), spec)?;
        Ok(Chain {
            given: Given {
                alloc,
                spec,
                packets,
                script,
            },
            course: Course {
                journal: Journal::new(alloc),
                network,
                outlet: Outlet::new(alloc),
            },
        })
    }

    /// The chain of middleboxes.
    pub fn spec(&self) -> &ChainSpec
        ensures { result.now ≡ self.now.chain }
    {
        self.given.spec
    }

    /// The packets of the capture.
    pub fn packets(&self) -> &Packets
        ensures { bytes_of_packets result.now ≡ self.now.packets }
    {
        self.given.packets
    }

    /// The script of crashes, recoveries and losses.
    pub fn script(&self) -> &Script
        ensures { result.now ≡ self.now.script }
    {
        self.given.script
    }

    /// The first job in the order of jobs. None where the run is finished.
    pub fn next(&self) -> Option<Job>
        ensures first { IfSome result (λ job. ∥ IsFirstJob (setting_in self.now) (chain_state self.now) job ∥₁) }
        ensures none { IsNone result → ∥ IsFinished (setting_in self.now) (chain_state self.now) ∥₁ }
    {
        accepted();
        few_propagates();
        let _ = self.given.script.ring();
        let packets = self.given.packets.len() as u32;
        first_job(&self.course.network, self.given.script, packets)
    }

    /// A visit that is legal and that no slot runs. None where each legal visit is run by some slot.
    pub fn free_visit(&self) -> Option<Job>
        ensures some { IfSome result (λ job.
            ∥ IsWanted true (is_running_at self.now) (setting_in self.now) (chain_state self.now) job ∥₁) }
        ensures none { IsNone result →
            IsNoneWanted true (is_running_at self.now) (setting_in self.now) (chain_state self.now) }
    {
        accepted();
        few_propagates();
        let _ = self.given.script.ring();
        let _ = self.given.packets.len();
        free_visit(&self.course.network, self.given.script)
    }

    /// A legal job that is no visit. None where only visits are legal.
    pub fn other_job(&self) -> Option<Job>
        ensures some { IfSome result (λ job.
            ∥ IsWanted false (is_running_at self.now) (setting_in self.now) (chain_state self.now) job ∥₁) }
        ensures none { IsNone result →
            IsNoneWanted false (is_running_at self.now) (setting_in self.now) (chain_state self.now) }
    {
        accepted();
        few_propagates();
        let _ = self.given.script.ring();
        let packets = self.given.packets.len() as u32;
        other_job(&self.course.network, self.given.script, packets)
    }

    /// Whether no event is legal any more.
    pub fn finished(&self) -> bool
        ensures finished { result ≡ true → ∥ IsFinished (setting_in self.now) (chain_state self.now) ∥₁ }
        ensures unfinished { result ≡ false → IsFinished (setting_in self.now) (chain_state self.now) → ⊥ }
    {
        order_of_jobs();
        self.next().is_none()
    }

    /// Whether a job is legal.
    pub fn legal(&self, job: &Job) -> bool
        ensures yes { result ≡ true → ∥ IsLegalJob (setting_in self.now) (chain_state self.now) job.now ∥₁ }
        ensures no { result ≡ false → IsLegalJob (setting_in self.now) (chain_state self.now) job.now → ⊥ }
    {
        accepted();
        few_propagates();
        let _ = self.given.script.ring();
        let packets = self.given.packets.len() as u32;
        is_legal(&self.course.network, self.given.script, packets, job)
    }

    /// All legal jobs but the visits that a slot runs, each once, in no order.
    pub fn jobs(&self) -> Result<Jobs, NoMemory>
        ensures { IfOk result (λ jobs.
            ∥ AreJobs (is_running_at self.now) (setting_in self.now) (chain_state self.now) jobs ∥₁) }
    {
        accepted();
        few_propagates();
        let _ = self.given.script.ring();
        let packets = self.given.packets.len() as u32;
        let network = &self.course.network;
        all_jobs(self.given.alloc, network, self.given.script, packets)
    }

    /// Makes the event of a job other than a visit, and the releases that are due after it. A refused call leaves the
    /// run as it was.
    pub fn step(&mut self, job: &Job) -> Result<(), NoMemory>
        requires other { is_visit job.now ≡ false }
        requires legal { ∥ IsLegalJob (setting_in self.old) (chain_state self.old) job.now ∥₁ }
        ensures ok { OnOk result (∥ HasMade FINISHING_SLOT job.now self.old self.new ∥₁) }
        ensures heads { OnOk result (HeadsAfter job.now self.old self.new) }
        ensures err { OnErr result (self.new ≡ self.old) }
    {
        self.make(job, None)
    }

    /// The same, with what was seen of a link's frames, which is for a take there.
    pub(crate) fn make(&mut self, job: &Job, seen: Option<Seen>) -> Result<(), NoMemory>
        requires other { is_visit job.now ≡ false }
        requires legal { ∥ IsLegalJob (setting_in self.old) (chain_state self.old) job.now ∥₁ }
        ensures ok { OnOk result (∥ HasMade FINISHING_SLOT job.now self.old self.new ∥₁) }
        ensures heads { OnOk result (HeadsAfter job.now self.old self.new) }
        ensures err { OnErr result (self.new ≡ self.old) }
    {
        releases();
        self.course.make_room()?;
        let event = self.given.happen(&mut self.course.network, job, seen)?;
        self.course.journal.push(event)?;
        release_due(&mut self.course);
        Ok(())
    }

    /// Makes the visit of a packet at a server in a worker's slot, from its begin to its commit, and the releases that
    /// are due after it. What the server's slots ran is given up first. A refused call leaves the run as it was, but
    /// for what those slots ran.
    pub fn visit(
        &mut self,
        worker: WorkerId,
        server: ServerId,
        packet: PacketNo,
    ) -> Result<(), NoMemory>
        requires { ∥ IsLegalJob (setting_in self.old) (chain_state self.old) (job.Visit server packet) ∥₁ }
        ensures ok { OnOk result (∥ HasMade worker (job.Visit server packet) self.old self.new ∥₁) }
        ensures here { OnOk result (IsIdleHead (head_in self.new server)) }
        ensures err { OnErr result (IsButHeads self.old self.new) }
        ensures others { OthersStay server self.old self.new }
        ensures idle { (other : ℕ) → IsIdle self.old other → IsIdle self.new other }
    {
        jobs_of_events();
        releases();
        self.course.make_room()?;
        self.given
            .visit(&mut self.course.network, worker, server, packet)?;
        self.course.journal.push(Event::Visit {
            server,
            packet,
            worker,
        })?;
        release_due(&mut self.course);
        Ok(())
    }

    /// Its events so far.
    pub fn journal(&self) -> &Journal
        ensures same { result.now.items ≡ self.now.journal }
        ensures run { ∥ IsRun (setting_in self.now) self.now.journal ∥₁ }
        ensures setting { ∥ IsSetting (setting_in self.now) ∥₁ }
    {
        &self.course.journal
    }

    /// What holds at every moment of a run holds of its state: the serial run of the visits that stand exists and
    /// released what was released, and each first live member of a group has that run's content.
    pub fn moment(&self)
        ensures { ∥ IsSound (setting_in self.now) (chain_state self.now) ∥₁ }
    {
        every_moment();
        let _ = self.journal();
    }

    /// How many messages are held and queued.
    pub fn messages(&self) -> u64
        ensures { ∥ AreUnderWay (chain_state self.now) result ∥₁ }
    {
        accepted();
        few_propagates();
        order_of_a_state();
        let _ = self.given.script.ring();
        let _ = self.given.packets.len();
        messages_in(&self.course.network)
    }

    /// Takes the oldest released packet out that wasn't taken out yet. None where all were. The run stays as it was.
    pub fn drain(&mut self) -> Option<Released>
        ensures some { IfSome result (λ released.
            self.new ≡ record self.old { drained = self.old.drained ++ released ∷ [] }) }
        ensures none { IsNone result → self.new ≡ self.old }
        ensures all { IsNone result → self.old.drained ≡ released_by self.old }
        ensures front { self.new.drained ≡ take (length self.new.drained) (released_by self.new) }
        ensures few { length self.new.drained ≤ length self.new.packets }
    {
        fates();
        order_of_a_state();
        runs();
        let _ = self.course.journal.len();
        self.course.outlet.take()
    }

    /// How many released packets were taken out. They are the first that were released.
    pub fn drained(&self) -> u64
        ensures count { result ≡ length self.now.drained }
        ensures front { self.now.drained ≡ take (length self.now.drained) (released_by self.now) }
        ensures few { length self.now.drained ≤ length self.now.packets }
    {
        fates();
        order_of_a_state();
        runs();
        self.course.outlet.drained()
    }
}
