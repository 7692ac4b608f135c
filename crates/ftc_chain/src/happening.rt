//! Jobs are done at a network.

ghost use Rattle.std.specs.Prelude.{◌≡◌, ◌≤◌, ◌+◌, true, false, IfOk, OnOk, OnErr};
ghost use Rattle.ftc_base.specs.declared.limits.TheConstants.{FINISHING_SLOT};
ghost use Rattle.ftc_journal.specs.declared.event.Event.TheVariants as event;
ghost use Rattle.ftc_journal.specs.declared.job.Job.TheVariants as job;
ghost use Rattle.ftc_network.specs.Events.{StandsStill};
ghost use Rattle.ftc_network.specs.Parts.{withheld_in};
ghost use Rattle.ftc_network.specs.Slots.{head_at, AreSameHeads, AreOtherHeads, IsIdleHead, RunNoMore};
ghost use Rattle.ftc_chain.specs.Doing.{setting_by, is_visit, is_plain, MayDo, HasDone, IsDone, HeadsDone};

use crate::events::plain_event;
use crate::given::Given;
use ftc_base::{NoMemory, PacketNo, ServerId, WorkerId};
use ftc_journal::{Event, Job, VisitNames};
use ftc_message::Seen;
use ftc_network::Network;
use ftc_protocol::{accepted, jobs_of_events};

impl<'a> Given<'a> {
    /// A packet of the capture comes to server 0.
    fn enter(&self, network: &mut Network, packet: PacketNo) -> Result<(), NoMemory>
        requires { ∥ MayDo (setting_by self.now) (job.Enter packet) network.old ∥₁ }
        ensures ok { OnOk result
            (IsDone (setting_by self.now) FINISHING_SLOT (job.Enter packet) network.old network.new) }
        ensures err { OnErr result (StandsStill network.old network.new) }
        ensures withheld { OnOk result (withheld_in network.new ≡ withheld_in network.old) }
        ensures heads { AreSameHeads network.old network.new }
    {
        let _ = self.packets.len();
        let bytes = self.packets.at(packet as usize).bytes.copy()?;
        network.enter(self.alloc, packet, bytes)
    }

    /// A server sends a message on a link that loses it.
    fn lose(
        &self,
        network: &mut Network,
        server: ServerId,
        origin: PacketNo,
    ) -> Result<(), NoMemory>
        requires { ∥ MayDo (setting_by self.now) (job.Lose server origin) network.old ∥₁ }
        ensures ok { OnOk result
            (IsDone (setting_by self.now) FINISHING_SLOT (job.Lose server origin) network.old network.new) }
        ensures err { OnErr result (StandsStill network.old network.new) }
        ensures withheld { OnOk result (withheld_in network.new ≤ withheld_in network.old + 1) }
        ensures heads { AreSameHeads network.old network.new }
    {
        let line = self.script.loses(server, origin);
        network.leave(self.alloc, server, origin, line)
    }

    /// A server stops.
    fn crash(&self, network: &mut Network, server: ServerId)
        requires { ∥ MayDo (setting_by self.now) (job.Crash server) network.old ∥₁ }
        ensures done { IsDone (setting_by self.now) FINISHING_SLOT (job.Crash server) network.old network.new }
        ensures withheld { withheld_in network.new ≤ withheld_in network.old }
        ensures heads { HeadsDone (job.Crash server) network.old network.new }
    {
        let _ = self.script.steps();
        network.crash(server);
    }

    /// A server begins anew. The answer is the visits that this undoes.
    fn recover(&self, network: &mut Network, server: ServerId) -> Result<VisitNames, NoMemory>
        requires { ∥ MayDo (setting_by self.now) (job.Recover server) network.old ∥₁ }
        ensures ok { IfOk result (λ undone.
            HasDone (setting_by self.now) FINISHING_SLOT (job.Recover server)
            (event.Recover server undone) network.old network.new) }
        ensures err { OnErr result (StandsStill network.old network.new) }
        ensures withheld { OnOk result (withheld_in network.new ≤ withheld_in network.old) }
        ensures heads { OnOk result (HeadsDone (job.Recover server) network.old network.new) }
        ensures same { OnErr result (AreSameHeads network.old network.new) }
    {
        jobs_of_events();
        let _ = self.script.steps();
        let rule = self.spec.rules().at(usize::from(server.number()));
        network.recover(self.alloc, server, rule)
    }

    /// A message begins without a packet.
    fn propagate(&self, network: &mut Network, origin: PacketNo) -> Result<(), NoMemory>
        requires { ∥ MayDo (setting_by self.now) (job.Propagate origin) network.old ∥₁ }
        ensures ok { OnOk result
            (IsDone (setting_by self.now) FINISHING_SLOT (job.Propagate origin) network.old network.new) }
        ensures err { OnErr result (StandsStill network.old network.new) }
        ensures withheld { OnOk result (withheld_in network.new ≡ withheld_in network.old) }
        ensures heads { AreSameHeads network.old network.new }
    {
        accepted();
        jobs_of_events();
        let _ = self.packets.len();
        let _ = self.script.ring();
        network.propagate(self.alloc, origin)
    }

    /// A job whose event is the job with nothing added is done. What was seen of a link's frames is for a take there.
    fn happen_plainly(
        &self,
        network: &mut Network,
        job: &Job,
        seen: Option<Seen>,
    ) -> Result<(), NoMemory>
        requires plain { is_plain job.now ≡ true }
        requires may { ∥ MayDo (setting_by self.now) job.now network.old ∥₁ }
        ensures ok { OnOk result (IsDone (setting_by self.now) FINISHING_SLOT job.now network.old network.new) }
        ensures err { OnErr result (StandsStill network.old network.new) }
        ensures withheld { OnOk result (withheld_in network.new ≤ withheld_in network.old + 1) }
        ensures heads { OnOk result (HeadsDone job.now network.old network.new) }
        ensures same { OnErr result (AreSameHeads network.old network.new) }
    {
        match *job {
            Job::Enter { packet } => self.enter(network, packet),
            Job::Take { link, origin } => network.take(self.alloc, link, origin, seen),
            Job::Apply {
                server,
                origin,
                group,
                packet,
            } => network.apply(server, origin, group, packet),
            Job::Pass { server, origin } => network.leave(self.alloc, server, origin, None),
            Job::Lose { server, origin } => self.lose(network, server, origin),
            Job::Carry { origin } => network.carry(origin),
            Job::Crash { server } => {
                self.crash(network, server);
                Ok(())
            }
            Job::Pull { link } => network.pull(self.alloc, link),
            Job::Propagate { origin } => self.propagate(network, origin),
            Job::Visit { .. } | Job::Recover { .. } => unreachable!(),
        }
    }

    /// A job other than a visit is done. The answer is its event. What was seen of a link's frames is for a take there.
    pub fn happen(
        &self,
        network: &mut Network,
        job: &Job,
        seen: Option<Seen>,
    ) -> Result<Event, NoMemory>
        requires other { is_visit job.now ≡ false }
        requires may { ∥ MayDo (setting_by self.now) job.now network.old ∥₁ }
        ensures ok { IfOk result
            (λ event. HasDone (setting_by self.now) FINISHING_SLOT job.now event network.old network.new) }
        ensures err { OnErr result (StandsStill network.old network.new) }
        ensures withheld { OnOk result (withheld_in network.new ≤ withheld_in network.old + 1) }
        ensures heads { OnOk result (HeadsDone job.now network.old network.new) }
        ensures same { OnErr result (AreSameHeads network.old network.new) }
    {
        if let Job::Recover { server } = *job {
            let undone = self.recover(network, server)?;
            return Ok(Event::Recover { server, undone });
        }
        let Some(event) = plain_event(job) else {
            unreachable!()
        };
        self.happen_plainly(network, job, seen)?;
        Ok(event)
    }

    /// The middlebox of a server takes a packet, in a worker's slot. The rule is asked for what it does.
    pub fn visit(
        &self,
        network: &mut Network,
        worker: WorkerId,
        server: ServerId,
        packet: PacketNo,
    ) -> Result<(), NoMemory>
        requires { ∥ MayDo (setting_by self.now) (job.Visit server packet) network.old ∥₁ }
        ensures ok { OnOk result
            (IsDone (setting_by self.now) worker (job.Visit server packet) network.old network.new) }
        ensures err { OnErr result (StandsStill network.old network.new) }
        ensures withheld { OnOk result (withheld_in network.new ≡ withheld_in network.old) }
        ensures here { OnOk result (IsIdleHead (head_at network.new server)) }
        ensures others { AreOtherHeads server network.old network.new }
        ensures fewer { RunNoMore (head_at network.old server) (head_at network.new server) }
    {
        jobs_of_events();
        network.visit(worker, server, packet)
    }
}
