//! A packet goes through the middlebox of a server.

ghost use Rattle.std.specs.Prelude.{ℕ, ◌≡◌, ◌<◌, ◌+◌, ◌&&◌, nat_lt, IfOk, OnOk, OnErr};
ghost use Rattle.ftc_journal.specs.declared.event.Event.TheVariants as event;
ghost use Rattle.ftc_serial.specs.Told.{outcome_of};
ghost use Rattle.ftc_serial.specs.Trace.{names};
ghost use Rattle.ftc_protocol.specs.Changes.{is_touching};
ghost use Rattle.ftc_machine.specs.Simulation.{SimulatesEvent, logs_in};
ghost use Rattle.ftc_machine.specs.Represents.{RepresentsSame};
ghost use Rattle.ftc_protocol.specs.Next.{logs_of, outcome_at};
ghost use Rattle.ftc_protocol.specs.Setting.{Setting, rule_at};
ghost use Rattle.ftc_machine.specs.Slots.{slot_at};
ghost use Rattle.ftc_protocol.specs.State.{ChainState};
ghost use Rattle.ftc_machine.specs.VisitEffect.{bytes_kept, outcome_kept, logs_behind, HasRoom};
ghost use Rattle.ftc_protocol.specs.Visits.{union, just};

use crate::effects::visited_message::{visit_fate, visit_message};
use crate::state::MachineState;
use crate::state::footprint::Footprint;
use ftc_base::limits::MOST_WRITES;
use ftc_base::{Answers, Bytes, NoMemory, PacketNo, ServerId};
use ftc_journal::{VisitName, VisitNames};
use ftc_mbox::Rule;
use ftc_serial::{Told, take};
use std::alloc::Global;

impl MachineState {
    /// Makes room for what a visit leaves.
    fn make_visit_room(&mut self, server: ServerId, packet: PacketNo) -> Result<(), NoMemory>
        requires { server < self.old.ring.servers }
        ensures room { OnOk result (HasRoom self.new server packet) }
        ensures ring { self.new.ring ≡ self.old.ring }
        ensures still { RepresentsSame self.old self.new }
    {
        let place = usize::from(server.number());
        self.visits[place].make_room(packet as usize)?;
        self.fates.make_room(packet as usize)?;
        self.stores[place].reserve(MOST_WRITES)?;
        Ok(())
    }

    /// The bytes of a message's packet, once more.
    fn bytes(&self, alloc: Global, packet: PacketNo) -> Result<Bytes, NoMemory>
        ensures { IfOk result (λ bytes. bytes ≡ bytes_kept (slot_at self.now.messages packet)) }
    {
        let Some(message) = self.messages.get(packet as usize) else {
            return Ok(Bytes::new(alloc));
        };
        match &message.packet {
            Some(bytes) => bytes.copy(),
            None => Ok(Bytes::new(alloc)),
        }
    }

    /// The logs of a message, once more.
    fn logs(&self, alloc: Global, packet: PacketNo) -> Result<VisitNames, NoMemory>
        ensures { IfOk result (λ logs. logs ≡ logs_in (slot_at self.now.messages packet)) }
    {
        match self.messages.get(packet as usize) {
            Some(message) => message.logs.copy(alloc),
            None => Ok(VisitNames::new(alloc)),
        }
    }

    /// What the rule does with the packet.
    fn told(
        &self,
        alloc: Global,
        server: ServerId,
        packet: PacketNo,
        rule: &Rule,
    ) -> Result<Told, NoMemory>
        requires { server < self.now.ring.servers }
        ensures { IfOk result (λ told. outcome_of told ≡ outcome_kept self.now rule.now server packet) }
    {
        let bytes = self.bytes(alloc, packet)?;
        let store = &self.stores[usize::from(server.number())];
        Ok(take(rule, bytes, store))
    }

    /// The logs of the message behind a visit. One that touches something joins them, where there are
    /// replicas.
    fn logs_behind(
        &self,
        alloc: Global,
        server: ServerId,
        packet: PacketNo,
        answers: &Answers,
    ) -> Result<VisitNames, NoMemory>
        ensures { IfOk result (λ logs. logs ≡ logs_behind self.now server packet answers.now.items) }
    {
        let mut logs = self.logs(alloc, packet)?;
        if !answers.is_empty() && self.ring.failures() > 0 {
            logs.push(VisitName { server, packet })?;
        }
        Ok(logs)
    }

    /// The visit counts, with what it did and with the logs that its message has then.
    fn add_visit(
        &mut self,
        server: ServerId,
        packet: PacketNo,
        told: Told,
        logs: VisitNames,
        now: u64,
    ) -> Result<(), NoMemory>
        requires within { server < self.old.ring.servers }
        requires room { HasRoom self.old server packet }
        requires time { now < u64.MAX }
        ensures ok { OnOk result ((setting : Setting) (state : ChainState) (worker : ℕ) → now ≡ state.events →
            outcome_of told ≡ outcome_at setting state server packet →
            ((group number : ℕ) → names logs group number
            ≡ union (logs_of (state.message packet))
            (just server packet (is_touching (outcome_of told) && nat_lt 0 setting.failures)) group number) →
            SimulatesEvent setting state (event.Visit server packet worker) self.old self.new) }
        ensures err { OnErr result (RepresentsSame self.old self.new) }
    {
        self.order.push(VisitName { server, packet })?;
        let Told {
            answers,
            writes,
            packet: bytes,
        } = told;
        let is_touched = !answers.is_empty();
        visit_fate(&mut self.fates, server, packet, &bytes);
        visit_message(&mut self.messages, server, packet, is_touched, bytes, logs);

        let place = usize::from(server.number());
        self.stores[place].apply(&writes);
        let mut vector = *self.lists[place].of(server);
        let footprint = Footprint::of(now + 1, self.partitions, &answers, writes, &vector);
        footprint.mark(&mut vector);
        self.lists[place].raise(server, &vector);
        self.visits[place].put(packet as usize, footprint);
        Ok(())
    }

    /// The packet goes through the server's middlebox, whose rule is given, on the server's own store.
    pub fn visit(
        &mut self,
        alloc: Global,
        server: ServerId,
        packet: PacketNo,
        rule: &Rule,
        now: u64,
    ) -> Result<(), NoMemory>
        requires within { server < self.old.ring.servers }
        requires time { now < u64.MAX }
        ensures ok { OnOk result ((setting : Setting) (state : ChainState) (worker : ℕ) → rule.now
            ≡ rule_at setting server → now ≡ state.events →
            SimulatesEvent setting state (event.Visit server packet worker) self.old self.new) }
        ensures err { OnErr result (RepresentsSame self.old self.new) }
    {
        self.make_visit_room(server, packet)?;
        let told = self.told(alloc, server, packet, rule)?;
        let logs = self.logs_behind(alloc, server, packet, &told.answers)?;
        self.add_visit(server, packet, told, logs, now)
    }
}
