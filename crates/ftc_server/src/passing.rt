//! A message leaves a server.

ghost use Rattle.std.specs.Prelude.{◌≡◌, ◌≤◌, ◌++◌, ◌⊎◌, true, Some, None, IfOk, OnOk, OnErr, option_map};
ghost use Rattle.ftc_edge.specs.Due.{first_due, freed};
ghost use Rattle.ftc_server.specs.declared.work.Work.TheVariants.{Send, Carry};
ghost use Rattle.ftc_server.specs.Holding.{found, without};
ghost use Rattle.ftc_server.specs.Standing.{is_last};
ghost use Rattle.ftc_server.specs.State.{fields_of};
ghost use Rattle.ftc_server.specs.Looks.{work_in, sent, sent_in, attached_in, onward_in, are_apart, are_apart_from};
ghost use Rattle.ftc_server.specs.Looks.{onward_apart};
ghost use Rattle.ftc_server.specs.Steps.{withheld_by, HasBufferRoom, HasPassed, HasCarried, HasReleased};

use crate::held::HeldMessage;
use crate::server::Server;
use crate::standing::{is_last, onward};
use ftc_base::{Bytes, NoMemory, PacketNo};
use ftc_edge::{Buffer, Freed};
use ftc_message::{Message, Needs};
use std::alloc::Global;

/// The same packet once more.
fn copy_packet(packet: &Option<Bytes>) -> Result<Option<Bytes>, NoMemory>
    ensures { IfOk result (λ copy. copy ≡ packet.now) }
{
    match packet {
        Some(bytes) => Ok(Some(bytes.copy()?)),
        None => Ok(None),
    }
}

/// The packet of a message is withheld, where it has one. There is room for it.
fn withhold(buffer: &mut Buffer, message: Message)
    requires { 1 ≤ buffer.old.spare }
    ensures { buffer.new.items ≡ buffer.old.items ++ withheld_by message }
{
    let Message {
        origin,
        packet,
        needs,
        ..
    } = message;
    if let Some(bytes) = packet {
        buffer.withhold(origin, bytes, needs);
    }
}

impl Server {
    /// What goes on of a held message.
    fn sent(&self, held: &HeldMessage) -> Result<Message, NoMemory>
        requires { are_apart (attached_in self.now) (onward_in self.now held.now) ≡ true }
        ensures { IfOk result (λ message. message ≡ sent self.now held.now) }
    {
        let is_last = is_last(&self.ring, self.id);
        let message = &held.message;
        let mut sent = Message {
            origin: message.origin,
            packet: if is_last {
                None
            } else {
                copy_packet(&message.packet)?
            },
            logs: onward(self.alloc, &self.ring, self.id, &message.logs)?,
            needs: if is_last {
                Needs::new(self.alloc)
            } else {
                message.needs.copy(self.alloc)?
            },
            commits: self.known.copy(self.alloc)?,
        };
        if self.id.number() == 0 {
            self.forwarder.attach(&mut sent)?;
        }
        Ok(sent)
    }

    /// What is sent on of the held message of that origin, and room in the buffer for its packet where this is
    /// the last server. None where nothing is sent.
    pub fn outgoing(&mut self, origin: PacketNo) -> Result<Option<Message>, NoMemory>
        requires { are_apart_from self.old (attached_in self.old) (found origin self.old.held.items) ≡ true }
        ensures sent { IfOk result (λ message. message ≡ sent_in self.old origin) }
        ensures room { OnOk result (is_last self.old.ring self.old.id ≡ true → 1 ≤ self.new.buffer.spare) }
        ensures same { HasBufferRoom self.old self.new }
    {
        if is_last(&self.ring, self.id) {
            self.buffer.reserve(1)?;
            if self.ring.failures() == 0 {
                return Ok(None);
            }
        }
        match self.held.get(origin) {
            Some(held) => Ok(Some(self.sent(held)?)),
            None => Ok(None),
        }
    }

    /// A held message that is sent on or ends is held no more.
    fn let_go(&mut self, origin: PacketNo) -> Option<HeldMessage>
        requires { (work_in self.old origin ≡ Some Send) ⊎ (work_in self.old origin ≡ Some Carry) }
        ensures gone { result ≡ found origin self.old.held.items }
        ensures others { self.new.held.items ≡ without origin self.old.held.items }
        ensures rest { fields_of self.new ≡ record (fields_of self.old) { held = self.new.held } }
    {
        // The contract of this call tells that no two held messages have one origin.
        let _ = self.held.len();
        self.held.take_out(origin)
    }

    /// A held message leaves, whose work this is. At the last server its packet is withheld, for which there is
    /// room.
    pub fn pass(&mut self, origin: PacketNo)
        requires work { work_in self.old origin ≡ Some Send }
        requires room { is_last self.old.ring self.old.id ≡ true → 1 ≤ self.old.buffer.spare }
        ensures { HasPassed self.old self.new origin }
    {
        let Some(HeldMessage { message, .. }) = self.let_go(origin) else {
            return;
        };
        if self.id.number() == 0 {
            self.forwarder.clear();
        }
        if is_last(&self.ring, self.id) {
            withhold(&mut self.buffer, message);
        }
    }

    /// A held message that came by the ring ends, and its logs that go on are with the forwarder.
    pub fn carry(&mut self, origin: PacketNo) -> Result<(), NoMemory>
        requires work { work_in self.old origin ≡ Some Carry }
        requires apart { onward_apart self.old self.old.forwarder (found origin self.old.held.items) ≡ true }
        ensures ok { OnOk result (HasCarried self.old self.new origin) }
        ensures err { OnErr result (fields_of self.new ≡ fields_of self.old) }
    {
        let Some(held) = self.held.get(origin) else {
            return Ok(());
        };
        let logs = onward(self.alloc, &self.ring, self.id, &held.message.logs)?;
        self.forwarder.carry(&logs)?;
        self.let_go(origin);
        Ok(())
    }

    /// The first withheld packet that is due leaves.
    pub fn release(&mut self) -> Option<Freed>
        ensures freed { result ≡ option_map freed (first_due self.old.known self.old.buffer.items) }
        ensures others { HasReleased self.old self.new }
    {
        self.buffer.release(&self.known)
    }

    /// The packet that is due.
    pub fn due(&self) -> Option<PacketNo>
        ensures { result ≡ option_map (λ withheld. withheld.packet) (first_due self.now.known self.now.buffer.items) }
    {
        self.buffer.due(&self.known)
    }
}
