//! Whether an event may happen that has to do with a message, by what is kept.

ghost use Rattle.std.specs.Prelude.{◌≡◌, ◌<◌};
ghost use Rattle.std.specs.List.{list_any, list_all};
ghost use Rattle.ftc_vector.specs.Commits.{vector_of};
ghost use Rattle.ftc_machine.specs.Slots.{has_such, slot_at};
ghost use Rattle.ftc_machine.specs.LegalityTests.{is_ready, is_older, may_take, may_add, is_in_turn, carries};
ghost use Rattle.ftc_machine.specs.LegalityTests.{may_apply, may_visit, may_leave, sends, may_pass, may_lose};
ghost use Rattle.ftc_machine.specs.LegalityTests.{may_carry, footprints_of, list_of};

use crate::state::MachineState;
use crate::state::message::Message;
use crate::trace::is_among;
use ftc_base::{PacketNo, ServerId};
use ftc_journal::VisitName;
use ftc_script::Script;
use ftc_vector::Vector;

/// Whether the message, if there is one, is queued on the link since an earlier event.
fn is_older(slot: &Option<Message>, link: ServerId, since: u64) -> bool
    ensures { result ≡ has_such (is_older link since) slot.now }
{
    match slot {
        Some(message) => message.place.is_queued(link) && message.since < since,
        None => false,
    }
}

/// Whether one of these messages is queued on the link since an earlier event.
fn is_any_older(slots: &[Option<Message>], link: ServerId, since: u64) -> bool
    ensures { result ≡ list_any (has_such (is_older link since)) slots.now }
{
    slots.iter().any(|slot| is_older(slot, link, since))
}

impl MachineState {
    /// Whether the server has all logs of the message.
    pub fn is_ready(&self, server: ServerId, message: &Message) -> bool
        requires { server < self.now.ring.servers }
        ensures { result ≡ is_ready self.now server message.now }
    {
        let list = &self.lists[usize::from(server.number())];
        self.has_all(list, message.logs.as_slice())
    }

    /// Whether a message is queued on the link since an earlier event.
    fn has_older(&self, link: ServerId, since: u64) -> bool
        ensures { result ≡ list_any (has_such (is_older link since)) self.now.messages }
    {
        is_any_older(self.messages.live(), link, since)
    }

    /// Whether the message is the oldest on the link.
    pub fn may_take(&self, link: ServerId, origin: PacketNo) -> bool
        ensures { result ≡ may_take self.now link origin }
    {
        match self.messages.get(origin as usize) {
            Some(message) => {
                message.place.is_queued(link) && !self.has_older(link, message.since)
            }
            None => false,
        }
    }

    /// Whether the visit changes something and may be added to a list that reaches so far.
    fn may_add(&self, vector: &Vector, name: &VisitName) -> bool
        ensures { result ≡ has_such (may_add vector.now) (footprints_of self.now name.now.server name.now.packet) }
    {
        match self.footprint(name) {
            Some(footprint) => {
                footprint.has_changed() && !footprint.contains(vector) && footprint.follows(vector)
            }
            None => false,
        }
    }

    /// Whether the log doesn't have to be had before that of a group and a packet, or is had.
    fn is_in_turn(&self, server: ServerId, log: &VisitName, name: &VisitName) -> bool
        requires { server < self.now.ring.servers }
        ensures { result ≡ is_in_turn self.now server log.now.server log.now.packet name.now }
    {
        let is_first = name.packet == log.packet && name.server.number() < log.server.number();
        !is_first || self.has(&self.lists[usize::from(server.number())], name)
    }

    /// Whether the logs that come before one of a group and a packet are had.
    fn are_in_turn(&self, server: ServerId, log: &VisitName, names: &[VisitName]) -> bool
        requires { server < self.now.ring.servers }
        ensures { result ≡ list_all (is_in_turn self.now server log.now.server log.now.packet) names.now }
    {
        names.iter().all(|name| self.is_in_turn(server, log, name))
    }

    /// Whether the server holds the message, and its logs that come before this one are had.
    fn carries(&self, server: ServerId, origin: PacketNo, log: &VisitName) -> bool
        requires { server < self.now.ring.servers }
        ensures { result ≡ carries self.now server origin log.now.server log.now.packet }
    {
        match self.messages.get(origin as usize) {
            Some(message) => {
                let logs = message.logs.as_slice();
                message.place.is_held(server)
                    && is_among(logs, log.server, log.packet)
                    && self.are_in_turn(server, log, logs)
            }
            None => false,
        }
    }

    /// Whether the server may apply the log from the message.
    pub fn may_apply(&self, server: ServerId, origin: PacketNo, log: &VisitName) -> bool
        requires { server < self.now.ring.servers }
        ensures { result ≡ may_apply self.now server origin log.now.server log.now.packet }
    {
        let list = &self.lists[usize::from(server.number())];
        self.carries(server, origin, log) && self.may_add(list.of(log.server), log)
    }

    /// Whether the packet may go through the server's middlebox.
    pub fn may_visit(&self, server: ServerId, packet: PacketNo) -> bool
        requires { server < self.now.ring.servers }
        ensures { result ≡ may_visit self.now server packet }
    {
        match self.messages.get(packet as usize) {
            Some(message) => {
                message.place.is_unvisited(server)
                    && message.packet.is_some()
                    && self.is_ready(server, message)
            }
            None => false,
        }
    }

    /// Whether the server may send the message on, or lose it.
    pub fn may_leave(&self, server: ServerId, origin: PacketNo) -> bool
        requires { server < self.now.ring.servers }
        ensures { result ≡ may_leave self.now server origin }
    {
        match self.messages.get(origin as usize) {
            Some(message) => {
                message.place.may_go(server, message.packet.is_none())
                    && self.is_ready(server, message)
            }
            None => false,
        }
    }

    /// Whether something is sent where a server passes a message on.
    pub fn sends(&self, server: ServerId) -> bool
        ensures { result ≡ sends self.now.ring server }
    {
        server.number() + 1 != self.ring.servers() || self.ring.failures() > 0
    }

    /// Whether the server may pass the message on.
    pub fn may_pass(&self, script: &Script, server: ServerId, origin: PacketNo) -> bool
        requires { server < self.now.ring.servers }
        ensures { result ≡ may_pass self.now script.now server origin }
    {
        let is_kept = script.loses(server, origin).is_none() || !self.sends(server);
        self.may_leave(server, origin) && is_kept
    }

    /// Whether the link may lose the message.
    pub fn may_lose(&self, script: &Script, server: ServerId, origin: PacketNo) -> bool
        requires { server < self.now.ring.servers }
        ensures { result ≡ may_lose self.now script.now server origin }
    {
        let is_lost = self.sends(server) && script.loses(server, origin).is_some();
        self.may_leave(server, origin) && is_lost
    }

    /// Whether the forwarder may take the message.
    pub fn may_carry(&self, origin: PacketNo) -> bool
        ensures { result ≡ may_carry self.now origin }
    {
        let first = ServerId::new(0).unwrap();
        match self.messages.get(origin as usize) {
            Some(message) => message.place.came_by_ring() && self.is_ready(first, message),
            None => false,
        }
    }
}
