//! Whether an event may happen that has to do with the script, the links or the buffer, by what is kept.

ghost use Rattle.std.specs.Prelude.{◌≡◌, ◌==◌, ◌+◌, true, not};
ghost use Rattle.std.specs.List.{list_any, list_all};
ghost use Rattle.ftc_base.specs.Sets.{has};
ghost use Rattle.ftc_ring.specs.Live.{is_live};
ghost use Rattle.ftc_script.specs.Steps.{at_of};
ghost use Rattle.ftc_script.specs.declared.line.ScriptLine.{ScriptLine as ALine};
ghost use Rattle.ftc_machine.specs.declared.state.message.Message.{Message as AMessage};
ghost use Rattle.ftc_machine.specs.declared.state.message.Withheld.{Withheld as AWithheld};
ghost use Rattle.ftc_protocol.specs.Changes.{is_some_list};
ghost use Rattle.ftc_machine.specs.Slots.{has_such, slot_at};
ghost use Rattle.ftc_machine.specs.LegalityTests.{lines_left, first_of, may_enter, is_crash, is_recovery, may_crash};
ghost use Rattle.ftc_machine.specs.LegalityTests.{may_recover, may_pull, all_below, is_begun, is_stalled};
ghost use Rattle.ftc_machine.specs.LegalityTests.{may_propagate};

use crate::state::MachineState;
use crate::state::message::{Message, Withheld};
use ftc_base::{PacketNo, ServerId};
use ftc_script::{Script, ScriptLine};

/// Whether the message, if there is one, is held by server 0, where it began.
fn is_begun(slot: &Option<Message>) -> bool
    ensures { result ≡ has_such (λ (message : AMessage). is_begun message.place) slot.now }
{
    match slot {
        Some(message) => message.place.is_begun(),
        None => false,
    }
}

/// Whether server 0 holds one of these messages, where it began.
fn is_any_begun(slots: &[Option<Message>]) -> bool
    ensures { result ≡ list_any (has_such (λ (message : AMessage). is_begun message.place)) slots.now }
{
    slots.iter().any(|slot| is_begun(slot))
}

/// Whether one of these places has a message.
fn is_any_message(slots: &[Option<Message>]) -> bool
    ensures { result ≡ list_any (has_such (λ (message : AMessage). true)) slots.now }
{
    slots.iter().any(|slot| slot.is_some())
}

/// Whether one of these places has a withheld packet.
fn is_any_withheld(slots: &[Option<Withheld>]) -> bool
    ensures { result ≡ list_any (has_such (λ (withheld : AWithheld). true)) slots.now }
{
    slots.iter().any(|slot| slot.is_some())
}

/// Whether the line is the crash of that server when so many packets have entered.
fn is_crash(line: &ScriptLine, entered: PacketNo, server: ServerId) -> bool
    ensures { result ≡ is_crash entered server line.now }
{
    match line {
        ScriptLine::Crash { at, server: other } => {
            *at == entered && other.number() == server.number()
        }
        ScriptLine::Recover { .. } => false,
    }
}

/// Whether the line is the recovery of that server when so many packets have entered.
fn is_recovery(line: &ScriptLine, entered: PacketNo, server: ServerId) -> bool
    ensures { result ≡ is_recovery entered server line.now }
{
    match line {
        ScriptLine::Crash { .. } => false,
        ScriptLine::Recover { at, server: other } => {
            *at == entered && other.number() == server.number()
        }
    }
}

impl MachineState {
    /// Whether server 0 holds a message that began there.
    fn has_begun(&self) -> bool
        ensures { result ≡ list_any (has_such (λ (message : AMessage). is_begun message.place)) self.now.messages }
    {
        is_any_begun(self.messages.live())
    }

    /// Whether there is a message.
    pub fn has_message(&self) -> bool
        ensures { result ≡ list_any (has_such (λ (message : AMessage). true)) self.now.messages }
    {
        is_any_message(self.messages.live())
    }

    /// Whether the buffer withholds a packet.
    pub fn has_withheld(&self) -> bool
        ensures { result ≡ list_any (has_such (λ (withheld : AWithheld). true)) self.now.buffer }
    {
        is_any_withheld(self.buffer.live())
    }

    /// Whether a line of the script is still to be done when so many packets have entered.
    fn has_line_at(&self, script: &Script, entered: PacketNo) -> bool
        ensures { result ≡ list_any (λ (line : ALine). at_of line == entered) (lines_left self.now script.now) }
    {
        for place in self.done..script.steps() {
            if script.step(place).at() == entered {
                return true;
            }
        }
        false
    }

    /// Whether the packet may enter, of so many.
    pub fn may_enter(&self, script: &Script, count: u32, packet: PacketNo) -> bool
        ensures { result ≡ may_enter self.now script.now count packet }
    {
        packet == self.entered && packet < count && !self.has_line_at(script, packet)
    }

    /// The next line of the script that is to be done.
    fn next_line(&self, script: &Script) -> Option<ScriptLine>
        ensures { result ≡ first_of (lines_left self.now script.now) }
    {
        if self.done < script.steps() {
            Some(script.step(self.done))
        } else {
            None
        }
    }

    /// Whether the next line of the script is that crash, and is to be done now.
    pub fn may_crash(&self, script: &Script, server: ServerId) -> bool
        ensures { result ≡ may_crash self.now script.now server }
    {
        match self.next_line(script) {
            Some(line) => is_crash(&line, self.entered, server),
            None => false,
        }
    }

    /// Whether the next line of the script is that recovery, and is to be done now.
    pub fn may_recover(&self, script: &Script, server: ServerId) -> bool
        ensures { result ≡ may_recover self.now script.now server }
    {
        match self.next_line(script) {
            Some(line) => is_recovery(&line, self.entered, server),
            None => false,
        }
    }

    /// Whether a server is live.
    pub fn is_live(&self, server: ServerId) -> bool
        ensures { result ≡ is_live self.now.down server }
    {
        !self.down.has(server.number())
    }

    /// Whether the receiver of the link may pull.
    pub fn may_pull(&self, link: ServerId) -> bool
        ensures { result ≡ may_pull self.now link }
    {
        link.number() < self.ring.servers()
            && self.is_live(link)
            && self.is_live(self.ring.next(link))
            && self.gaps.has(link.number())
    }

    /// Whether all servers are live.
    fn are_all_live(&self) -> bool
        ensures { result ≡ all_below self.now.ring.servers (is_live self.now.down) }
    {
        (0..self.ring.servers()).all(|server| !self.down.has(server))
    }

    /// Whether no link has a gap.
    pub fn is_whole(&self) -> bool
        ensures { result ≡ all_below self.now.ring.servers (λ link. not (has self.now.gaps link)) }
    {
        (0..self.ring.servers()).all(|link| !self.gaps.has(link))
    }

    /// Whether nothing is under way, and the buffer withholds a packet.
    fn is_stalled(&self) -> bool
        ensures { result ≡ is_stalled self.now }
    {
        !self.has_message() && self.is_whole() && self.has_withheld()
    }

    /// Whether the next message without a packet has that origin, behind so many packets.
    fn is_next_origin(&self, count: u32, origin: PacketNo) -> bool
        ensures { result ≡ (origin == count + self.now.propagates) }
    {
        origin >= count && u64::from(origin - count) == self.propagates
    }

    /// Whether a message without a packet may begin, behind so many packets.
    pub fn may_propagate(&self, count: u32, origin: PacketNo) -> bool
        ensures { result ≡ may_propagate self.now count origin }
    {
        self.entered == count
            && self.are_all_live()
            && !self.has_begun()
            && (!self.forwarder.is_empty() || self.is_stalled())
            && self.is_next_origin(count, origin)
    }
}
