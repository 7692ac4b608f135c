//! The hop of a message that leaves a server.

ghost use Rattle.std.specs.Prelude.{◌≡◌, ◌<◌, ◌+◌, ◌==◌, ◌&&◌, ◌||◌, not, is_some};
ghost use Rattle.ftc_ring.specs.Live.{is_live};
ghost use Rattle.ftc_ring.specs.Ring.{next_of};
ghost use Rattle.ftc_machine.specs.LegalityTests.{sends};

use crate::state::MachineState;
use crate::state::message::Message;
use ftc_base::ServerId;

/// The hop of a message that leaves a server.
#[derive(Clone, Copy)]
pub struct Hop {
    /// Whether the server is the last of the chain.
    pub last: bool,
    /// Whether the message is queued on the link.
    pub queued: bool,
    /// Whether the message goes away, and leaves a gap on the link.
    pub gap: bool,
}

impl Hop {
    /// Whether the packet goes away with the message.
    pub fn loses_packet(self, message: &Message) -> bool
        ensures { result ≡ (self.gap && not self.last && is_some message.now.packet) }
    {
        self.gap && !self.last && message.packet.is_some()
    }
}

impl MachineState {
    /// The hop from a server, by a link that loses the message or not. A message goes away with the link
    /// that loses it, and where the next server is down.
    pub fn hop(&self, server: ServerId, lost: bool) -> Hop
        requires { server < self.now.ring.servers }
        ensures last { result.last ≡ (server + 1 == self.now.ring.servers) }
        ensures queued { result.queued ≡ (sends self.now.ring server
            && not (lost || not (is_live self.now.down (next_of self.now.ring.servers server)))) }
        ensures gap { result.gap ≡ (sends self.now.ring server
            && (lost || not (is_live self.now.down (next_of self.now.ring.servers server)))) }
    {
        let last = server.number() + 1 == self.ring.servers();
        let sent = !last || self.ring.failures() > 0;
        let away = lost || self.down.has(self.ring.next(server).number());
        Hop {
            last,
            queued: sent && !away,
            gap: sent && away,
        }
    }
}
