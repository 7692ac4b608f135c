//! A server takes a message.

ghost use Rattle.std.specs.Prelude.{◌≡◌, ◌≤◌, true, false, OnOk, length};
ghost use Rattle.ftc_server.specs.Holding.{is_held};
ghost use Rattle.ftc_server.specs.Slots.{is_open};
ghost use Rattle.ftc_server.specs.Holding.{arrived};
ghost use Rattle.ftc_server.specs.Steps.{HasTaken, HasRoomed, HasRoomFor};

use crate::held::HeldMessage;
use crate::server::Server;
use crate::waiting::{settle, watch};
use ftc_base::NoMemory;
use ftc_message::Message;

impl Server {
    /// Makes room for one message with at most so many logs.
    pub fn make_room(&mut self, logs: usize) -> Result<(), NoMemory>
        ensures ok { OnOk result (HasRoomFor self.new logs) }
        ensures same { HasRoomed self.old self.new }
    {
        self.waits.reserve(logs)?;
        self.held.reserve(1)?;
        Ok(())
    }

    /// Holds a message, and knows what its sender knew. There is room for it, no message of its origin is
    /// held, and it has no log and no need of the server's own group.
    pub fn take(&mut self, message: Message, by_ring: bool)
        requires room { HasRoomFor self.old (length message.logs) }
        requires new { is_held message.origin self.old.held.items ≡ false }
        requires open { is_open self.old.id (arrived message by_ring) ≡ true }
        ensures { HasTaken self.old self.new message by_ring }
    {
        self.known.merge(&message.commits);
        // The contract of this call tells that the logs rise.
        let _ = message.logs.len();
        watch(
            &mut self.waits,
            self.others.as_slice(),
            message.origin,
            message.logs.as_slice(),
        );
        let origin = message.origin;
        self.held.hold(HeldMessage {
            visited: false,
            by_ring,
            message,
        });
        settle(&mut self.held, self.others.as_slice(), origin);
    }
}
