//! A message in a queue.

ghost use Rattle.std.specs.Prelude.{◌≡◌, IfOk};
ghost use Rattle.ftc_message.specs.WellFormed.{IsWellFormed};
ghost use Rattle.ftc_link.specs.Queue.{message_in, IsSoundMessage, IsQueued};

use ftc_base::{Bytes, NoMemory, PacketNo, Refuse};
use ftc_message::{Message, decode, encode};
use std::alloc::Global;

/// A frame, and its message's origin and count of logs.
#[derive(Debug, Drop)]
pub struct Queued {
    pub frame: Bytes,
    pub origin: PacketNo,
    pub logs: usize,
}

impl Queued {
    /// The message's frame.
    pub fn make(alloc: Global, message: &Message) -> Result<Queued, NoMemory>
        requires { IsWellFormed message.now }
        ensures message { IfOk result (λ queued. message_in queued ≡ message.now) }
        ensures queued { IfOk result IsQueued }
    {
        Ok(Queued {
            frame: encode(alloc, message)?,
            origin: message.origin,
            logs: message.logs.len(),
        })
    }

    /// The message.
    pub fn read(&self, alloc: Global) -> Result<Message, NoMemory>
        requires { IsQueued self.now }
        ensures message { IfOk result (λ message. message ≡ message_in self.now) }
        ensures sound { IfOk result IsSoundMessage }
    {
        match decode(alloc, self.frame.as_slice()) {
            Ok(message) => Ok(message),
            Err(Refuse::NoMemory) => Err(NoMemory),
            Err(Refuse::Bad(_)) => unreachable!(),
        }
    }
}
