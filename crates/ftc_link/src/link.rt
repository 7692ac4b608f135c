//! The link from one server to the next on the ring.

ghost use Rattle.std.specs.Prelude.{◌≡◌, [], ℕ, false, length, Some, Ok, IsOk, IfOk, OnErr};
ghost use Rattle.std.specs.Option.{option_map};
ghost use Rattle.ftc_message.specs.Spelling.{spelling};
ghost use Rattle.ftc_message.specs.Reading.{message_of};
ghost use Rattle.ftc_message.specs.WellFormed.{IsWellFormed};
ghost use Rattle.ftc_link.specs.declared.link.Sent.TheVariants as sent;
ghost use Rattle.ftc_link.specs.Queue.{IsSoundMessage, oldest_of};
ghost use Rattle.ftc_link.specs.Taking.{TakesIfAny};
ghost use Rattle.ftc_link.specs.Sending.{answer_of, after_answer};

use crate::queued::Queued;
use ftc_base::{NoMemory, PacketNo, ServerId};
use ftc_message::{Message, Seen};
use std::alloc::Global;
use std::collections::VecDeque;
use std::marker::Model;

/// What became of a message that was to be sent.
#[derive(Clone, Copy, Debug, PartialEq, Eq)]
pub enum Sent {
    /// It is queued.
    Sent,
    /// It is lost by that line of the script.
    Lost { line: u32 },
    /// It is lost since the receiver is down.
    Down,
}

/// The messages on their way from a server to the next one, each as its frame. A contract sees the
/// sender, the messages, the oldest first, and whether there is a gap: whether a message may have been
/// lost since the receiver last pulled.
#[derive(Drop)]
pub struct Link {
    from: ServerId,
    queue: VecDeque<Queued>,
    gap: bool,
}

impl Model for Link {
    ghost use Rattle.std.specs.Prelude.{map};
    ghost use Rattle.std.specs.List.{AllByRecursion};
    ghost use Rattle.ftc_link.specs.Queue.{Queue, IsQueued, message_in};

    ghost Value = { Queue };

    ghost view = { λ link. record { from = link.from; messages = map message_in link.queue.items; gap = link.gap } };

    ghost invariant = { λ link. AllByRecursion IsQueued link.queue.items };
}

impl Link {
    /// The link from a server. Nothing is queued, and there is no gap.
    pub fn new(alloc: Global, from: ServerId) -> Link
        ensures { result ≡ record { from = from; messages = []; gap = false } }
    {
        Link {
            from,
            queue: VecDeque::new(alloc),
            gap: false,
        }
    }

    /// The server that sends.
    pub fn from(&self) -> ServerId
        ensures { result ≡ self.now.from }
    {
        self.from
    }

    /// Sends a message. `lost` is the line of the script that loses it, and `up` says whether the
    /// receiver is up.
    pub fn send(
        &mut self,
        alloc: Global,
        message: &Message,
        lost: Option<u32>,
        up: bool,
    ) -> Result<Sent, NoMemory>
        requires { IsWellFormed message.now }
        ensures answer { IfOk result (λ sent. sent ≡ answer_of lost up) }
        ensures after { IfOk result (λ sent. self.new ≡ after_answer sent message.now self.old) }
        ensures sound { result ≡ Ok sent.Sent → IsSoundMessage message.now }
        ensures refused { OnErr result (self.new ≡ self.old) }
        // Memory is wanted only to queue the message.
        ensures lost { (line : ℕ) → lost ≡ Some line → IsOk result }
        ensures down { up ≡ false → IsOk result }
    {
        if let Some(line) = lost {
            self.gap = true;
            return Ok(Sent::Lost { line });
        }
        if !up {
            self.gap = true;
            return Ok(Sent::Down);
        }
        let queued = Queued::make(alloc, message)?;
        self.queue.push_back(queued)?;
        Ok(Sent::Sent)
    }

    /// How many messages are queued.
    pub fn len(&self) -> usize
        ensures { result ≡ length self.now.messages }
    {
        self.queue.len()
    }

    /// The origin of the oldest message.
    pub fn oldest(&self) -> Option<PacketNo>
        ensures { result ≡ option_map (λ message. message.origin) (oldest_of self.now.messages) }
    {
        Some(self.queue.front()?.origin)
    }

    /// How many logs the oldest message has.
    pub fn logs(&self) -> Option<usize>
        ensures { result ≡ option_map (λ message. length message.logs) (oldest_of self.now.messages) }
    {
        Some(self.queue.front()?.logs)
    }

    /// Takes the oldest message out. None exactly where nothing is queued.
    pub fn take(&mut self, alloc: Global) -> Result<Option<Message>, NoMemory>
        ensures taken { IfOk result (TakesIfAny self.old self.new) }
        ensures refused { OnErr result (self.new ≡ self.old) }
        ensures empty { self.old.messages ≡ [] → IsOk result }
    {
        let Some(oldest) = self.queue.front() else {
            return Ok(None);
        };
        let message = oldest.read(alloc)?;
        self.queue.pop_front();
        Ok(Some(message))
    }

    /// The oldest frame, which spells the oldest message. None exactly where nothing is queued.
    pub fn frame(&self) -> Option<&[u8]>
        ensures read { option_map (λ frame. message_of frame.now) result ≡ option_map Ok (oldest_of self.now.messages) }
        ensures spelled { option_map (λ frame. frame.now) result ≡ option_map spelling (oldest_of self.now.messages) }
    {
        Some(self.queue.front()?.frame.as_slice())
    }

    /// Takes the oldest message out, as [`Link::take`] does. Where what was seen is of the oldest frame, its message is
    /// used and no memory is taken, and elsewhere what was seen is passed over.
    pub fn take_seen(&mut self, alloc: Global, seen: Seen) -> Result<Option<Message>, NoMemory>
        ensures taken { IfOk result (TakesIfAny self.old self.new) }
        ensures refused { OnErr result (self.new ≡ self.old) }
        ensures empty { self.old.messages ≡ [] → IsOk result }
        ensures known { oldest_of self.old.messages ≡ Some seen.message → IsOk result }
    {
        let is_oldest = match self.frame() {
            Some(frame) => seen.is_of(frame),
            None => false,
        };
        if !is_oldest {
            return self.take(alloc);
        }
        self.queue.pop_front();
        let Seen { frame: _, message } = seen;
        Ok(Some(message))
    }

    /// Drops all that is queued.
    pub fn clear(&mut self)
        ensures { self.new ≡ record self.old { messages = [] } }
    {
        self.queue.clear();
    }

    /// Whether a message may have been lost.
    pub fn gap(&self) -> bool
        ensures { result ≡ self.now.gap }
    {
        self.gap
    }

    /// Sets whether a message may have been lost.
    pub fn set_gap(&mut self, gap: bool)
        ensures { self.new ≡ record self.old { gap = gap } }
    {
        self.gap = gap;
    }
}
