//! The forwarder in front of the first server.

ghost use Rattle.std.specs.Prelude.{◌≡◌, [], length, IfOk, OnOk, OnErr};
ghost use Rattle.ftc_message.specs.Bounds.{AreLogs};
ghost use Rattle.ftc_message.specs.WellFormed.{IsWellFormed};
ghost use Rattle.ftc_message.specs.Ordered.{with_items, is_earlier, AreApart};
ghost use Rattle.ftc_edge.specs.Carried.{attached, begun};

use ftc_base::{NoMemory, PacketNo};
use ftc_message::{Logs, Message, Needs};
use ftc_vector::Commits;
use std::alloc::Global;
use std::marker::Model;

/// Logs that came round the ring and that members of their groups in front still have to get. A
/// contract sees the list of them, by origin and then by group.
#[derive(Debug, Drop)]
pub struct Forwarder {
    alloc: Global,
    carried: Logs,
}

impl Model for Forwarder {
    ghost use Rattle.std.specs.Prelude.{List};
    ghost use Rattle.ftc_message.specs.Logged.{Logged};

    ghost Value = { List Logged };

    ghost view = { λ forwarder. forwarder.carried };
}

impl Forwarder {
    /// No log is carried.
    pub fn new(alloc: Global) -> Forwarder
        ensures { result ≡ [] }
    {
        Forwarder {
            alloc,
            carried: Logs::new(alloc),
        }
    }

    /// How many logs it has.
    pub fn logs(&self) -> usize
        ensures same { result ≡ length self.now }
        ensures bounds { AreLogs self.now }
    {
        self.carried.len()
    }

    /// All its logs.
    pub fn carried(&self) -> &Logs
        ensures { result.now ≡ self.now }
    {
        &self.carried
    }

    /// Takes a copy of these logs on, each at its place. It has none of their packets and groups yet.
    pub fn carry(&mut self, logs: &Logs) -> Result<(), NoMemory>
        requires { AreApart logs.now self.old }
        ensures ok { OnOk result (self.new ≡ with_items is_earlier logs.now self.old) }
        ensures err { OnErr result (self.new ≡ self.old) }
    {
        let copy = logs.copy(self.alloc)?;
        self.carried.merge(copy)
    }

    /// Adds a copy of all its logs to a message, each at its place. The message has none of their packets
    /// and groups yet.
    pub fn attach(&self, message: &mut Message) -> Result<(), NoMemory>
        requires { AreApart self.now message.old.logs }
        ensures ok { OnOk result (message.new ≡ attached self.now message.old) }
        ensures err { OnErr result (message.new ≡ message.old) }
    {
        let copy = self.carried.copy(self.alloc)?;
        message.logs.merge(copy)
    }

    /// Lets all its logs go.
    pub fn clear(&mut self)
        ensures { self.new ≡ [] }
    {
        self.carried = Logs::new(self.alloc);
    }
}

/// A message that is begun without a packet, so that the forwarder's logs go on.
pub fn propagating(alloc: Global, origin: PacketNo) -> Result<Message, NoMemory>
    ensures begun { IfOk result (λ message. message ≡ begun origin) }
    ensures right { IfOk result IsWellFormed }
{
    let commits = Commits::new(alloc)?;
    Ok(Message {
        origin,
        packet: None,
        logs: Logs::new(alloc),
        needs: Needs::new(alloc),
        commits,
    })
}
