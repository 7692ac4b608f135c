//! What is to be done with a held message.

ghost use Rattle.std.specs.Prelude.{◌≡◌, ℕ, true, Some, None};
ghost use Rattle.std.specs.Option.{option_copied};
ghost use Rattle.ftc_server.specs.Replicas.{has_first, is_ready};
ghost use Rattle.ftc_server.specs.Work.{next_log, last_work, work_for, has_work};
ghost use Rattle.ftc_server.specs.Looks.{work_in, first_work_in, may_apply_in};
ghost use Rattle.ftc_server.specs.declared.work.Work.TheVariants.{Apply};

use crate::held::HeldMessage;
use crate::noting::logs_behind;
use crate::replicas::{are_had, is_had, may_apply};
use crate::server::Server;
use ftc_base::{PacketNo, ServerId};
use ftc_message::Log;
use ftc_replica::Replica;

/// The work of a held message.
#[derive(Clone, Copy, Debug, PartialEq, Eq)]
pub enum Work {
    /// This log of it is applied.
    Apply { group: ServerId, packet: PacketNo },
    /// Its packet visits the middlebox.
    Visit,
    /// It is sent on.
    Send,
    /// The forwarder takes its logs.
    Carry,
}

/// The first log that is lacking and may be applied, where no lacking log of its packet stands before it.
fn next_log<'a>(replicas: &[Option<Replica>], logs: &'a [Log]) -> Option<&'a Log>
    ensures { option_copied result ≡ next_log replicas.now None logs.now }
{
    let mut waiting: Option<PacketNo> = None;
    for log in logs {
        if is_had(replicas, log) || waiting == Some(log.origin()) {
            continue;
        }
        if may_apply(replicas, log) {
            return Some(log);
        }
        waiting = Some(log.origin());
    }
    None
}

/// What comes when all logs of a held message are had.
fn last_work(held: &HeldMessage) -> Work
    ensures { result ≡ last_work held.now }
{
    if !held.visited && held.message.packet.is_some() {
        Work::Visit
    } else if held.by_ring {
        Work::Carry
    } else {
        Work::Send
    }
}

/// The first log of a held message that is lacking and may be applied, where no lacking log of its packet stands
/// before it. So many of its first logs are had.
fn next_of<'a>(replicas: &[Option<Replica>], held: &'a HeldMessage, had: usize) -> Option<&'a Log>
    requires { has_first replicas.now had held.now.message.logs ≡ true }
    ensures { option_copied result ≡ next_log replicas.now None held.now.message.logs }
{
    next_log(replicas, logs_behind(held, had))
}

/// Whether all logs of a held message are had. So many of the first ones are.
fn is_ready(replicas: &[Option<Replica>], held: &HeldMessage, had: usize) -> bool
    requires { has_first replicas.now had held.now.message.logs ≡ true }
    ensures { result ≡ is_ready replicas.now held.now }
{
    are_had(replicas, logs_behind(held, had))
}

/// The work of a held message. So many of its first logs are had.
pub fn work_for(replicas: &[Option<Replica>], held: &HeldMessage, had: usize) -> Option<Work>
    requires { has_first replicas.now had held.now.message.logs ≡ true }
    ensures { result ≡ work_for replicas.now held.now }
{
    match next_of(replicas, held, had) {
        Some(log) => Some(Work::Apply {
            group: log.group(),
            packet: log.origin(),
        }),
        None if is_ready(replicas, held, had) => Some(last_work(held)),
        None => None,
    }
}

/// Whether a held message has work. So many of its first logs are had.
pub fn has_work(replicas: &[Option<Replica>], held: &HeldMessage, had: usize) -> bool
    requires { has_first replicas.now had held.now.message.logs ≡ true }
    ensures { result ≡ has_work replicas.now held.now }
{
    work_for(replicas, held, had).is_some()
}

impl Server {
    /// The work of the held message of that origin. None where it isn't held, or lacks a log and no log of
    /// it can be applied yet.
    pub fn work_of(&self, origin: PacketNo) -> Option<Work>
        ensures work { result ≡ work_in self.now origin }
        // A log that is to be applied may be.
        ensures allowed { (group packet : ℕ) → result ≡ Some (Apply group packet) →
            may_apply_in self.now origin group packet ≡ true }
    {
        let held = self.held.get(origin)?;
        // The contract of this call tells that the logs rise.
        let _ = held.message.logs.len();
        work_for(self.others.as_slice(), held, self.held.had(origin))
    }

    /// The first held message, in the order of taking, that has work.
    pub fn first_work(&self) -> Option<PacketNo>
        ensures { result ≡ first_work_in self.now }
    {
        // The contract of this call tells that no two held messages have one origin.
        let _ = self.held.len();
        let replicas = self.others.as_slice();
        match self.held.first_with_work(replicas) {
            Some(held) => Some(held.message.origin),
            None => None,
        }
    }
}
