//! The transaction of a visit until its commit.

ghost use Rattle.std.specs.Prelude.{◌≡◌, true, false, Some, None};
ghost use Rattle.std.specs.Option.{option_copied};
ghost use Rattle.ftc_base.specs.declared.ask.Ask.TheVariants.{Read};
ghost use Rattle.ftc_txn.specs.Slots.{slot_at, packet_at, wounded_at};
ghost use Rattle.ftc_txn.specs.Head.{ages_left, next_age};
ghost use Rattle.ftc_server.specs.declared.work.Work.TheVariants.{Visit};
ghost use Rattle.ftc_server.specs.Slots.{is_running};
ghost use Rattle.ftc_server.specs.Looks.{work_in, ask_in, Leaves};
ghost use Rattle.ftc_server.specs.Steps.{HasBegun, HasQuit, Reads};

use crate::server::Server;
use ftc_base::{Ask, Key, PacketNo, WorkerId};
use ftc_mbox::ask;
use ftc_txn::ReadAnswer;

/// With which leave to write there a key is asked for, where it is asked for.
fn leave_of(asked: &Ask, key: &Key) -> Option<bool>
    ensures { Leaves (Some asked.now) key.now result }
{
    match asked {
        Ask::Read {
            key: wanted,
            change,
        } => { if wanted == key { Some(*change) } else { None } }
        Ask::Finish(_) => None,
    }
}

impl Server {
    /// A slot that is idle begins the visit of a held message's packet, which no slot runs. The answer is its
    /// age.
    pub fn begin(&mut self, worker: WorkerId, packet: PacketNo) -> u64
        requires idle { slot_at self.old.head.slots worker ≡ None }
        requires age { ages_left u64.MAX self.old.head ≡ true }
        requires work { work_in self.old packet ≡ Some Visit }
        requires once { is_running self.old.head packet ≡ false }
        ensures age { result ≡ next_age self.old.head }
        ensures begun { HasBegun self.old self.new worker packet }
    {
        self.head.begin(worker, packet)
    }

    /// What the rule asks of what a slot runs. None where it runs nothing.
    pub fn asked(&self, worker: WorkerId) -> Option<Ask>
        ensures { result ≡ ask_in self.now worker }
    {
        let packet = self.head.packet(worker)?;
        let answers = self.head.answers(worker)?;
        let held = self.held.get(packet)?;
        let bytes = held.message.packet.as_ref()?;
        Some(ask(&self.rule, bytes.as_slice(), answers))
    }

    /// With which leave to write there the rule asks a slot for a key. None where it doesn't ask for it.
    fn leave(&self, worker: WorkerId, key: &Key) -> Option<bool>
        ensures { Leaves (ask_in self.now worker) key.now result }
    {
        let asked = self.asked(worker)?;
        leave_of(&asked, key)
    }

    /// What a slot runs reads the key that the rule asks for, with that leave to write there.
    pub fn read_asked(&mut self, worker: WorkerId, key: &Key, change: bool) -> ReadAnswer
        requires { ask_in self.old worker ≡ Some (Read key.now change) }
        ensures { Reads self.old self.new worker key.now result }
    {
        self.head.read(worker, key, change)
    }

    /// What a slot runs reads a key, which has to be the one that the rule asks for.
    pub fn read(&mut self, worker: WorkerId, key: &Key) -> ReadAnswer
        ensures { Reads self.old self.new worker key.now result }
    {
        if self.head.packet(worker).is_none() {
            return ReadAnswer::Idle;
        }
        if self.head.wounded(worker).is_some() {
            return self.head.read(worker, key, false);
        }
        match self.leave(worker, key) {
            Some(change) => self.read_asked(worker, key, change),
            None => ReadAnswer::NotAsked,
        }
    }

    /// A slot gives up what it runs.
    pub fn quit(&mut self, worker: WorkerId)
        ensures { HasQuit self.old self.new worker }
    {
        self.head.quit(worker);
    }
}
