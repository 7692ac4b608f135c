//! What a slot runs at a server reads, and is given up; and what is read off slots and heads.

ghost use Rattle.std.specs.Prelude.{◌≡◌, ◌≢◌, ◌<◌, ◌↔◌, ℕ, Some, None, IfOk, IfSome, IsNone};
ghost use Rattle.ftc_protocol.specs.Setting.{Setting};
ghost use Rattle.ftc_protocol.specs.State.{ChainState};
ghost use Rattle.ftc_server.specs.Slots.{is_running, runs_packet};
ghost use Rattle.ftc_server.specs.Steps.{HasQuit};
ghost use Rattle.ftc_network.specs.Events.{StandsStill, SlotStandsStill};
ghost use Rattle.ftc_network.specs.Parts.{server_in};
ghost use Rattle.ftc_txn.specs.Slots.{slot_at};
ghost use Rattle.ftc_network.specs.Slots.{head_at, runs_in, ages_left_in, is_running_in, bytes_run_at, RunWithin};
ghost use Rattle.ftc_network.specs.Slots.{SlotQuits, SlotReads};
ghost use Rattle.ftc_network.specs.Stand.{IsNetwork};

use crate::network::Network;
use crate::places::place_of;
use ftc_base::limits::MOST_SLOTS;
use ftc_base::{Answers, Bytes, Key, NoMemory, PacketNo, ServerId, WorkerId};
use ftc_refinement::what_stays;
use ftc_ring::server_of;
use ftc_server::{ReadAnswer, Server};

/// What a slot runs at a server reads a key.
fn read_at(slot: &mut Option<Server>, worker: WorkerId, key: &Key) -> ReadAnswer
    ensures reads { SlotReads slot.old slot.new worker key.now result }
    ensures stands { (number : ℕ) → SlotStandsStill number slot.old slot.new }
{
    what_stays();
    match slot {
        Some(live) => live.read(worker, key),
        None => ReadAnswer::Idle,
    }
}

/// Whether a slot of a server runs a packet.
fn runs_at(live: &Server, worker: WorkerId, packet: PacketNo) -> bool
    ensures { result ≡ runs_packet packet (slot_at live.now.head.slots worker) }
{
    match live.packet_of(worker) {
        Some(own) => own == packet,
        None => false,
    }
}

/// Whether some slot of a server runs a packet, where only workers' slots run something.
fn runs(live: &Server, packet: PacketNo) -> bool
    ensures { RunWithin live.now → result ≡ is_running live.now.head packet }
{
    for number in 0..MOST_SLOTS {
        let worker = WorkerId::new(number).unwrap();
        if runs_at(live, worker, packet) {
            return true;
        }
    }
    false
}

/// The packet that a slot runs at a server, copied. None where it runs nothing there.
fn look_at(live: &Server, worker: WorkerId) -> Result<Option<Bytes>, NoMemory>
    ensures { IfOk result (λ bytes. bytes ≡ bytes_run_at (Some live.now) worker) }
{
    let Some(packet) = live.packet_of(worker) else {
        return Ok(None);
    };
    let Some(message) = live.message(packet) else {
        return Ok(None);
    };
    match &message.packet {
        Some(bytes) => Ok(Some(bytes.copy()?)),
        None => Ok(None),
    }
}

/// A slot gives up what it runs at a server.
fn quit_at(slot: &mut Option<Server>, worker: WorkerId)
    ensures quits { SlotQuits slot.old slot.new worker }
    ensures stands { (number : ℕ) → SlotStandsStill number slot.old slot.new }
{
    what_stays();
    match slot {
        Some(live) => live.quit(worker),
        None => {}
    }
}

impl Network {
    /// What a slot runs at a server reads a key, which has to be the one that the rule asks for.
    pub fn read(&mut self, worker: WorkerId, server: ServerId, key: &Key) -> ReadAnswer
        requires { server < self.old.ring.servers }
        ensures reads { SlotReads (server_in self.old.servers.items server) (server_in self.new.servers.items server)
            worker key.now result }
        ensures others { (other : ℕ) → other ≢ server →
            server_in self.new.servers.items other ≡ server_in self.old.servers.items other }
        ensures stands { StandsStill self.old self.new }
    {
        read_at(&mut self.servers[place_of(server)], worker, key)
    }

    /// A slot gives up what it runs at a server.
    pub fn quit(&mut self, worker: WorkerId, server: ServerId)
        requires { server < self.old.ring.servers }
        ensures quits { SlotQuits (server_in self.old.servers.items server) (server_in self.new.servers.items server)
            worker }
        ensures others { (other : ℕ) → other ≢ server →
            server_in self.new.servers.items other ≡ server_in self.old.servers.items other }
        ensures stands { StandsStill self.old self.new }
    {
        quit_at(&mut self.servers[place_of(server)], worker);
    }

    /// The answers of what a slot runs at a server. None where it runs nothing there.
    pub fn answers(&self, worker: WorkerId, server: ServerId) -> Option<&Answers>
        requires { server < self.now.ring.servers }
        ensures none { IsNone result ↔ (runs_in (head_at self.now server) worker ≡ None) }
        ensures some { IfSome result (λ answers. IfSome (runs_in (head_at self.now server) worker) (λ running.
            answers.now.items ≡ running.answers)) }
    {
        match &self.servers[place_of(server)] {
            Some(live) => live.answers(worker),
            None => None,
        }
    }

    /// Whether some slot runs a packet at a server, where the network stands for a state. False where it is down.
    pub fn is_running(&self, server: ServerId, packet: PacketNo) -> bool
        requires { server < self.now.ring.servers }
        ensures { (setting : Setting) (state : ChainState) → IsNetwork setting state self.now →
            result ≡ is_running_in (head_at self.now server) packet }
    {
        match &self.servers[place_of(server)] {
            Some(live) => runs(live, packet),
            None => false,
        }
    }

    /// Whether an age is left for a slot to begin at a server. True where it is down.
    pub fn ages_left(&self, server: ServerId) -> bool
        requires { server < self.now.ring.servers }
        ensures { result ≡ ages_left_in u64.MAX (head_at self.now server) }
    {
        match &self.servers[place_of(server)] {
            Some(live) => live.ages_left(),
            None => true,
        }
    }

    /// The packet that a slot runs at a server, copied. None where it runs nothing there.
    pub fn look(&self, worker: WorkerId, server: ServerId) -> Result<Option<Bytes>, NoMemory>
        requires { server < self.now.ring.servers }
        ensures { IfOk result (λ bytes. bytes ≡ bytes_run_at (server_in self.now.servers.items server) worker) }
    {
        match &self.servers[place_of(server)] {
            Some(live) => look_at(live, worker),
            None => Ok(None),
        }
    }

    /// The first server at which a slot runs something.
    pub fn server_of(&self, worker: WorkerId) -> Option<ServerId>
        ensures inside { IfSome result (λ server. server < self.now.ring.servers) }
        ensures some { IfSome result (λ server. runs_in (head_at self.now server) worker ≢ None) }
        ensures first { IfSome result (λ server. (before : ℕ) → before < server →
            runs_in (head_at self.now before) worker ≡ None) }
        ensures none { IsNone result → (server : ℕ) → runs_in (head_at self.now server) worker ≡ None }
    {
        for number in 0..self.ring.servers() {
            let server = server_of(number);
            if self.answers(worker, server).is_some() {
                return Some(server);
            }
        }
        None
    }
}
