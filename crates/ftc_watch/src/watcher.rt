//! What a watch knows of the servers, and the lines so far.

ghost use Rattle.std.specs.Prelude.{◌≡◌, ◌<◌, ℕ, true, false, length, IfOk, Some, None, slice_index};
ghost use Rattle.ftc_ring.specs.Live.{is_live};
ghost use Rattle.ftc_script.specs.Steps.{with_at};
ghost use Rattle.ftc_watch.specs.Watcher.{known};
ghost use Rattle.ftc_watch.specs.Watch.{at_start, missed_of, recover_at, count_at, fence_at, judge_at};

use crate::held::Held;
use ftc_base::limits::MOST_SERVERS;
use ftc_base::{Items, NoMemory, PacketNo, ServerId, ServerSet};
use ftc_ring::Ring;
use ftc_script::Statement;
use std::alloc::Global;
use std::marker::Model;

/// How many servers there may be, as a length.
const SERVERS: usize = MOST_SERVERS as usize;

/// Which servers are down, how many ticks each has missed, and the lines so far.
#[derive(Drop)]
pub struct Watcher {
    down: ServerSet,
    missed: [u8; SERVERS],
    script: Items<Statement>,
    held: Items<Held>,
}

impl Model for Watcher {
    ghost use Rattle.std.specs.Prelude.{◌≡◌, length};
    ghost use Rattle.ftc_base.specs.declared.limits.TheConstants.{MOST_SERVERS};
    ghost use Rattle.ftc_watch.specs.Watcher.{Kept};

    ghost Value = { Kept };

    ghost view = { λ watcher. record {
      down = watcher.down;
      missed = watcher.missed;
      script = watcher.script;
      held = watcher.held;
    } };

    ghost invariant = { λ watcher. length watcher.missed ≡ MOST_SERVERS };
}

/// The counts with another one at a server.
fn with_missed(missed: [u8; SERVERS], server: u8, count: u8) -> [u8; SERVERS]
    requires { server < MOST_SERVERS }
    ensures value { (other : ℕ) →
        slice_index result other ≡ with_at (λ place. slice_index missed place) server count other }
    ensures size { length result ≡ MOST_SERVERS }
{
    let mut next = missed;
    next[usize::from(server)] = count;
    next
}

/// The set with a server.
fn with_down(down: ServerSet, server: u8) -> ServerSet
    requires { server < MOST_SERVERS }
    ensures { is_live result ≡ with_at (is_live down) server false }
{
    down.with(server)
}

/// The set without a server.
fn with_live(down: ServerSet, server: u8) -> ServerSet
    requires { server < MOST_SERVERS }
    ensures { is_live result ≡ with_at (is_live down) server true }
{
    down.without(server)
}

/// The ticks that a server has missed, once one more is counted.
fn missed_of(limit: u8, beat: bool, missed: u8) -> u8
    ensures { result ≡ missed_of limit beat missed }
{
    if beat {
        0
    } else if missed < limit {
        missed + 1
    } else {
        limit
    }
}

impl Watcher {
    /// All servers are up and have missed no tick.
    pub fn new(alloc: Global) -> Watcher
        ensures { known result ≡ at_start }
    {
        Watcher {
            down: ServerSet::new(),
            missed: [0; SERVERS],
            script: Items::new(alloc),
            held: Items::new(alloc),
        }
    }

    /// The server recovers, if it is down.
    pub fn recovered(self, at: PacketNo, server: u8) -> Result<Watcher, NoMemory>
        requires { server < MOST_SERVERS }
        ensures { IfOk result (λ next. known next ≡ recover_at at (known self) server) }
    {
        if !self.down.has(server) {
            return Ok(self);
        }
        let mut script = self.script;
        script.push(Statement::Recover {
            at,
            server: u32::from(server),
        })?;
        Ok(Watcher {
            down: with_live(self.down, server),
            missed: with_missed(self.missed, server, 0),
            script,
            held: self.held,
        })
    }

    /// The server has beaten or missed a tick.
    pub fn counted(self, limit: u8, beaten: ServerSet, server: u8) -> Watcher
        requires { server < MOST_SERVERS }
        ensures { known result ≡ count_at limit beaten (known self) server }
    {
        let before = self.missed[usize::from(server)];
        let missed = missed_of(limit, beaten.has(server), before);
        Watcher {
            down: self.down,
            missed: with_missed(self.missed, server, missed),
            script: self.script,
            held: self.held,
        }
    }

    /// The server is fenced.
    fn fenced(self, at: PacketNo, server: u8) -> Result<Watcher, NoMemory>
        requires { server < MOST_SERVERS }
        ensures { IfOk result (λ next. known next ≡ fence_at at (known self) server None) }
    {
        let mut script = self.script;
        script.push(Statement::Crash {
            at,
            server: u32::from(server),
        })?;
        let missed = self.missed;
        Ok(Watcher {
            down: with_down(self.down, server),
            missed,
            script,
            held: self.held,
        })
    }

    /// The server is held for a group.
    fn held(self, at: PacketNo, server: ServerId, group: ServerId) -> Result<Watcher, NoMemory>
        ensures { IfOk result (λ next. known next ≡ fence_at at (known self) server (Some group)) }
    {
        let mut held = self.held;
        held.push(Held { at, server, group })?;
        let missed = self.missed;
        Ok(Watcher {
            down: self.down,
            missed,
            script: self.script,
            held,
        })
    }

    /// The server is fenced or held, if it has missed as many ticks as the limit.
    pub fn judged(
        self,
        ring: &Ring,
        limit: u8,
        at: PacketNo,
        server: ServerId,
    ) -> Result<Watcher, NoMemory>
        ensures { IfOk result (λ next. known next ≡ judge_at ring.now limit at (known self) server) }
    {
        let number = server.number();
        if self.missed[usize::from(number)] != limit {
            return Ok(self);
        }
        match ring.gone(with_down(self.down, number)) {
            None => self.fenced(at, number),
            Some(group) => self.held(at, server, group),
        }
    }

    /// The lines of the script and the held lines.
    pub fn into_parts(self) -> (Items<Statement>, Items<Held>)
        ensures script { result.0 ≡ self.script }
        ensures held { result.1 ≡ self.held }
    {
        (self.script, self.held)
    }
}
