//! A script of which some lines are read.

ghost use Rattle.std.specs.Prelude.{◌≡◌, ◌≤◌, false, IfOk, IfNone};
ghost use Rattle.ftc_base.specs.declared.limits.TheConstants.{MOST_SERVERS};
ghost use Rattle.ftc_ring.specs.Live.{is_live, IsAdmissible, gone_of};
ghost use Rattle.ftc_script.specs.Steps.{with_at, live_after, last_of};
ghost use Rattle.ftc_script.specs.Grammar.{no_lines, live_in, with_step, with_lose, down_of};

use crate::line::{LoseLine, ScriptLine};
use ftc_base::{Items, NoMemory, PacketNo, ServerId, ServerSet};
use ftc_ring::Ring;
use std::alloc::Global;
use std::marker::Model;

/// The lines so far. A contract sees the two lists.
#[derive(Drop)]
pub struct Draft {
    steps: Items<ScriptLine>,
    loses: Items<LoseLine>,
    /// The servers that are down behind the steps.
    down: ServerSet,
    /// The number of the last step.
    last: PacketNo,
}

impl Model for Draft {
    ghost use Rattle.std.specs.Prelude.{◌≡◌};
    ghost use Rattle.ftc_ring.specs.Live.{is_live};
    ghost use Rattle.ftc_script.specs.Steps.{all_live, live_after_all, last_of};
    ghost use Rattle.ftc_script.specs.Grammar.{ScriptDraft};

    ghost Value = { ScriptDraft };

    ghost view = { λ draft. record { steps = draft.steps; loses = draft.loses } };

    ghost invariant = { λ draft. (is_live draft.down ≡ live_after_all all_live draft.steps)
        × (draft.last ≡ last_of 0 draft.steps) };
}

/// The servers that are down behind a step.
fn down_behind(down: ServerSet, step: ScriptLine) -> ServerSet
    ensures { is_live result ≡ live_after (is_live down) step }
{
    match step {
        ScriptLine::Crash { server, .. } => down.with(server.number()),
        ScriptLine::Recover { server, .. } => down.without(server.number()),
    }
}

impl Draft {
    /// No line is read.
    pub fn new(alloc: Global) -> Draft
        ensures { result ≡ no_lines }
    {
        Draft {
            steps: Items::new(alloc),
            loses: Items::new(alloc),
            down: ServerSet::new(),
            last: 0,
        }
    }

    /// The number of the last step, and 0 before the first.
    pub fn last(&self) -> PacketNo
        ensures { result ≡ last_of 0 self.now.steps }
    {
        self.last
    }

    /// Whether a server is live behind the lines so far.
    pub fn is_up(&self, server: ServerId) -> bool
        ensures { result ≡ live_in self.now server }
    {
        !self.down.has(server.number())
    }

    /// The smallest group that has no live member once this server crashes too.
    pub fn gone_with(&self, ring: &Ring, server: ServerId) -> Option<ServerId>
        ensures value { result ≡ gone_of ring.now (with_at (live_in self.now) server false) }
        ensures none { IfNone result (IsAdmissible ring.now (with_at (live_in self.now) server false)) }
    {
        let down = down_behind(
            self.down,
            ScriptLine::Crash {
                at: self.last,
                server,
            },
        );
        ring.gone(down)
    }

    /// The smallest of so many servers that is down behind the lines so far.
    pub fn first_down(&self, servers: u8) -> Option<ServerId>
        requires { servers ≤ MOST_SERVERS }
        ensures { result ≡ down_of servers (live_in self.now) }
    {
        let down = self.down;
        for number in 0..servers {
            if down.has(number) {
                return ServerId::new(number);
            }
        }
        None
    }

    /// One more crash or recovery.
    pub fn with_step(self, step: ScriptLine) -> Result<Draft, NoMemory>
        ensures { IfOk result (λ next. next ≡ with_step self step) }
    {
        let down = down_behind(self.down, step);
        let last = step.at();
        let mut steps = self.steps;
        steps.push(step)?;
        Ok(Draft {
            steps,
            loses: self.loses,
            down,
            last,
        })
    }

    /// One more lost message.
    pub fn with_lose(self, line: LoseLine) -> Result<Draft, NoMemory>
        ensures { IfOk result (λ next. next ≡ with_lose self line) }
    {
        let mut loses = self.loses;
        loses.push(line)?;
        Ok(Draft {
            steps: self.steps,
            loses,
            down: self.down,
            last: self.last,
        })
    }

    /// The steps and the lost messages.
    pub fn into_parts(self) -> (Items<ScriptLine>, Items<LoseLine>)
        ensures steps { result.0 ≡ self.steps }
        ensures loses { result.1 ≡ self.loses }
    {
        (self.steps, self.loses)
    }
}
