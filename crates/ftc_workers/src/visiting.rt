//! One worker, and the visits that it makes.

ghost use Rattle.std.specs.Prelude.{◌≡◌};

use crate::latch::Begun;
use crate::office::{Duty, arrive, give_up, put_back, wait_for_duty};
use crate::seat::Planned;
use crate::shared::{Progress, Shared, commit, leave, read_or_wait, rules};
use crate::tally::{Run, Tally};
use ftc_base::{Answers, Ask, WorkerId};
use ftc_mbox::{Plan, Rule, Rules, ask};
use ftc_outside::Gate;
use std::alloc::Global;
use std::sync::Wait;

/// The worker of a number, with what it shares with the others and the gate that it passes. It sits at the seat of that
/// number, and the visits that it finds itself are in the slot of that number, where that is free.
#[derive(Drop)]
pub struct Worker<'a, 'b, L: Run, R, G> {
    pub rt: &'a R,
    pub alloc: Global,
    pub shared: &'a Shared<'b, L>,
    pub number: WorkerId,
    pub gate: &'a G,
}

/// The rule of the server at which a visit was begun.
pub fn rule_of<'r>(rules: &'r Rules, begun: &Begun) -> Option<&'r Rule> {
    let server = usize::from(begun.server.number());
    if server >= rules.len() {
        return None;
    }
    Some(rules.at(server))
}

impl<'a, 'b, L: Run, R: Wait, G: Gate> Worker<'a, 'b, L, R, G> {
    /// Passes the gate. An open gate holds nobody: there another may lead now and then, ever less often, since what a
    /// leader works on is near it.
    fn pass(&self, begun: &Begun, commits: u64) {
        if self.gate.is_open() && commits.is_power_of_two() {
            give_up(self.rt, &self.shared.office, self.number);
        }
        self.gate.pause(begun.server, begun.packet);
    }

    /// Plans how a visit ends, passes the gate and commits. Where the slot has to begin again, no answer is left.
    fn finish(
        &self,
        rule: &Rule,
        begun: &Begun,
        answers: &mut Answers,
        mine: &mut Tally<L>,
    ) -> Progress
        requires { mine.old.share.parts ≡ 1 }
        ensures { mine.new.share.parts ≡ 1 }
    {
        let Ok(Some(plan)) = Plan::make(self.alloc, rule, begun.bytes.as_slice(), answers) else {
            return Progress::NoMemory;
        };
        self.pass(begun, mine.count);
        let progress = commit(self.rt, self.shared, begun.slot, &plan, mine);
        if progress == Progress::Asks {
            *answers = Answers::new();
        }
        progress
    }

    /// Asks the rule, and does what it says.
    fn go_on(
        &self,
        rule: &Rule,
        begun: &Begun,
        answers: &mut Answers,
        mine: &mut Tally<L>,
    ) -> Progress
        requires { mine.old.share.parts ≡ 1 }
        ensures { mine.new.share.parts ≡ 1 }
    {
        match ask(rule, begun.bytes.as_slice(), answers) {
            Ask::Read { key, .. } => {
                let (number, slot) = (self.number, begun.slot);
                read_or_wait(self.rt, self.shared, number, slot, &key, answers)
            }
            Ask::Finish(_) => self.finish(rule, begun, answers, mine),
        }
    }

    /// Makes a visit that was begun, until its slot runs nothing any more. False where there was no memory.
    pub fn visit(&self, rules: &Rules, begun: &Begun, mine: &mut Tally<L>) -> bool
        requires { mine.old.share.parts ≡ 1 }
        ensures { mine.new.share.parts ≡ 1 }
    {
        let Some(rule) = rule_of(rules, begun) else {
            return false;
        };
        let mut answers = Answers::new();
        for _ in self.rt.forever() {
            match self.go_on(rule, begun, &mut answers, mine) {
                Progress::Asks | Progress::Blocked => {}
                Progress::Over => return true,
                Progress::NoMemory => return false,
            }
        }
        unreachable!()
    }

    /// Passes the gate for a visit, and waits for another one then.
    pub fn pass_given(&self, planned: Planned) {
        self.gate.pause(planned.server, planned.packet);
        put_back(self.rt, &self.shared.office, self.number, planned);
    }

    /// Leads or makes visits, until there is nothing to do any more.
    fn work_by(&self, rules: &Rules, mine: &mut Tally<L>)
        requires { mine.old.share.parts ≡ 1 }
        ensures { mine.new.share.parts ≡ 1 }
    {
        for _ in self.rt.forever() {
            let goes_on = match wait_for_duty(self.rt, &self.shared.office, self.number) {
                Duty::Lead => self.lead(rules, mine),
                Duty::Pass(planned) => {
                    self.pass_given(planned);
                    true
                }
                Duty::Nothing => continue,
                Duty::End => false,
            };
            if !goes_on {
                return;
            }
        }
        unreachable!()
    }

    /// All of its work. When it ends it gives up what it has, and wakes the others.
    pub fn work(&self, mine: Tally<L>) -> Tally<L>
        requires { mine.share.parts ≡ 1 }
        ensures { result.share.parts ≡ 1 }
    {
        let mut mine = mine;
        arrive(self.rt, &self.shared.office, self.number);
        if let Ok(rules) = rules(self.rt, self.alloc, self.shared) {
            self.work_by(&rules, &mut mine);
        }
        leave(self.rt, self.shared, self.number);
        mine
    }
}
