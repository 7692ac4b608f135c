//! How a leader prepares visits for other workers.

use crate::hand::Hand;
use crate::latch::Begun;
use crate::seat::Planned;
use crate::shared::{Progress, drop_visit, look, read};
use crate::tally::Run;
use crate::visiting::{Worker, rule_of};
use ftc_base::{Answers, Ask, NoMemory};
use ftc_mbox::{Plan, Rule, Rules, ask};
use ftc_outside::Gate;
use std::sync::Wait;

/// After so many reads each visit is planned, unless it is wounded again and again.
const MOST_TURNS: u32 = 32;

/// What came of a visit that was to be prepared.
#[derive(Drop)]
enum Prepared {
    Ready(Planned),
    /// An older transaction blocks it.
    Blocked(Begun),
    /// Its slot runs nothing any more.
    Over,
}

impl<'a, 'b, L: Run, R: Wait, G: Gate> Worker<'a, 'b, L, R, G> {
    /// Plans how a visit ends.
    fn plan(&self, rule: &Rule, begun: &Begun, answers: &Answers) -> Result<Prepared, NoMemory> {
        let bytes = begun.bytes.as_slice();
        let Ok(Some(plan)) = Plan::make(self.alloc, rule, bytes, answers) else {
            return Err(NoMemory);
        };
        let plan = Box::new(self.alloc, plan)?;
        Ok(Prepared::Ready(Planned {
            slot: begun.slot,
            server: begun.server,
            packet: begun.packet,
            plan,
        }))
    }

    /// Reads and plans a visit that was begun. One that is wounded again and again waits.
    fn prepare(&self, rule: &Rule, begun: Begun) -> Result<Prepared, NoMemory> {
        let mut answers = Answers::new();
        for _ in 0..MOST_TURNS {
            let Ask::Read { key, .. } = ask(rule, begun.bytes.as_slice(), &answers) else {
                return self.plan(rule, &begun, &answers);
            };
            match read(self.rt, self.shared, begun.slot, &key, &mut answers) {
                Progress::Asks => {}
                Progress::Blocked => return Ok(Prepared::Blocked(begun)),
                Progress::Over => return Ok(Prepared::Over),
                Progress::NoMemory => return Err(NoMemory),
            }
        }
        Ok(Prepared::Blocked(begun))
    }

    /// A visit is at hand, and waits.
    fn block(&self, begun: Begun, hand: &mut Hand) {
        if let Err(begun) = hand.block(begun) {
            drop_visit(self.rt, self.shared, begun.slot);
        }
    }

    /// Prepares a visit by the rule of its server, and has it at hand then. False where there was no memory, or there
    /// is no such rule: then it is given up.
    pub fn prepare_by(&self, rules: &Rules, begun: Begun, hand: &mut Hand) -> bool {
        let slot = begun.slot;
        let prepared = match rule_of(rules, &begun) {
            Some(rule) => self.prepare(rule, begun),
            None => Err(NoMemory),
        };
        match prepared {
            Ok(Prepared::Ready(planned)) => hand.ready = Some(planned),
            Ok(Prepared::Blocked(begun)) => self.block(begun, hand),
            Ok(Prepared::Over) => self.shared.office.slots.free(slot),
            Err(_) => {
                drop_visit(self.rt, self.shared, slot);
                return false;
            }
        }
        true
    }

    /// A visit that passed the gate has to begin again, and is looked at after the others. False where there was no
    /// memory: then it is given up.
    pub fn begin_again(&self, planned: &Planned, hand: &mut Hand) -> bool {
        let slot = planned.slot;
        match look(self.rt, self.shared, slot, planned.server, planned.packet) {
            Ok(Some(begun)) => self.block(begun, hand),
            Ok(None) => self.shared.office.slots.free(slot),
            Err(_) => {
                drop_visit(self.rt, self.shared, slot);
                return false;
            }
        }
        true
    }

    /// Looks at the visits that wait, until one is ready, where a transaction may have ended. False where there was no
    /// memory.
    pub fn prepare_again(&self, rules: &Rules, hand: &mut Hand) -> bool {
        for _ in 0..hand.count_again() {
            if hand.ready.is_some() {
                return true;
            }
            if let Some(begun) = hand.unblock() {
                if !self.prepare_by(rules, begun, hand) {
                    return false;
                }
            }
        }
        hand.set_freed(false);
        true
    }

    /// Gives up all visits that wait.
    pub fn drop_blocked(&self, hand: &mut Hand) {
        for _ in 0..hand.blocked() {
            if let Some(begun) = hand.unblock() {
                drop_visit(self.rt, self.shared, begun.slot);
            }
        }
    }
}
