//! What a worker does while it leads.

ghost use Rattle.std.specs.Prelude.{◌≡◌};

use crate::hand::Hand;
use crate::latch::{Begun, Copied, Found};
use crate::office::{close, give, give_up, ring_leader, take_back, wait_as_leader, wait_for_visit};
use crate::seat::Planned;
use crate::shared::{Progress, Search, commit, drop_visit, find, take, tell_of_rest, wake_blocked};
use crate::tally::{Run, Tally};
use crate::visiting::Worker;
use ftc_mbox::Rules;
use ftc_message::Seen;
use ftc_outside::Gate;
use std::sync::Wait;

/// How often a leader looks for what others put back before it makes a visit itself, while more than one is at work.
const PATIENCE: u32 = 50;

/// How a leader's turn ended.
#[derive(Clone, Copy, Debug, PartialEq, Eq)]
enum Led {
    /// It did something.
    On,
    /// There was nothing to do.
    Idle,
    /// It makes the visit that it has at hand itself, and leads no more.
    Held,
    /// It leads no more.
    Off,
    /// There was no memory.
    Failed,
}

/// It goes on leading, where there was memory.
fn led_if(made: bool) -> Led {
    if made { Led::On } else { Led::Failed }
}

impl<'a, 'b, L: Run, R: Wait, G: Gate> Worker<'a, 'b, L, R, G> {
    /// Reads a frame that was copied, and takes its message. False where there was no memory.
    fn take(&self, copied: Copied) -> bool {
        let Copied {
            link,
            origin,
            frame,
        } = copied;
        match Seen::of(self.alloc, frame) {
            Ok(seen) => take(self.rt, self.shared, link, origin, seen),
            Err(_) => false,
        }
    }

    /// Commits a visit that passed the gate. False where there was no memory: then the visit is given up.
    fn commit_for(&self, planned: &Planned, hand: &mut Hand, mine: &mut Tally<L>) -> bool
        requires { mine.old.share.parts ≡ 1 }
        ensures { mine.new.share.parts ≡ 1 }
    {
        hand.set_freed(true);
        match commit(self.rt, self.shared, planned.slot, &planned.plan, mine) {
            Progress::Asks | Progress::Blocked => self.begin_again(planned, hand),
            Progress::Over => {
                self.shared.office.slots.free(planned.slot);
                true
            }
            Progress::NoMemory => {
                drop_visit(self.rt, self.shared, planned.slot);
                false
            }
        }
    }

    /// Gives the visit that is ready to a worker that waits, if any does.
    fn hand_over(&self, hand: &mut Hand) {
        if let Some(planned) = hand.ready.take() {
            if let Err(planned) = give(self.rt, &self.shared.office, planned) {
                hand.ready = Some(planned);
            }
        }
    }

    /// Commits a visit that passed the gate, where one was put back, and prepares those that it blocked. Its worker is
    /// given what is ready before, so that it doesn't wait for the commit. False where there was no memory.
    fn commit_next(&self, rules: &Rules, hand: &mut Hand, mine: &mut Tally<L>) -> bool
        requires { mine.old.share.parts ≡ 1 }
        ensures { mine.new.share.parts ≡ 1 }
    {
        let back = take_back(self.rt, &self.shared.office);
        self.hand_over(hand);
        if let Some(planned) = back {
            if !self.commit_for(&planned, hand, mine) {
                return false;
            }
        }
        self.prepare_again(rules, hand)
    }

    /// Makes a visit itself. It leads on where nothing held it; else whoever leads then is told of the commit.
    fn visit_itself(&self, rules: &Rules, begun: &Begun, mine: &mut Tally<L>) -> Led
        requires { mine.old.share.parts ≡ 1 }
        ensures { mine.new.share.parts ≡ 1 }
    {
        if !self.gate.is_open() {
            give_up(self.rt, &self.shared.office, self.number);
        }
        let made = self.visit(rules, begun, mine);
        if self.shared.office.is_led_by(self.number) {
            return led_if(made);
        }
        ring_leader(self.rt, &self.shared.office);
        if made { Led::Off } else { Led::Failed }
    }

    /// Whether the leader makes all visits itself: no gate holds it, or it is alone.
    fn is_alone(&self) -> bool {
        self.gate.is_open() || self.shared.office.present() < 2
    }

    /// What a leader looks for.
    fn search(&self, hand: &mut Hand) -> Search {
        if hand.ready.is_some() {
            return Search::Other;
        }
        if hand.slot.is_none() {
            hand.slot = self.shared.office.slots.take(self.number);
        }
        match hand.slot {
            Some(slot) if self.is_alone() => Search::Any(slot),
            Some(slot) => Search::Visit(slot),
            None => Search::Other,
        }
    }

    /// Makes a visit that was begun, or prepares it for another worker.
    fn go_to(&self, rules: &Rules, begun: Begun, hand: &mut Hand, mine: &mut Tally<L>) -> Led
        requires { mine.old.share.parts ≡ 1 }
        ensures { mine.new.share.parts ≡ 1 }
    {
        if self.is_alone() {
            return self.visit_itself(rules, &begun, mine);
        }
        hand.slot = None;
        led_if(self.prepare_by(rules, begun, hand))
    }

    /// Does what it finds.
    fn follow(&self, rules: &Rules, found: Found, hand: &mut Hand, mine: &mut Tally<L>) -> Led
        requires { mine.old.share.parts ≡ 1 }
        ensures { mine.new.share.parts ≡ 1 }
    {
        match found {
            Found::Stepped => Led::On,
            Found::Freed => {
                hand.set_freed(true);
                wake_blocked(self.shared);
                Led::On
            }
            Found::Copied(copied) => led_if(self.take(copied)),
            Found::Begun(begun) => self.go_to(rules, begun, hand, mine),
            Found::Nothing => Led::Idle,
            Found::Finished => {
                close(self.rt, &self.shared.office);
                Led::Off
            }
            Found::Failed => Led::Failed,
        }
    }

    /// One turn of a leader: a commit, and what it finds then. Before an open gate no other worker has a visit of it.
    fn turn(&self, rules: &Rules, hand: &mut Hand, mine: &mut Tally<L>) -> Led
        requires { mine.old.share.parts ≡ 1 }
        ensures { mine.new.share.parts ≡ 1 }
    {
        if !self.gate.is_open() && !self.commit_next(rules, hand, mine) {
            return Led::Failed;
        }
        if self.is_alone() {
            self.drop_blocked(hand);
        }
        let search = self.search(hand);
        let found = find(self.rt, self.shared, search);
        self.follow(rules, found, hand, mine)
    }

    /// There was nothing to do, for so many turns in a row: it looks again, and after a while at what is blocked too.
    /// Then it makes the visit that is ready itself, unless another is blocked, for which nobody else would look; or
    /// else it sleeps.
    fn wait(&self, hand: &mut Hand, turns: u32) -> Led {
        if turns >= PATIENCE || self.shared.office.present() < 3 {
            if hand.ready.is_some() && hand.blocked() == 0 {
                return Led::Held;
            }
            hand.set_freed(true);
            tell_of_rest(self.rt, self.shared);
        }
        wait_as_leader(self.rt, &self.shared.office, self.number, turns);
        Led::Idle
    }

    /// Leads, until it is held or the run is finished.
    fn lead_on(&self, rules: &Rules, hand: &mut Hand, mine: &mut Tally<L>) -> Led
        requires { mine.old.share.parts ≡ 1 }
        ensures { mine.new.share.parts ≡ 1 }
    {
        let mut turns: u32 = 0;
        for _ in self.rt.forever() {
            match self.turn(rules, hand, mine) {
                Led::On => turns = 0,
                Led::Idle => {
                    if self.wait(hand, turns) == Led::Held {
                        return Led::Held;
                    }
                    turns = turns.saturating_add(1);
                }
                led => return led,
            }
        }
        unreachable!()
    }

    /// It leads no more. What is ready it makes itself where it was held, and all else is given up.
    fn lay_down(&self, led: Led, hand: Hand) {
        let mut hand = hand;
        self.drop_blocked(&mut hand);
        if let Some(slot) = hand.slot.take() {
            drop_visit(self.rt, self.shared, slot);
        }
        match hand.ready.take() {
            Some(planned) if led == Led::Held => {
                give_up(self.rt, &self.shared.office, self.number);
                self.pass_given(planned);
            }
            Some(planned) => drop_visit(self.rt, self.shared, planned.slot),
            None => wait_for_visit(self.rt, &self.shared.office, self.number),
        }
    }

    /// Leads, until it is held or the run is finished. False where there was no memory.
    pub fn lead(&self, rules: &Rules, mine: &mut Tally<L>) -> bool
        requires { mine.old.share.parts ≡ 1 }
        ensures { mine.new.share.parts ≡ 1 }
    {
        let mut hand = Hand::new(self.alloc);
        let led = self.lead_on(rules, &mut hand, mine);
        self.lay_down(led, hand);
        led != Led::Failed
    }
}
