//! What a leader has at hand.

use crate::latch::Begun;
use crate::seat::Planned;
use ftc_base::WorkerId;
use std::alloc::Global;
use std::collections::VecDeque;

/// The visits that a leader prepares.
#[derive(Drop)]
pub struct Hand {
    /// The slot in which it begins its next visit.
    pub slot: Option<WorkerId>,
    /// A visit for the next worker that waits.
    pub ready: Option<Planned>,
    /// Visits that wait until older transactions end.
    blocked: VecDeque<Begun>,
    /// Since those were looked at last, a transaction may have ended.
    is_freed: bool,
}

impl Hand {
    /// Nothing yet.
    pub fn new(alloc: Global) -> Hand {
        Hand {
            slot: None,
            ready: None,
            blocked: VecDeque::new(alloc),
            is_freed: false,
        }
    }

    /// How many visits wait.
    pub fn blocked(&self) -> usize {
        self.blocked.len()
    }

    /// How many visits are to be looked at again: all that wait, where a transaction may have ended and none is ready.
    pub fn count_again(&self) -> usize {
        if self.is_freed && self.ready.is_none() {
            self.blocked.len()
        } else {
            0
        }
    }

    /// Some transaction ended, or else none since the visits that wait were looked at.
    pub fn set_freed(&mut self, is_freed: bool) {
        self.is_freed = is_freed;
    }

    /// A visit waits. It comes back where there is no memory for it.
    pub fn block(&mut self, begun: Begun) -> Result<(), Begun> {
        if self.blocked.reserve(1).is_err() {
            return Err(begun);
        }
        self.blocked.push_back_reserved(begun);
        Ok(())
    }

    /// The visit that waits longest.
    pub fn unblock(&mut self) -> Option<Begun> {
        self.blocked.pop_front()
    }
}
