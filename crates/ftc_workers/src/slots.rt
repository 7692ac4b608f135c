//! The slots of the workers: which of them visits use.

use ftc_base::WorkerId;
use ftc_base::limits::MOST_THREADS;
use std::array;
use std::sync::atomic::{AtomicBool, Ordering};

/// As many slots as there are workers. A visit has one from its begin until it is committed or given up.
#[derive(Drop)]
pub struct Slots {
    is_used: [AtomicBool; MOST_THREADS as usize],
    /// How many there are, from the first one on.
    count: u8,
}

impl Slots {
    /// No visit uses one yet.
    pub fn new(count: u8) -> Slots {
        Slots {
            is_used: array::from_fn(|_| AtomicBool::new(false)),
            count,
        }
    }

    /// Whether a slot was free, which is used from now on.
    fn try_take(&self, slot: WorkerId) -> bool {
        match self.is_used.as_slice().get(usize::from(slot.number())) {
            Some(is_used) => !is_used.swap(true, Ordering::SeqCst),
            None => false,
        }
    }

    /// A slot that no visit uses is used from now on: the first choice, or else the first that is free.
    pub fn take(&self, first_choice: WorkerId) -> Option<WorkerId> {
        if self.try_take(first_choice) {
            return Some(first_choice);
        }
        for number in 0..self.count {
            let slot = WorkerId::new(number)?;
            if self.try_take(slot) {
                return Some(slot);
            }
        }
        None
    }

    /// No visit uses a slot any more.
    pub fn free(&self, slot: WorkerId) {
        if let Some(is_used) = self.is_used.as_slice().get(usize::from(slot.number())) {
            is_used.store(false, Ordering::SeqCst);
        }
    }
}
