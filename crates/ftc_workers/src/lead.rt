//! Which worker leads, and whether all are to end.

use ftc_base::WorkerId;
use std::sync::atomic::{AtomicBool, AtomicU32, Ordering};

/// No slot has this number.
const NOBODY: u32 = u32::MAX;

/// The one worker that leads, if any does. Nothing that is proved rests on it: it says who does what.
#[derive(Drop)]
pub struct Lead {
    leader: AtomicU32,
    /// Workers are to end: the run is finished, or the writer met a fault.
    is_over: AtomicBool,
}

impl Lead {
    /// Nobody leads yet.
    pub fn new() -> Lead {
        Lead {
            leader: AtomicU32::new(NOBODY),
            is_over: AtomicBool::new(false),
        }
    }

    /// Whether workers are to end.
    pub fn is_over(&self) -> bool {
        self.is_over.load(Ordering::SeqCst)
    }

    /// Workers are to end.
    pub fn end(&self) {
        self.is_over.store(true, Ordering::SeqCst);
    }

    /// Whether some worker leads.
    pub fn is_taken(&self) -> bool {
        self.leader.load(Ordering::SeqCst) != NOBODY
    }

    /// The worker that leads.
    pub fn leader(&self) -> Option<WorkerId> {
        WorkerId::new(u8::try_from(self.leader.load(Ordering::SeqCst)).ok()?)
    }

    /// Whether that worker leads.
    pub fn is_of(&self, worker: WorkerId) -> bool {
        self.leader.load(Ordering::SeqCst) == u32::from(worker.number())
    }

    /// A worker leads from now on, unless another does. Whether it leads. Mostly another does, and a look is enough: a
    /// change that fails takes the number from the processors that read it.
    pub fn take(&self, worker: WorkerId) -> bool {
        let own = u32::from(worker.number());
        match self.leader.load(Ordering::SeqCst) {
            NOBODY => self.change(NOBODY, own),
            leader => leader == own,
        }
    }

    /// A worker leads no more. False where it didn't.
    pub fn give_up(&self, worker: WorkerId) -> bool {
        self.change(u32::from(worker.number()), NOBODY)
    }

    /// The number of the leader becomes another, where it is that one.
    fn change(&self, old: u32, new: u32) -> bool {
        let order = Ordering::SeqCst;
        self.leader.compare_exchange(old, new, order, order).is_ok()
    }
}
