//! A worker's seat, where the leader puts a visit for it, and from where the leader takes it back.

use crate::lead::Lead;
use ftc_base::{PacketNo, ServerId, WorkerId};
use ftc_mbox::Plan;
use std::sync::atomic::{AtomicBool, Ordering};
use std::sync::{Condvar, Mutex, Wait};

/// A visit whose plan is made: it passes the gate, and then it is committed.
#[derive(Debug, Drop)]
pub struct Planned {
    pub slot: WorkerId,
    pub server: ServerId,
    pub packet: PacketNo,
    pub plan: Box<Plan>,
}

/// What lies at a seat.
#[derive(Drop)]
struct Tray {
    /// For the worker.
    given: Option<Planned>,
    /// For the leader.
    done: Option<Planned>,
    /// The worker left.
    is_left: bool,
}

/// A worker's seat.
#[derive(Drop)]
pub struct Seat {
    tray: Mutex<Tray>,
    bell: Condvar,
    /// The bell was rung since the worker slept last.
    is_rung: AtomicBool,
    /// The worker sleeps until the bell is rung, or is about to.
    sleeps: AtomicBool,
    /// The worker waits for a visit.
    is_free: AtomicBool,
    /// A visit lies here for the worker.
    is_given: AtomicBool,
    /// A visit lies here for the leader.
    is_done: AtomicBool,
}

impl Seat {
    /// Nobody sits here yet, and nothing lies here.
    pub fn new() -> Seat {
        Seat {
            tray: Mutex::new(Tray {
                given: None,
                done: None,
                is_left: false,
            }),
            bell: Condvar::new(),
            is_rung: AtomicBool::new(false),
            sleeps: AtomicBool::new(false),
            is_free: AtomicBool::new(false),
            is_given: AtomicBool::new(false),
            is_done: AtomicBool::new(false),
        }
    }

    /// Whether the worker waits for a visit, and nothing lies here for the leader.
    pub fn is_free(&self) -> bool {
        self.is_free.load(Ordering::SeqCst) && !self.is_done.load(Ordering::SeqCst)
    }

    /// The worker waits for a visit, or doesn't any more.
    pub fn set_free(&self, free: bool) {
        self.is_free.store(free, Ordering::SeqCst);
    }

    /// Whether a visit lies here for the worker.
    pub fn is_given(&self) -> bool {
        self.is_given.load(Ordering::SeqCst)
    }

    /// The leader gives the worker a visit. It comes back where the worker left.
    pub fn give<R: Wait>(&self, rt: &R, planned: Planned) -> Result<(), Planned> {
        let mut tray = self.tray.lock(rt);
        if tray.is_left {
            return Err(planned);
        }
        tray.given = Some(planned);
        drop(tray);
        self.set_free(false);
        self.is_given.store(true, Ordering::SeqCst);
        self.ring(rt);
        Ok(())
    }

    /// The worker leaves, and nothing is given to it any more. What lies here for it is left undone.
    pub fn leave<R: Wait>(&self, rt: &R) -> Option<Planned> {
        self.set_free(false);
        let mut tray = self.tray.lock(rt);
        tray.is_left = true;
        tray.given.take()
    }

    /// The worker takes the visit that lies here for it.
    pub fn take<R: Wait>(&self, rt: &R) -> Option<Planned> {
        if !self.is_given.load(Ordering::SeqCst) {
            return None;
        }
        self.is_given.store(false, Ordering::SeqCst);
        self.tray.lock(rt).given.take()
    }

    /// The worker's visit passed the gate, and it waits for another one.
    pub fn put_back<R: Wait>(&self, rt: &R, done: Planned) {
        self.tray.lock(rt).done = Some(done);
        self.is_done.store(true, Ordering::SeqCst);
        self.set_free(true);
    }

    /// The leader takes the visit that passed the gate.
    pub fn take_back<R: Wait>(&self, rt: &R) -> Option<Planned> {
        if !self.is_done.load(Ordering::SeqCst) {
            return None;
        }
        self.is_done.store(false, Ordering::SeqCst);
        self.tray.lock(rt).done.take()
    }

    /// The worker sleeps until the bell is rung, unless it was since it slept last, nobody leads, or all are to end.
    pub fn sleep<R: Wait>(&self, rt: &R, lead: &Lead) {
        let tray = self.tray.lock(rt);
        self.sleeps.store(true, Ordering::SeqCst);
        if !self.is_rung.swap(false, Ordering::SeqCst) && lead.is_taken() && !lead.is_over() {
            let _tray = self.bell.wait(rt, tray);
        }
        self.sleeps.store(false, Ordering::SeqCst);
    }

    /// Rings the bell, which wakes the worker where it sleeps. One that is about to sleep has the tray until it does.
    pub fn ring<R: Wait>(&self, rt: &R) {
        self.is_rung.store(true, Ordering::SeqCst);
        if self.sleeps() {
            let _tray = self.tray.lock(rt);
            self.bell.notify_one();
        }
    }

    /// Whether the worker sleeps.
    pub fn sleeps(&self) -> bool {
        self.sleeps.load(Ordering::SeqCst)
    }
}
