//! Who leads, the seats at which the others wait for a visit or for the lead, and the slots of their visits.

use crate::lead::Lead;
use crate::seat::{Planned, Seat};
use crate::slots::Slots;
use ftc_base::WorkerId;
use ftc_base::limits::MOST_THREADS;
use std::array;
use std::sync::Wait;
use std::sync::atomic::{AtomicU32, Ordering};
use std::thread::yield_now;

/// How often a worker looks for something to do before it sleeps.
const LOOKS: u32 = 1000;

/// How often it looks before it gives its processor away.
const GLANCES: u32 = 16;

/// What a worker is to do.
#[derive(Debug, Drop)]
pub enum Duty {
    /// It leads.
    Lead,
    /// It passes the gate for this visit.
    Pass(Planned),
    /// Nothing now.
    Nothing,
    /// It ends.
    End,
}

/// Who leads, a seat for each worker, and as many slots as workers.
#[derive(Drop)]
pub struct Office {
    lead: Lead,
    seats: [Seat; MOST_THREADS as usize],
    /// How many of the seats are used, from the first one on.
    workers: u8,
    /// How many workers have come and aren't gone.
    present: AtomicU32,
    pub slots: Slots,
}

impl Office {
    /// Nobody leads yet, and nobody waits.
    pub fn new(workers: u8) -> Office {
        Office {
            lead: Lead::new(),
            seats: array::from_fn(|_| Seat::new()),
            workers,
            present: AtomicU32::new(0),
            slots: Slots::new(workers),
        }
    }

    /// Whether workers are to end.
    pub fn is_over(&self) -> bool {
        self.lead.is_over()
    }

    /// Whether that worker leads.
    pub fn is_led_by(&self, worker: WorkerId) -> bool {
        self.lead.is_of(worker)
    }

    /// The seats that are used.
    fn seats(&self) -> &[Seat] {
        let seats = self.seats.as_slice();
        match seats.get(..usize::from(self.workers)) {
            Some(used) => used,
            None => seats,
        }
    }

    /// How many workers are here.
    pub fn present(&self) -> u32 {
        self.present.load(Ordering::SeqCst)
    }

    /// A worker's seat.
    fn seat(&self, worker: WorkerId) -> Option<&Seat> {
        self.seats().get(usize::from(worker.number()))
    }

    /// The seat of a worker that waits for a visit.
    fn free_seat(&self) -> Option<&Seat> {
        for seat in self.seats() {
            if seat.is_free() {
                return Some(seat);
            }
        }
        None
    }
}

/// Wakes the first worker that sleeps.
fn wake_one<R: Wait>(rt: &R, office: &Office) {
    for seat in office.seats() {
        if seat.sleeps() {
            seat.ring(rt);
            return;
        }
    }
}

/// Wakes all workers.
fn wake_all<R: Wait>(rt: &R, office: &Office) {
    for seat in office.seats() {
        seat.ring(rt);
    }
}

/// The chain changed without the leader, or may now: it looks again.
pub fn ring_leader<R: Wait>(rt: &R, office: &Office) {
    if let Some(leader) = office.lead.leader() {
        if let Some(seat) = office.seat(leader) {
            seat.ring(rt);
        }
    }
}

/// A worker waits for a visit, and the leader is told.
pub fn wait_for_visit<R: Wait>(rt: &R, office: &Office, worker: WorkerId) {
    if let Some(seat) = office.seat(worker) {
        seat.set_free(true);
        ring_leader(rt, office);
    }
}

/// A worker came, and waits for a visit. A leader that counts it finds it free.
pub fn arrive<R: Wait>(rt: &R, office: &Office, worker: WorkerId) {
    wait_for_visit(rt, office, worker);
    office.present.fetch_add(1, Ordering::SeqCst);
}

/// A worker leads no more, and another that sleeps is woken, which leads if none does then.
pub fn give_up<R: Wait>(rt: &R, office: &Office, worker: WorkerId) {
    if office.lead.give_up(worker) {
        wake_one(rt, office);
    }
}

/// A worker is given nothing any more. The visit that it was given and hasn't made is left.
pub fn leave_seat<R: Wait>(rt: &R, office: &Office, worker: WorkerId) -> Option<Planned> {
    office.seat(worker)?.leave(rt)
}

/// The visit of a worker that leaves which passed the gate and isn't committed.
pub fn take_own_back<R: Wait>(rt: &R, office: &Office, worker: WorkerId) -> Option<Planned> {
    office.seat(worker)?.take_back(rt)
}

/// A worker is here no more, and all others look again.
pub fn depart<R: Wait>(rt: &R, office: &Office, worker: WorkerId) {
    office.present.fetch_sub(1, Ordering::SeqCst);
    office.lead.give_up(worker);
    wake_all(rt, office);
}

/// The run is finished, or the writer met a fault: all workers end.
pub fn close<R: Wait>(rt: &R, office: &Office) {
    office.lead.end();
    wake_all(rt, office);
}

/// What a worker is to do now, if anything. What was given to it comes before it leads.
fn duty_now<R: Wait>(rt: &R, office: &Office, worker: WorkerId, seat: &Seat) -> Option<Duty> {
    if office.is_over() {
        return Some(Duty::End);
    }
    if let Some(planned) = seat.take(rt) {
        return Some(Duty::Pass(planned));
    }
    if !office.lead.take(worker) {
        return None;
    }
    seat.set_free(false);
    match seat.take(rt) {
        Some(planned) => {
            give_up(rt, office, worker);
            Some(Duty::Pass(planned))
        }
        None => Some(Duty::Lead),
    }
}

/// Whether there may be something to do at a seat: looks some times.
fn glance(office: &Office, seat: &Seat) -> bool {
    for _ in 0..GLANCES {
        if seat.is_given() || !office.lead.is_taken() || office.is_over() {
            return true;
        }
    }
    false
}

/// Looks for something to do at a worker's seat, and sleeps where nothing comes.
pub fn wait_for_duty<R: Wait>(rt: &R, office: &Office, worker: WorkerId) -> Duty {
    let Some(seat) = office.seat(worker) else {
        return Duty::End;
    };
    for _ in 0..LOOKS {
        if glance(office, seat) {
            if let Some(duty) = duty_now(rt, office, worker, seat) {
                return duty;
            }
        }
        yield_now();
    }
    seat.sleep(rt, &office.lead);
    Duty::Nothing
}

/// The leader found nothing to do so many times in turn: it looks again, or sleeps until the chain changes.
pub fn wait_as_leader<R: Wait>(rt: &R, office: &Office, worker: WorkerId, turns: u32) {
    if turns < LOOKS {
        yield_now();
        return;
    }
    if let Some(seat) = office.seat(worker) {
        seat.sleep(rt, &office.lead);
    }
}

/// The leader gives a visit to the first worker that waits. It comes back where none does.
pub fn give<R: Wait>(rt: &R, office: &Office, planned: Planned) -> Result<(), Planned> {
    match office.free_seat() {
        Some(seat) => seat.give(rt, planned),
        None => Err(planned),
    }
}

/// A worker's visit passed the gate, and the leader is told.
pub fn put_back<R: Wait>(rt: &R, office: &Office, worker: WorkerId, done: Planned) {
    if let Some(seat) = office.seat(worker) {
        seat.put_back(rt, done);
        ring_leader(rt, office);
    }
}

/// A visit that passed the gate.
pub fn take_back<R: Wait>(rt: &R, office: &Office) -> Option<Planned> {
    for seat in office.seats() {
        let done = seat.take_back(rt);
        if done.is_some() {
            return done;
        }
    }
    None
}
