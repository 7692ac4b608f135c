//! The protocol of the chain of servers, and what is so of every run of it. Its definitions are those of
//! `specs/`: the state of a run, when an event is legal and what it does, over sets of visits. They have no
//! vector, log, frame or lock: what the chain of servers does is judged by them. Nothing here runs
//! but what makes the ring of a chain.
#![tactic(auto)]

mod chain_ring;
mod driving;
mod endings;
mod examples;
mod fate;
mod journals;
mod outcomes;
mod packets;
mod settings;
mod states;

pub use chain_ring::ring_of;
pub use driving::{
    drive, finish, first_job, jobs_of_events, plain_drive, play, releases, times_apart, work,
};
pub use endings::{every_event_goes_on, every_run_ends, finished_run, plain_run, quiet_links};
pub use examples::{a_release_after_a_crash, a_visit_undone};
pub use fate::{Fate, Fates};
pub use journals::{few_propagates, licence, runs, serial_of_a_run, trace_of_a_run};
pub use outcomes::{law_of_changes, what_tests_say};
pub use packets::{
    each_visit_once, fates, losses, plain_fates, released_for_good, what_a_run_released,
};
pub use settings::accepted;
pub use states::{
    every_moment, fronts_of_a_state, logs_ride_once, messages_ahead, needs_of_packets,
    order_of_a_state, what_is_undone, what_stands, withheld_packets,
};
