//! The protocol as a machine over sets of visits: when an event is legal, what it does, and what became
//! of each packet. It has no vector, log, frame or lock: what the chain of servers does is judged by it.
#![tactic(auto)]

mod effects;
mod event_copy;
mod laws;
mod legality;
mod machine;
mod recovery;
mod replaying;
mod state;
mod trace;

pub use machine::{Illegal, Machine};
pub use replaying::{IllegalEvent, fates_of, replay};
pub use trace::trace_of;
