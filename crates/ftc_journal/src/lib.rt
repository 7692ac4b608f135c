//! The journal of a run: its events in order, and their text.
#![tactic(auto)]

mod bounds;
mod event;
mod fault;
mod form;
mod job;
mod journal;
mod laws;
pub mod limits;
mod line;
mod numerals;
mod parsing;
mod printer;
mod reader;

pub use event::{Event, VisitName, VisitNames};
pub use fault::{JournalCause, JournalFault};
pub use job::{Job, job_of};
pub use journal::Journal;
pub use laws::{faults, spellings};
pub use printer::print;
pub use reader::read;

#[cfg(test)]
mod tests;
