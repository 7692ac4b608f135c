//! The check of a run's files: whether a journal, an OUT and a report are those of one run of the protocol.
#![tactic(auto)]

mod checking;
mod difference;
mod laws;
mod report;
mod verdict;

pub use checking::check;
pub use difference::first_difference;
pub use laws::{one_difference, one_front, one_verdict, own_report, right_files, right_runs};
pub use report::without_taps;
pub use verdict::Checked;

#[cfg(test)]
mod tests;
