//! The words of a command: which command they are, and what they give it.
#![tactic(auto)]

mod command;
mod forms;
pub mod limits;
mod matches;
mod reading;
mod sorting;

pub use command::{Command, Mode, Move, Names};
pub use reading::{command_of, read_command};

#[cfg(test)]
mod tests;
