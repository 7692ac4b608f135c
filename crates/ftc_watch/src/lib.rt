//! Heartbeats make a script: a server that is silent too long is fenced where the ring can spare it,
//! and is replaced at the next tick.
#![tactic(auto)]

mod beats;
mod fault;
mod held;
mod laws;
pub mod limits;
mod members;
mod printer;
mod reader;
mod tick;
mod watcher;
mod watching;
mod words;

pub use beats::Beats;
pub use fault::{BeatsCause, BeatsFault};
pub use held::Held;
pub use laws::{
    accepted, beating, fenced_exactly, held_lines_of_a_tick, lines_of_a_tick, makes_a_script,
    missed_at_a_tick, reads_back, silent_in_a_row,
};
pub use printer::summary;
pub use reader::read_beats;
pub use tick::Tick;
pub use watching::{Watched, watch};

#[cfg(test)]
mod tests;
