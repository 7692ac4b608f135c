//! What the chain sees of the world: a desk of files, which counts its faults, taps, which are told what is put, and a
//! gate, which visits pass.
#![tactic(auto)]

mod desk;
mod failing;
mod files;
mod gate;
mod memory;
mod tap;

pub use desk::{Desk, DeskError};
pub use failing::FailingDesk;
pub use files::FileDesk;
pub use gate::{Gate, OpenGate};
pub use memory::MemoryDesk;
pub use tap::{CountTap, ListTap, Tap};

#[cfg(test)]
mod tests;
