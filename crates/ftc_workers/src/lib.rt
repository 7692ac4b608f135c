//! Worker threads over one chain. They take turns under one latch, ask the rules and pass the gate outside it, and
//! count their commits in a ledger.
#![tactic(auto)]

mod batch;
mod beside;
mod calls;
mod choosing;
mod driving;
mod hand;
mod latch;
mod lead;
mod leading;
mod office;
mod outlet;
mod preparing;
mod seat;
mod shared;
mod slots;
mod spreading;
mod tally;
mod visiting;
mod worked;
mod written;

pub use worked::{Worked, run};
pub use written::{Written, run_to};

#[cfg(test)]
mod tests;
