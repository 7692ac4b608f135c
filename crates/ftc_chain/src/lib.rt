//! A chain of servers, driven job by job. What happened to it is its journal, a run of the protocol, and what its
//! servers have stands for the state to which that run leads.
#![tactic(auto)]

mod chain;
mod course;
mod events;
mod frames;
mod given;
mod happening;
mod members;
mod messages;
mod outlet;
mod releasing;
mod slots;

pub use chain::Chain;
pub use ftc_jobs::Jobs;

#[cfg(test)]
mod tests;
