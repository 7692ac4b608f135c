//! Released packets go through a ring to a writer, which puts their records and tells taps of them.
#![tactic(auto)]

mod fault;
mod flow;
mod laws;
mod page;
mod putting;
mod sink;
mod taps;

pub use fault::PutFault;
pub use flow::{Sender, Writer, ring};
pub use laws::{constant_taps_stay, none_is_passed_over};
pub use page::Page;
pub use putting::put;
pub use sink::Sink;
pub use taps::{Seen, Taps};

#[cfg(test)]
mod tests;
