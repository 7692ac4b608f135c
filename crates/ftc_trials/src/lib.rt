//! Worked runs of the protocol, each written down as texts: lost messages, crashes and recoveries, visits that are
//! undone, readers and filters. The machine plays them event by event; so may whatever runs a chain.
#![tactic(auto)]

mod crashes;
mod down;
mod filters;
mod losses;
mod readers;
mod recoveries;
mod ring;
mod trial;
mod undone;

use crashes::CRASHES;
use down::DOWN;
use filters::FILTERS;
use losses::LOSSES;
use readers::READERS;
use recoveries::RECOVERIES;
use ring::RING;
pub use trial::{A, C, Change, D, NO_EVENTS, Trial};
use undone::UNDONE;

/// All trials, by what they are about.
pub const TRIALS: [&[Trial]; 8] = [
    &RING,
    &LOSSES,
    &CRASHES,
    &DOWN,
    &RECOVERIES,
    &UNDONE,
    &READERS,
    &FILTERS,
];

#[cfg(test)]
mod tests;
