//! The visits that stand in the trace of a chain of servers, each with what a replica of its group needs for it to
//! have the visit. They tell, by numbers alone, which visits the recovery of a server undoes.
#![tactic(auto)]

mod laws;
mod undoing;
mod visit;
mod visits;

pub use laws::{
    a_made_visit_is_added, made_visits_begin, made_visits_stay, undone_visits_are_dropped,
};
pub use visit::{MadeVisit, Mark, made};
pub use visits::MadeVisits;

#[cfg(test)]
mod tests;
