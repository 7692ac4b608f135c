//! What each call of one server does to the state of the protocol: its contract leaves the server standing for the
//! state after the event, and where the event is legal the call may be made. And which jobs are legal and come first,
//! by what servers and links have. Nothing here runs.
#![tactic(auto)]

mod applying;
mod conditions;
mod dropping;
mod due;
mod first_jobs;
mod leaving;
mod pulling;
mod ready;
mod reviving;
mod still;
mod taking;
mod visiting;
mod whole_work;
mod working;

pub use applying::what_apply_does;
pub use conditions::{
    what_a_commit_wants, what_apply_wants, what_carry_wants, what_lines_up, what_pass_wants,
    what_take_wants, where_events_are,
};
pub use dropping::what_drop_unready_does;
pub use due::what_is_due;
pub use first_jobs::{held_in_turn, what_a_link_offers, what_enters, what_propagates, which_pulls};
pub use leaving::{what_carry_does, what_is_sent, what_pass_does, what_release_does};
pub use pulling::what_install_does;
pub use ready::{ready_messages_stay, what_is_ready};
pub use reviving::what_revive_makes;
pub use still::{what_new_makes, what_stays};
pub use taking::what_take_does;
pub use visiting::what_a_commit_does;
pub use whole_work::what_work_is;
pub use working::what_work_says;
