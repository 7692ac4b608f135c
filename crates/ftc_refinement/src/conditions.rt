//! What the calls of a server want, where the protocol allows the event: what the server that stands for the state
//! has, and which servers are up.

mod applying;
mod leaving;
mod lengths;
mod places;
mod taking;

pub use applying::{what_a_commit_wants, what_apply_wants};
pub use leaving::{what_carry_wants, what_pass_wants};
pub use lengths::what_lines_up;
pub use places::where_events_are;
pub use taking::what_take_wants;
