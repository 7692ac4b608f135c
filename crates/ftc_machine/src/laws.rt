//! What the laws of the protocol say of the states of runs.

ghost use Rattle.ftc_protocol.specs.Setting.{Setting};
ghost use Rattle.ftc_machine.specs.Lawful.{AreLawful};

use ftc_protocol::{
    every_moment, fronts_of_a_state, needs_of_packets, order_of_a_state, what_is_undone,
};

/// The laws of the protocol together, of each state to which a run leads.
pub fn states_are_lawful()
    ensures { (setting : Setting) → AreLawful setting }
{
    every_moment();
    order_of_a_state();
    fronts_of_a_state();
    needs_of_packets();
    what_is_undone();
}
