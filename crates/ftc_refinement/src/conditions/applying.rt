//! Logs that a server may apply, and numbers that may rise.

ghost use Rattle.std.specs.Prelude.{◌≡◌, ◌<◌, ◌-◌, ◌^◌, ℕ, true};
ghost use Rattle.ftc_journal.specs.declared.event.Event.TheVariants as event;
ghost use Rattle.ftc_protocol.specs.Setting.{Setting};
ghost use Rattle.ftc_protocol.specs.State.{ChainState};
ghost use Rattle.ftc_protocol.specs.Legal.{IsLegal};
ghost use Rattle.ftc_protocol.specs.Run.{IsRunState};
ghost use Rattle.ftc_server.specs.declared.server.Server.{Server};
ghost use Rattle.ftc_server.specs.Looks.{may_apply_in};
ghost use Rattle.ftc_server.specs.Replicas.{replica_at, may_rise, may_rise_in};
ghost use Rattle.ftc_refinement.specs.Contents.{IsServerAt};

use ftc_protocol::{losses, order_of_a_state};
use ftc_server::rising;
use ftc_ties::{numbers_order, trace_short, what_vectors_say};
use ftc_vector::order_tests;

/// The held message has the log that the event names, and it may be applied to the replica of its group. The numbers
/// of that replica may rise, where there were fewer events than the greatest number of 64 bits.
pub fn what_apply_wants()
    ensures ready { (setting : Setting) (state : ChainState) (server origin group packet : ℕ) (old : Server) →
        IsRunState setting state → IsLegal setting state (event.Apply server origin group packet) →
        IsServerAt setting state server old → may_apply_in old origin group packet ≡ true }
    ensures rise { (setting : Setting) (state : ChainState) (server origin group packet : ℕ) (old : Server) →
        IsRunState setting state → IsLegal setting state (event.Apply server origin group packet) →
        IsServerAt setting state server old → state.events < 2 ^ 64 - 1 →
        may_rise_in (replica_at old.others.items group) ≡ true }
{
    order_of_a_state();
    what_vectors_say();
    order_tests();
    losses();
    trace_short();
    numbers_order();
    rising();
}

/// The numbers of a server's own group may rise, where there were fewer events than the greatest number of 64 bits.
pub fn what_a_commit_wants()
    ensures { (setting : Setting) (state : ChainState) (server : ℕ) (old : Server) → IsRunState setting state →
        IsServerAt setting state server old → state.events < 2 ^ 64 - 1 → may_rise old.head.vector ≡ true }
{
    losses();
    trace_short();
    numbers_order();
    rising();
}
