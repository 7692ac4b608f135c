//! Logs that a server applies.

ghost use Rattle.std.specs.Prelude.{ℕ};
ghost use Rattle.ftc_journal.specs.declared.event.Event.TheVariants as event;
ghost use Rattle.ftc_protocol.specs.Setting.{Setting};
ghost use Rattle.ftc_protocol.specs.State.{ChainState};
ghost use Rattle.ftc_protocol.specs.Legal.{IsLegal};
ghost use Rattle.ftc_protocol.specs.Next.{next};
ghost use Rattle.ftc_protocol.specs.Run.{IsRunState};
ghost use Rattle.ftc_server.specs.declared.server.Server.{Server};
ghost use Rattle.ftc_server.specs.Steps.{HasApplied};
ghost use Rattle.ftc_refinement.specs.Contents.{IsServerAt};

use ftc_protocol::order_of_a_state;
use ftc_ring::ends;
use ftc_standing::a_log_is_applied;

/// The log of a held message is applied to the replica of its group.
pub fn what_apply_does()
    ensures { (setting : Setting) (state : ChainState) (server origin group packet : ℕ) (old new : Server) →
        IsRunState setting state → IsLegal setting state (event.Apply server origin group packet) →
        IsServerAt setting state server old → HasApplied old new origin group packet →
        IsServerAt setting (next setting state (event.Apply server origin group packet)) server new }
{
    order_of_a_state();
    ends();
    a_log_is_applied();
}
