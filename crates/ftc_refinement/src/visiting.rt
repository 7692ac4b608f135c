//! Visits that a server commits.

ghost use Rattle.std.specs.Prelude.{◌≡◌, ℕ, Some};
ghost use Rattle.ftc_base.specs.declared.ask.Finish.{Finish as AnEnd};
ghost use Rattle.ftc_base.specs.declared.ask.Ask.TheVariants.{Finish};
ghost use Rattle.ftc_journal.specs.declared.event.Event.TheVariants as event;
ghost use Rattle.ftc_protocol.specs.Setting.{Setting};
ghost use Rattle.ftc_protocol.specs.State.{ChainState};
ghost use Rattle.ftc_protocol.specs.Legal.{IsLegal};
ghost use Rattle.ftc_protocol.specs.Next.{next};
ghost use Rattle.ftc_protocol.specs.Run.{IsRunState};
ghost use Rattle.ftc_txn.specs.Slots.{Running as ARunning};
ghost use Rattle.ftc_txn.specs.Head.{RunsUnwounded};
ghost use Rattle.ftc_server.specs.declared.server.Server.{Server};
ghost use Rattle.ftc_server.specs.Looks.{ask_in};
ghost use Rattle.ftc_server.specs.Steps.{HasVisited};
ghost use Rattle.ftc_refinement.specs.Contents.{IsServerAt};

use ftc_protocol::order_of_a_state;
use ftc_ring::ends;
use ftc_serial::{what_is_taken_in_turn, what_it_reads};
use ftc_standing::a_visit_is_made;

/// What a slot runs is committed: its answers came in turn and are what the head's store has, so that its visit is the
/// one that the protocol makes of the packet.
pub fn what_a_commit_does()
    ensures { (setting : Setting) (state : ChainState) (server worker : ℕ) (running : ARunning) (end : AnEnd)
        (old new : Server) → IsRunState setting state →
        IsLegal setting state (event.Visit server running.packet worker) →
        IsServerAt setting state server old → RunsUnwounded old.head worker running →
        ask_in old worker ≡ Some (Finish end) → HasVisited old new worker running end →
        ∥ IsServerAt setting (next setting state (event.Visit server running.packet worker)) server new ∥₁ }
{
    order_of_a_state();
    what_is_taken_in_turn();
    what_it_reads();
    ends();
    a_visit_is_made();
}
