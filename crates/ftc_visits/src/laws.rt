//! What becomes of the list of the visits that were made.

ghost use Rattle.std.specs.Prelude.{◌≡◌, ◌++◌, [], ◌∷◌, ℕ, true, List, Some};
ghost use Rattle.ftc_base.specs.declared.ask.Ask.TheVariants.{Finish};
ghost use Rattle.ftc_base.specs.declared.ask.Finish.{Finish as AnEnd};
ghost use Rattle.ftc_journal.specs.declared.event.Event.{Event as AnEvent};
ghost use Rattle.ftc_journal.specs.declared.event.Event.TheVariants as event;
ghost use Rattle.ftc_journal.specs.declared.event.VisitName.{VisitName as AVisitName};
ghost use Rattle.ftc_protocol.specs.Setting.{Setting};
ghost use Rattle.ftc_protocol.specs.State.{ChainState, opening};
ghost use Rattle.ftc_protocol.specs.Legal.{IsLegal};
ghost use Rattle.ftc_protocol.specs.Next.{next};
ghost use Rattle.ftc_protocol.specs.Run.{IsRunState};
ghost use Rattle.ftc_txn.specs.Head.{RunsUnwounded};
ghost use Rattle.ftc_txn.specs.Slots.{Running as ARunning};
ghost use Rattle.ftc_server.specs.declared.server.Server.{Server};
ghost use Rattle.ftc_server.specs.Looks.{ask_in};
ghost use Rattle.ftc_server.specs.Steps.{HasVisited};
ghost use Rattle.ftc_refinement.specs.Contents.{IsServerAt};
ghost use Rattle.ftc_visits.specs.declared.visit.MadeVisit.{MadeVisit as AMadeVisit};
ghost use Rattle.ftc_visits.specs.Made.{AreMade, IsMadeBy, keeps_visits};
ghost use Rattle.ftc_visits.specs.Undoing.{without};

use ftc_protocol::{order_of_a_state, what_is_undone};
use ftc_serial::{what_is_taken_in_turn, what_it_reads};
use ftc_ties::logs_last;

/// At first there is no visit.
pub fn made_visits_begin()
    ensures { (setting : Setting) → AreMade setting (opening setting) [] }
{}

/// An event that neither makes nor undoes visits leaves them as they are.
pub fn made_visits_stay()
    ensures { (setting : Setting) (state : ChainState) (event : AnEvent) (visits : List AMadeVisit) →
        IsRunState setting state → IsLegal setting state event → keeps_visits event ≡ true →
        AreMade setting state visits → AreMade setting (next setting state event) visits }
{
    logs_last();
}

/// The visit that a server commits stands behind the others, with what it needs by the vector that the server has then.
pub fn a_made_visit_is_added()
    ensures { (setting : Setting) (state : ChainState) (server worker : ℕ) (running : ARunning) (end : AnEnd)
        (old new : Server) (visits : List AMadeVisit) (made : AMadeVisit) → IsRunState setting state →
        IsLegal setting state (event.Visit server running.packet worker) →
        IsServerAt setting state server old → RunsUnwounded old.head worker running →
        ask_in old worker ≡ Some (Finish end) → HasVisited old new worker running end →
        IsMadeBy setting.partitions server running.packet running.answers new.head.vector made →
        AreMade setting state visits →
        ∥ AreMade setting (next setting state (event.Visit server running.packet worker)) (visits ++ made ∷ []) ∥₁ }
{
    order_of_a_state();
    what_is_taken_in_turn();
    what_it_reads();
    logs_last();
}

/// A recovery leaves the visits that it doesn't undo, in their order.
pub fn undone_visits_are_dropped()
    ensures { (setting : Setting) (state : ChainState) (server : ℕ) (undone : List AVisitName)
        (visits : List AMadeVisit) → IsRunState setting state →
        IsLegal setting state (event.Recover server undone) → AreMade setting state visits →
        AreMade setting (next setting state (event.Recover server undone)) (without undone visits) }
{
    what_is_undone();
    logs_last();
}
