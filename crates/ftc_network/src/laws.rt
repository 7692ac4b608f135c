//! What an event leaves in place.

ghost use Rattle.std.specs.Prelude.{◌≡◌, ℕ, Option, Some};
ghost use Rattle.ftc_journal.specs.declared.event.Event.{Event as AnEvent};
ghost use Rattle.ftc_journal.specs.declared.event.Event.TheVariants as event;
ghost use Rattle.ftc_mbox.specs.Ask.{ask};
ghost use Rattle.ftc_protocol.specs.Setting.{Setting, rule_at};
ghost use Rattle.ftc_protocol.specs.State.{ChainState};
ghost use Rattle.ftc_protocol.specs.Drive.{IsNoneDue};
ghost use Rattle.ftc_protocol.specs.Legal.{IsLegal};
ghost use Rattle.ftc_protocol.specs.Next.{next, message_bytes};
ghost use Rattle.ftc_protocol.specs.Run.{IsRunState};
ghost use Rattle.ftc_server.specs.declared.server.Server.{Server};
ghost use Rattle.ftc_server.specs.Looks.{ask_in};
ghost use Rattle.ftc_standing.specs.View.{IsBesideServer};
ghost use Rattle.ftc_txn.specs.Slots.{Running, slot_at};
ghost use Rattle.ftc_refinement.specs.Contents.{IsServerAt};
ghost use Rattle.ftc_network.specs.Slots.{bytes_run};
ghost use Rattle.ftc_network.specs.Stand.{IsSlot, IsUp, AreReady, RunNothingElse};

use ftc_refinement::{ready_messages_stay, what_is_ready};
use ftc_standing::{others_as_before, servers_stand_still};

/// What the slots of a server run stays ready through each event, as long as they run nothing else: what a server has
/// of the logs of a message it keeps, and the packet that a slot runs isn't visited.
pub fn slots_stay_ready()
    ensures { (setting : Setting) (state : ChainState) (event : AnEvent) (number : ℕ) (old new : Server) →
        IsRunState setting state → IsLegal setting state event → IsServerAt setting state number old →
        IsServerAt setting (next setting state event) number new → RunNothingElse old new → AreReady old →
        AreReady new }
{
    what_is_ready();
    ready_messages_stay();
}

/// The visit of what a slot runs is legal at every moment at which no release is due.
pub fn what_runs_may_be_visited()
    ensures { (setting : Setting) (state : ChainState) (number worker : ℕ) (server : Server) (running : Running) →
        IsRunState setting state → IsUp setting state number server → IsNoneDue setting state →
        slot_at server.head.slots worker ≡ Some running →
        ∥ IsLegal setting state (event.Visit number running.packet worker) ∥₁ }
{
    what_is_ready();
}

/// What the rule is asked for what a slot runs is what it is asked for the packet of the message in the state, after
/// the slot's answers.
pub fn what_slots_ask()
    ensures bytes { (setting : Setting) (state : ChainState) (number worker : ℕ) (server : Server) (running : Running) →
        IsRunState setting state → IsUp setting state number server → IsNoneDue setting state →
        slot_at server.head.slots worker ≡ Some running →
        bytes_run server (Some running) ≡ Some (message_bytes (state.message running.packet)) }
    ensures asks { (setting : Setting) (state : ChainState) (number worker : ℕ) (server : Server) (running : Running) →
        IsRunState setting state → IsUp setting state number server → IsNoneDue setting state →
        slot_at server.head.slots worker ≡ Some running →
        ask_in server worker
        ≡ Some (ask (rule_at setting number) (message_bytes (state.message running.packet)) running.answers) }
{}

/// A server in which an event has no part stands for what is there after it.
pub fn servers_beside()
    ensures { (setting : Setting) (state : ChainState) (event : AnEvent) (number : ℕ) (slot : Option Server) →
        IsRunState setting state → IsLegal setting state event → IsBesideServer setting state event number →
        IsSlot setting state number slot → IsSlot setting (next setting state event) number slot }
{
    slots_stay_ready();
    others_as_before();
    servers_stand_still();
}
