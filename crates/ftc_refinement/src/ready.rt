//! When a held message has all its logs.

ghost use Rattle.std.specs.Prelude.{◌≡◌, ◌≢◌, ◌↔◌, ℕ, Bool, true, Some};
ghost use Rattle.ftc_journal.specs.declared.event.Event.{Event as AnEvent};
ghost use Rattle.ftc_journal.specs.declared.event.Event.TheVariants as event;
ghost use Rattle.ftc_protocol.specs.Setting.{Setting};
ghost use Rattle.ftc_protocol.specs.State.{ChainState, Held, Message as AMessage};
ghost use Rattle.ftc_protocol.specs.Known.{IsReady};
ghost use Rattle.ftc_protocol.specs.Legal.{IsLegal};
ghost use Rattle.ftc_protocol.specs.Next.{next};
ghost use Rattle.ftc_protocol.specs.Run.{IsRunState};
ghost use Rattle.ftc_server.specs.declared.held.HeldMessage.{HeldMessage as AHeldMessage};
ghost use Rattle.ftc_server.specs.declared.server.Server.{Server};
ghost use Rattle.ftc_server.specs.Holding.{found};
ghost use Rattle.ftc_server.specs.Replicas.{is_ready};
ghost use Rattle.ftc_refinement.specs.Contents.{IsServerAt};

use ftc_protocol::order_of_a_state;
use ftc_ties::{every_state_tied, logs_of_messages, what_vectors_say};

/// The replicas of a server have all logs of a held message exactly where its visits are had there.
pub fn what_is_ready()
    ensures { (setting : Setting) (state : ChainState) (server origin : ℕ) (visited by_ring : Bool) (message : AMessage)
        (held : AHeldMessage) (old : Server) → IsRunState setting state → IsServerAt setting state server old →
        state.message origin ≡ Some message → message.place ≡ Held server visited by_ring →
        found origin old.held.items ≡ Some held →
        (is_ready old.others.items held ≡ true) ↔ IsReady setting state server message }
{
    order_of_a_state();
    logs_of_messages();
    what_vectors_say();
}

/// A message that is ready at the server that holds it stays ready there, as long as the server holds it and its packet
/// isn't visited.
pub fn ready_messages_stay()
    ensures { (setting : Setting) (state : ChainState) (step : AnEvent) (server origin : ℕ)
        (visited by_ring now_visited now_by_ring : Bool) (message after : AMessage) → IsRunState setting state →
        IsLegal setting state step → ((visitor worker : ℕ) → step ≢ event.Visit visitor origin worker) →
        state.message origin ≡ Some message → message.place ≡ Held server visited by_ring →
        IsReady setting state server message → (next setting state step).message origin ≡ Some after →
        after.place ≡ Held server now_visited now_by_ring → IsReady setting (next setting state step) server after }
{
    every_state_tied();
}
