//! What work a held message has.

ghost use Rattle.std.specs.Prelude.{◌≡◌, ◌↔◌, ℕ, true, Some, None};
ghost use Rattle.ftc_journal.specs.declared.event.Event.TheVariants as event;
ghost use Rattle.ftc_protocol.specs.Setting.{Setting};
ghost use Rattle.ftc_protocol.specs.State.{ChainState, Message as AMessage};
ghost use Rattle.ftc_protocol.specs.Legal.{MayHappen, MayLeave};
ghost use Rattle.ftc_protocol.specs.Run.{IsRunState};
ghost use Rattle.ftc_message.specs.Logged.{logs_rise};
ghost use Rattle.ftc_server.specs.declared.held.HeldMessage.{HeldMessage as AHeldMessage};
ghost use Rattle.ftc_server.specs.Holding.{found};
ghost use Rattle.ftc_server.specs.declared.server.Server.{Server};
ghost use Rattle.ftc_server.specs.declared.work.Work.TheVariants.{Apply, Visit, Send, Carry};
ghost use Rattle.ftc_server.specs.Looks.{work_in};
ghost use Rattle.ftc_refinement.specs.Contents.{IsServerAt};

use crate::ready::what_is_ready;
use ftc_protocol::order_of_a_state;
use ftc_ties::what_vectors_say;
use ftc_vector::order_tests;

/// A held message is to be visited exactly where its visit may happen, and to be sent exactly where it may leave. A log
/// that is to be applied may be, where those of the message rise by packet and group; and so may a message be carried
/// that is to be.
pub fn what_work_says()
    ensures visit { (setting : Setting) (state : ChainState) (server origin worker : ℕ) (old : Server) →
        IsRunState setting state → IsServerAt setting state server old →
        (work_in old origin ≡ Some Visit) ↔ MayHappen setting state (event.Visit server origin worker) }
    ensures send { (setting : Setting) (state : ChainState) (server origin : ℕ) (old : Server) →
        IsRunState setting state → IsServerAt setting state server old →
        (work_in old origin ≡ Some Send) ↔ ((message : AMessage) × MayLeave setting state server origin message) }
    ensures apply { (setting : Setting) (state : ChainState) (server origin group packet : ℕ) (held : AHeldMessage)
        (old : Server) → IsRunState setting state → IsServerAt setting state server old →
        found origin old.held.items ≡ Some held → logs_rise None held.message.logs ≡ true →
        work_in old origin ≡ Some (Apply group packet) →
        MayHappen setting state (event.Apply server origin group packet) }
    ensures carry { (setting : Setting) (state : ChainState) (origin : ℕ) (old : Server) →
        IsRunState setting state → IsServerAt setting state 0 old → work_in old origin ≡ Some Carry →
        MayHappen setting state (event.Carry origin) }
{
    what_is_ready();
    order_of_a_state();
    what_vectors_say();
    order_tests();
}
