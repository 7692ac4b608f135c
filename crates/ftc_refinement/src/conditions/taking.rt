//! Messages that a server may take.

ghost use Rattle.std.specs.Prelude.{◌≡◌, ◌+◌, ◌==◌, ◌∷◌, ℕ, false, true, List, Some, None};
ghost use Rattle.ftc_journal.specs.declared.event.Event.TheVariants as event;
ghost use Rattle.ftc_link.specs.Queue.{Queue as AQueue};
ghost use Rattle.ftc_message.specs.declared.message.Message.{Message as SentMessage};
ghost use Rattle.ftc_ring.specs.Ring.{next_of};
ghost use Rattle.ftc_protocol.specs.Setting.{Setting, servers, packet_at};
ghost use Rattle.ftc_protocol.specs.State.{ChainState};
ghost use Rattle.ftc_protocol.specs.Legal.{IsLegal};
ghost use Rattle.ftc_protocol.specs.Run.{IsRunState};
ghost use Rattle.ftc_server.specs.declared.server.Server.{Server};
ghost use Rattle.ftc_server.specs.Holding.{is_held, arrived};
ghost use Rattle.ftc_server.specs.Slots.{is_open};
ghost use Rattle.ftc_standing.specs.Stand.{IsBegun, IsLink};
ghost use Rattle.ftc_refinement.specs.Contents.{IsServerAt};

use ftc_protocol::order_of_a_state;
use ftc_standing::a_message_is_taken;
use ftc_ties::what_is_queued;

/// A server may take what begins at server 0, and the receiver of a link its oldest message: none of that origin is
/// held, and it has no log and no need of the server's own group. The oldest is the one that the event names.
pub fn what_take_wants()
    ensures entered { (setting : Setting) (state : ChainState) (packet : ℕ) (old : Server) (sent : SentMessage) →
        IsRunState setting state → IsLegal setting state (event.Enter packet) →
        IsBegun packet (Some (packet_at setting packet)) sent → IsServerAt setting state 0 old →
        (is_held sent.origin old.held.items ≡ false) × (is_open old.id (arrived sent false) ≡ true) }
    ensures propagated { (setting : Setting) (state : ChainState) (origin : ℕ) (old : Server) (sent : SentMessage) →
        IsRunState setting state → IsLegal setting state (event.Propagate origin) → IsBegun origin None sent →
        IsServerAt setting state 0 old →
        (is_held sent.origin old.held.items ≡ false) × (is_open old.id (arrived sent false) ≡ true) }
    ensures oldest { (setting : Setting) (state : ChainState) (link origin : ℕ) (queue : AQueue) →
        IsRunState setting state → IsLegal setting state (event.Take link origin) → IsLink setting state link queue →
        (sent : SentMessage) × (rest : List SentMessage) × (queue.messages ≡ sent ∷ rest) × (sent.origin ≡ origin) }
    ensures received { (setting : Setting) (state : ChainState) (link origin : ℕ) (queue : AQueue) (sent : SentMessage)
        (rest : List SentMessage) (old : Server) → IsRunState setting state →
        IsLegal setting state (event.Take link origin) → IsLink setting state link queue →
        queue.messages ≡ sent ∷ rest → IsServerAt setting state (next_of (servers setting) link) old →
        (is_held sent.origin old.held.items ≡ false)
        × (is_open old.id (arrived sent (link + 1 == servers setting)) ≡ true) }
{
    order_of_a_state();
    a_message_is_taken();
    what_is_queued();
}
