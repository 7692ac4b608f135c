//! Messages that a server takes.

ghost use Rattle.std.specs.Prelude.{◌≡◌, ◌+◌, ◌==◌, ◌∷◌, ℕ, false, true, List, Some, None};
ghost use Rattle.ftc_journal.specs.declared.event.Event.TheVariants as event;
ghost use Rattle.ftc_link.specs.Queue.{Queue as AQueue};
ghost use Rattle.ftc_message.specs.declared.message.Message.{Message as SentMessage};
ghost use Rattle.ftc_ring.specs.Ring.{next_of};
ghost use Rattle.ftc_protocol.specs.Setting.{Setting, servers, packet_at};
ghost use Rattle.ftc_protocol.specs.State.{ChainState};
ghost use Rattle.ftc_protocol.specs.Legal.{IsLegal};
ghost use Rattle.ftc_protocol.specs.Next.{next};
ghost use Rattle.ftc_protocol.specs.Run.{IsRunState};
ghost use Rattle.ftc_server.specs.declared.server.Server.{Server};
ghost use Rattle.ftc_server.specs.Steps.{HasTaken};
ghost use Rattle.ftc_standing.specs.Stand.{IsBegun, IsLink};
ghost use Rattle.ftc_refinement.specs.Contents.{IsServerAt};

use ftc_standing::{a_message_begins, a_message_is_taken};

/// Server 0 takes the message of a packet that enters, or one that begins without a packet; and the receiver of a
/// link takes its oldest message.
pub fn what_take_does()
    ensures entered { (setting : Setting) (state : ChainState) (packet : ℕ) (old new : Server) (sent : SentMessage) →
        IsRunState setting state → IsLegal setting state (event.Enter packet) → state.up 0 ≡ true →
        IsBegun packet (Some (packet_at setting packet)) sent → IsServerAt setting state 0 old →
        HasTaken old new sent false → IsServerAt setting (next setting state (event.Enter packet)) 0 new }
    ensures propagated { (setting : Setting) (state : ChainState) (origin : ℕ) (old new : Server) (sent : SentMessage) →
        IsRunState setting state → IsLegal setting state (event.Propagate origin) → IsBegun origin None sent →
        IsServerAt setting state 0 old → HasTaken old new sent false →
        IsServerAt setting (next setting state (event.Propagate origin)) 0 new }
    ensures received { (setting : Setting) (state : ChainState) (link origin : ℕ) (queue : AQueue) (sent : SentMessage)
        (rest : List SentMessage) (old new : Server) → IsRunState setting state →
        IsLegal setting state (event.Take link origin) → IsLink setting state link queue →
        queue.messages ≡ sent ∷ rest → IsServerAt setting state (next_of (servers setting) link) old →
        HasTaken old new sent (link + 1 == servers setting) →
        IsServerAt setting (next setting state (event.Take link origin)) (next_of (servers setting) link) new }
{
    a_message_begins();
    a_message_is_taken();
}
