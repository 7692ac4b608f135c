//! Messages and packets that leave a server.

ghost use Rattle.std.specs.Prelude.{◌≡◌, ◌+◌, ◌++◌, ◌∷◌, ◌&&◌, [], ℕ, Bool, true, false, not, Some, None};
ghost use Rattle.ftc_edge.specs.declared.buffer.Withheld.{Withheld as WithheldPacket};
ghost use Rattle.ftc_edge.specs.Due.{first_due};
ghost use Rattle.ftc_journal.specs.declared.event.Event.TheVariants as event;
ghost use Rattle.ftc_link.specs.Queue.{Queue as AQueue};
ghost use Rattle.ftc_message.specs.declared.message.Message.{Message as SentMessage};
ghost use Rattle.ftc_protocol.specs.Setting.{Setting, servers};
ghost use Rattle.ftc_protocol.specs.State.{ChainState};
ghost use Rattle.ftc_protocol.specs.Legal.{IsLegal, is_sent};
ghost use Rattle.ftc_protocol.specs.Next.{next, is_away};
ghost use Rattle.ftc_protocol.specs.Run.{IsRunState};
ghost use Rattle.ftc_server.specs.declared.server.Server.{Server};
ghost use Rattle.ftc_server.specs.Looks.{sent_in};
ghost use Rattle.ftc_server.specs.Steps.{HasPassed, HasCarried, HasReleased};
ghost use Rattle.ftc_standing.specs.View.{leaving};
ghost use Rattle.ftc_standing.specs.Stand.{IsLink};
ghost use Rattle.ftc_refinement.specs.Contents.{IsServerAt};

use ftc_protocol::order_of_a_state;
use ftc_ring::ends;
use ftc_standing::{
    a_message_is_carried, a_message_is_sent, a_message_leaves, a_packet_is_released,
};

/// A held message is passed on, or lost by the link.
pub fn what_pass_does()
    ensures { (setting : Setting) (state : ChainState) (lost : Bool) (server origin : ℕ) (old new : Server) →
        IsRunState setting state → IsLegal setting state (leaving lost server origin) →
        IsServerAt setting state server old → HasPassed old new origin →
        IsServerAt setting (next setting state (leaving lost server origin)) server new }
{
    a_message_leaves();
}

/// What the server sends of it is queued at the end of its link, unless it goes away. Nothing is sent where nothing is
/// to be.
pub fn what_is_sent()
    ensures queued { (setting : Setting) (state : ChainState) (lost : Bool) (server origin : ℕ) (old : Server)
        (queue : AQueue) (sent : SentMessage) → IsRunState setting state →
        IsLegal setting state (leaving lost server origin) →
        is_sent setting server && not (is_away setting state server lost) ≡ true → IsServerAt setting state server old →
        sent_in old origin ≡ Some sent → IsLink setting state server queue →
        IsLink setting (next setting state (leaving lost server origin)) server
        (record queue { messages = queue.messages ++ sent ∷ [] }) }
    ensures nothing { (setting : Setting) (state : ChainState) (lost : Bool) (server origin : ℕ) (old : Server) →
        IsRunState setting state → IsLegal setting state (leaving lost server origin) →
        IsServerAt setting state server old → sent_in old origin ≡ None → is_sent setting server ≡ false }
{
    order_of_a_state();
    ends();
    a_message_is_sent();
}

/// A message that came by the ring ends at server 0.
pub fn what_carry_does()
    ensures { (setting : Setting) (state : ChainState) (origin : ℕ) (old new : Server) → IsRunState setting state →
        IsLegal setting state (event.Carry origin) → IsServerAt setting state 0 old → HasCarried old new origin →
        IsServerAt setting (next setting state (event.Carry origin)) 0 new }
{
    order_of_a_state();
    ends();
    a_message_is_carried();
}

/// The packet that is due first is released.
pub fn what_release_does()
    ensures { (setting : Setting) (state : ChainState) (server : ℕ) (due : WithheldPacket) (old new : Server) →
        IsRunState setting state → server + 1 ≡ servers setting →
        first_due old.known old.buffer.items ≡ Some due → IsLegal setting state (event.Release due.packet) →
        IsServerAt setting state server old → HasReleased old new →
        IsServerAt setting (next setting state (event.Release due.packet)) server new }
{
    a_packet_is_released();
}
