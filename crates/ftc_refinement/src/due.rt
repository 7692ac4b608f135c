//! Which packet is due.

ghost use Rattle.std.specs.Prelude.{◌≡◌, ◌+◌, ℕ, Some, None};
ghost use Rattle.ftc_edge.specs.declared.buffer.Withheld.{Withheld as WithheldPacket};
ghost use Rattle.ftc_edge.specs.Due.{first_due};
ghost use Rattle.ftc_journal.specs.declared.event.Event.TheVariants as event;
ghost use Rattle.ftc_protocol.specs.Setting.{Setting, servers};
ghost use Rattle.ftc_protocol.specs.State.{ChainState, Withheld as AWithheld};
ghost use Rattle.ftc_protocol.specs.Known.{IsDue};
ghost use Rattle.ftc_protocol.specs.Legal.{MayHappen};
ghost use Rattle.ftc_protocol.specs.Next.{bytes_withheld};
ghost use Rattle.ftc_protocol.specs.Run.{IsRunState};
ghost use Rattle.ftc_server.specs.declared.server.Server.{Server};
ghost use Rattle.ftc_refinement.specs.Contents.{IsServerAt};

use ftc_edge::{due_packets, released_packets};
use ftc_ties::a_packet_due;

/// The packet that is due first in the last server's buffer is the one that may be released, with its bytes, and where
/// none is due in the buffer, none is due in the state.
pub fn what_is_due()
    ensures first { (setting : Setting) (state : ChainState) (server : ℕ) (due : WithheldPacket) (old : Server) →
        IsRunState setting state → server + 1 ≡ servers setting → IsServerAt setting state server old →
        first_due old.known old.buffer.items ≡ Some due → MayHappen setting state (event.Release due.packet) }
    ensures bytes { (setting : Setting) (state : ChainState) (server : ℕ) (due : WithheldPacket) (old : Server) →
        IsRunState setting state → server + 1 ≡ servers setting → IsServerAt setting state server old →
        first_due old.known old.buffer.items ≡ Some due → bytes_withheld (state.withheld due.packet) ≡ due.bytes }
    ensures none { (setting : Setting) (state : ChainState) (server packet : ℕ) (withheld : AWithheld) (old : Server) →
        IsRunState setting state → server + 1 ≡ servers setting → IsServerAt setting state server old →
        first_due old.known old.buffer.items ≡ None → IsDue setting state packet withheld → ⊥ }
{
    due_packets();
    released_packets();
    a_packet_due();
}
