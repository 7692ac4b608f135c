//! Messages and packets that leave a server.

ghost use Rattle.std.specs.Prelude.{◌≡◌, ◌==◌, ◌&&◌, ◌+◌, ◌++◌, ◌∷◌, [], ℕ, Bool, true, false, not, List, Some, None};
ghost use Rattle.std.specs.Prelude.{if◌then◌else◌};
ghost use Rattle.ftc_edge.specs.declared.buffer.Withheld.{Withheld as WithheldPacket};
ghost use Rattle.ftc_journal.specs.declared.event.Event.TheVariants as event;
ghost use Rattle.ftc_link.specs.Queue.{Queue as AQueue};
ghost use Rattle.ftc_message.specs.declared.message.Message.{Message as SentMessage};
ghost use Rattle.ftc_message.specs.Logged.{Logged};
ghost use Rattle.ftc_message.specs.Ordered.{with_items, is_earlier};
ghost use Rattle.ftc_ring.specs.Ring.{next_of};
ghost use Rattle.ftc_protocol.specs.Setting.{Setting, servers};
ghost use Rattle.ftc_protocol.specs.State.{ChainState};
ghost use Rattle.ftc_protocol.specs.Legal.{IsLegal, is_sent};
ghost use Rattle.ftc_protocol.specs.Next.{next, is_away};
ghost use Rattle.ftc_protocol.specs.Run.{IsRunState};
ghost use Rattle.ftc_ties.specs.Messages.{onward};
ghost use Rattle.ftc_standing.specs.View.{leaving};
ghost use Rattle.ftc_standing.specs.Stand.{ServerContents, HeldItem, IsServer, IsLink, IsSentOn};

use ftc_protocol::{needs_of_packets, withheld_packets};
use ftc_ties::every_state_tied;

/// A held message is passed on, or lost by the link: the server holds the others, and server 0 has nothing to
/// forward any more. The last server withholds its packet, if it has one.
pub fn a_message_leaves()
    ensures on { (setting : Setting) (state : ChainState) (lost : Bool) (server origin : ℕ) (contents : ServerContents)
        (before : List HeldItem) (item : HeldItem) (after : List HeldItem) → IsRunState setting state →
        IsLegal setting state (leaving lost server origin) → contents.held ≡ before ++ item ∷ after →
        item.message.origin ≡ origin → (server + 1 ≡ servers setting → ⊥) → IsServer setting state server contents →
        IsServer setting (next setting state (leaving lost server origin)) server (record contents {
          held = before ++ after;
          forwarded = if server == 0 then [] else contents.forwarded;
        }) }
    ensures empty { (setting : Setting) (state : ChainState) (lost : Bool) (server origin : ℕ)
        (contents : ServerContents) (before : List HeldItem) (item : HeldItem) (after : List HeldItem) →
        IsRunState setting state → IsLegal setting state (leaving lost server origin) →
        contents.held ≡ before ++ item ∷ after → item.message.origin ≡ origin → server + 1 ≡ servers setting →
        item.message.packet ≡ None → IsServer setting state server contents →
        IsServer setting (next setting state (leaving lost server origin)) server (record contents {
          held = before ++ after;
          forwarded = if server == 0 then [] else contents.forwarded;
        }) }
    ensures packet { (setting : Setting) (state : ChainState) (lost : Bool) (server origin : ℕ)
        (contents : ServerContents) (before : List HeldItem) (item : HeldItem) (after : List HeldItem)
        (bytes : List ℕ) → IsRunState setting state → IsLegal setting state (leaving lost server origin) →
        contents.held ≡ before ++ item ∷ after → item.message.origin ≡ origin → server + 1 ≡ servers setting →
        item.message.packet ≡ Some bytes → IsServer setting state server contents →
        IsServer setting (next setting state (leaving lost server origin)) server (record contents {
          held = before ++ after;
          withheld = contents.withheld
              ++ record { packet = origin; bytes = bytes; needs = item.message.needs } ∷ [];
          forwarded = if server == 0 then [] else contents.forwarded;
        }) }
{
    every_state_tied();
    needs_of_packets();
    withheld_packets();
}

/// What is sent on of it is queued at the end of the link, with the logs that go on and those of the forwarder, and
/// with what the server knows. Where nothing is sent, or it goes away, the link has what it had, and perhaps a gap.
pub fn a_message_is_sent()
    ensures queued { (setting : Setting) (state : ChainState) (lost : Bool) (server origin : ℕ)
        (contents : ServerContents) (before : List HeldItem) (item : HeldItem) (after : List HeldItem)
        (queue : AQueue) (sent : SentMessage) → IsRunState setting state →
        IsLegal setting state (leaving lost server origin) → contents.held ≡ before ++ item ∷ after →
        item.message.origin ≡ origin → is_sent setting server && not (is_away setting state server lost) ≡ true →
        IsSentOn setting server contents.forwarded contents.known item.message sent →
        IsServer setting state server contents → IsLink setting state server queue →
        IsLink setting (next setting state (leaving lost server origin)) server
        (record queue { messages = queue.messages ++ sent ∷ [] }) }
    ensures away { (setting : Setting) (state : ChainState) (lost : Bool) (server origin : ℕ) (queue : AQueue)
        (gap : Bool) → IsRunState setting state → IsLegal setting state (leaving lost server origin) →
        is_sent setting server && not (is_away setting state server lost) ≡ false →
        gap ≡ (next setting state (leaving lost server origin)).gap server → IsLink setting state server queue →
        IsLink setting (next setting state (leaving lost server origin)) server (record queue { gap = gap }) }
{
    every_state_tied();
    needs_of_packets();
    withheld_packets();
}

/// A message ends at server 0, whose forwarder has then the logs of it that go on.
pub fn a_message_is_carried()
    ensures { (setting : Setting) (state : ChainState) (origin : ℕ) (contents : ServerContents)
        (before : List HeldItem) (item : HeldItem) (after : List HeldItem) → IsRunState setting state →
        IsLegal setting state (event.Carry origin) → contents.held ≡ before ++ item ∷ after →
        item.message.origin ≡ origin → IsServer setting state 0 contents →
        IsServer setting (next setting state (event.Carry origin)) 0 (record contents {
          held = before ++ after;
          forwarded = with_items is_earlier (onward setting 0 item.message.logs) contents.forwarded;
        }) }
{
    every_state_tied();
    needs_of_packets();
    withheld_packets();
}

/// A packet is released: the last server withholds the others, in their order.
pub fn a_packet_is_released()
    ensures { (setting : Setting) (state : ChainState) (packet server : ℕ) (contents : ServerContents)
        (before : List WithheldPacket) (item : WithheldPacket) (after : List WithheldPacket) →
        IsRunState setting state → IsLegal setting state (event.Release packet) → server + 1 ≡ servers setting →
        contents.withheld ≡ before ++ item ∷ after → item.packet ≡ packet → IsServer setting state server contents →
        IsServer setting (next setting state (event.Release packet)) server
        (record contents { withheld = before ++ after }) }
{
    every_state_tied();
    needs_of_packets();
    withheld_packets();
}

/// The link to a server that stops is empty, and has a gap where it had one.
pub fn a_receiver_stops()
    ensures { (setting : Setting) (state : ChainState) (server link : ℕ) (queue : AQueue) → IsRunState setting state →
        IsLegal setting state (event.Crash server) → next_of (servers setting) link ≡ server →
        IsLink setting state link queue →
        IsLink setting (next setting state (event.Crash server)) link (record queue { messages = [] }) }
{
    every_state_tied();
    needs_of_packets();
    withheld_packets();
}
