//! Messages that come to a server.

ghost use Rattle.std.specs.Prelude.{◌≡◌, ◌==◌, ◌+◌, ◌++◌, ◌∷◌, [], ℕ, true, false, List, Some, None};
ghost use Rattle.ftc_journal.specs.declared.event.Event.TheVariants as event;
ghost use Rattle.ftc_link.specs.Queue.{Queue as AQueue};
ghost use Rattle.ftc_message.specs.declared.message.Message.{Message as SentMessage};
ghost use Rattle.ftc_ring.specs.Ring.{next_of};
ghost use Rattle.ftc_vector.specs.Commits.{all_merged};
ghost use Rattle.ftc_protocol.specs.Setting.{Setting, servers, packet_at};
ghost use Rattle.ftc_protocol.specs.State.{ChainState};
ghost use Rattle.ftc_protocol.specs.Legal.{IsLegal};
ghost use Rattle.ftc_protocol.specs.Next.{next};
ghost use Rattle.ftc_protocol.specs.Run.{IsRunState};
ghost use Rattle.ftc_standing.specs.Stand.{ServerContents, IsServer, IsLink, IsBegun, item_of};

use ftc_protocol::{needs_of_packets, withheld_packets};
use ftc_ties::every_state_tied;

/// A message begins at server 0, with a packet that enters or without one: it is held behind the others.
pub fn a_message_begins()
    ensures entered { (setting : Setting) (state : ChainState) (packet : ℕ) (contents : ServerContents)
        (sent : SentMessage) → IsRunState setting state → IsLegal setting state (event.Enter packet) →
        state.up 0 ≡ true → IsBegun packet (Some (packet_at setting packet)) sent → IsServer setting state 0 contents →
        IsServer setting (next setting state (event.Enter packet)) 0 (record contents {
          known = all_merged contents.known sent.commits;
          held = contents.held ++ item_of false false sent ∷ [];
        }) }
    ensures propagated { (setting : Setting) (state : ChainState) (origin : ℕ) (contents : ServerContents)
        (sent : SentMessage) → IsRunState setting state → IsLegal setting state (event.Propagate origin) →
        IsBegun origin None sent → IsServer setting state 0 contents →
        IsServer setting (next setting state (event.Propagate origin)) 0 (record contents {
          known = all_merged contents.known sent.commits;
          held = contents.held ++ item_of false false sent ∷ [];
        }) }
{
    every_state_tied();
    needs_of_packets();
    withheld_packets();
}

/// The receiver of a link takes the oldest message: the others stay on the link, and the receiver holds it behind
/// the others and knows what its sender knew. It is the message of that origin.
pub fn a_message_is_taken()
    ensures origin { (setting : Setting) (state : ChainState) (link origin : ℕ) (queue : AQueue) (sent : SentMessage)
        (rest : List SentMessage) → IsRunState setting state → IsLegal setting state (event.Take link origin) →
        IsLink setting state link queue → queue.messages ≡ sent ∷ rest → sent.origin ≡ origin }
    ensures link { (setting : Setting) (state : ChainState) (link origin : ℕ) (queue : AQueue) (sent : SentMessage)
        (rest : List SentMessage) → IsRunState setting state → IsLegal setting state (event.Take link origin) →
        IsLink setting state link queue → queue.messages ≡ sent ∷ rest →
        IsLink setting (next setting state (event.Take link origin)) link (record queue { messages = rest }) }
    ensures receiver { (setting : Setting) (state : ChainState) (link origin : ℕ) (queue : AQueue) (sent : SentMessage)
        (rest : List SentMessage) (contents : ServerContents) → IsRunState setting state →
        IsLegal setting state (event.Take link origin) → IsLink setting state link queue →
        queue.messages ≡ sent ∷ rest → IsServer setting state (next_of (servers setting) link) contents →
        IsServer setting (next setting state (event.Take link origin)) (next_of (servers setting) link)
        (record contents {
          known = all_merged contents.known sent.commits;
          held = contents.held ++ item_of false (link + 1 == servers setting) sent ∷ [];
        }) }
{
    every_state_tied();
    needs_of_packets();
    withheld_packets();
}
