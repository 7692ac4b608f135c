//! What an event leaves as it was.

ghost use Rattle.std.specs.Prelude.{ℕ};
ghost use Rattle.ftc_journal.specs.declared.event.Event.{Event as AnEvent};
ghost use Rattle.ftc_link.specs.Queue.{Queue as AQueue};
ghost use Rattle.ftc_protocol.specs.Setting.{Setting};
ghost use Rattle.ftc_protocol.specs.State.{ChainState};
ghost use Rattle.ftc_protocol.specs.Legal.{IsLegal};
ghost use Rattle.ftc_protocol.specs.Next.{next};
ghost use Rattle.ftc_protocol.specs.Run.{IsRunState};
ghost use Rattle.ftc_standing.specs.View.{IsBesideServer, IsBesideLink, IsAsBefore, IsLinkAsBefore};
ghost use Rattle.ftc_standing.specs.Stand.{ServerContents, IsServer, IsLink};

use ftc_protocol::{needs_of_packets, withheld_packets};
use ftc_ties::every_state_tied;

/// A server in which an event has no part is up or down as before, and holds, withholds and forwards what it did; a
/// link has the same messages queued, and a gap where it had one.
pub fn others_as_before()
    ensures server { (setting : Setting) (state : ChainState) (event : AnEvent) (server : ℕ) →
        IsRunState setting state → IsLegal setting state event → IsBesideServer setting state event server →
        IsAsBefore setting state (next setting state event) server }
    ensures link { (setting : Setting) (state : ChainState) (event : AnEvent) (link : ℕ) →
        IsRunState setting state → IsLegal setting state event → IsBesideLink setting state event link →
        IsLinkAsBefore state (next setting state event) link }
{
    every_state_tied();
}

/// What stands for such a server stands for it after the event, also where visits come into the trace or leave it.
pub fn servers_stand_still()
    ensures { (setting : Setting) (state : ChainState) (event : AnEvent) (server : ℕ) (contents : ServerContents) →
        IsRunState setting state → IsLegal setting state event → IsBesideServer setting state event server →
        IsServer setting state server contents → IsServer setting (next setting state event) server contents }
{
    every_state_tied();
    needs_of_packets();
    withheld_packets();
}

/// And so does what stands for such a link.
pub fn links_stand_still()
    ensures { (setting : Setting) (state : ChainState) (event : AnEvent) (link : ℕ) (queue : AQueue) →
        IsRunState setting state → IsLegal setting state event → IsBesideLink setting state event link →
        IsLink setting state link queue → IsLink setting (next setting state event) link queue }
{
    every_state_tied();
    needs_of_packets();
    withheld_packets();
}
