//! Servers that get what others have: by a pull, and as the new server in the place of one that is down.

ghost use Rattle.std.specs.Prelude.{◌≡◌, ◌≢◌, ◌<◌, ℕ, Bool, true, List, [], Option, Some, filter};
ghost use Rattle.ftc_journal.specs.declared.event.Event.TheVariants as event;
ghost use Rattle.ftc_journal.specs.declared.event.VisitName.{VisitName as AVisitName};
ghost use Rattle.ftc_link.specs.Queue.{Queue as AQueue};
ghost use Rattle.ftc_replica.specs.Held.{Held as Replicated};
ghost use Rattle.ftc_replica.specs.InTurn.{applied_all};
ghost use Rattle.ftc_replica.specs.Kept.{missing};
ghost use Rattle.ftc_ring.specs.Ring.{next_of};
ghost use Rattle.ftc_vector.specs.Commits.{group_raised};
ghost use Rattle.ftc_protocol.specs.Setting.{Setting, servers, is_tail};
ghost use Rattle.ftc_protocol.specs.State.{ChainState, Message as AMessage};
ghost use Rattle.ftc_protocol.specs.Trace.{has_each};
ghost use Rattle.ftc_protocol.specs.Recovery.{previous_live, following_live};
ghost use Rattle.ftc_protocol.specs.Legal.{IsLegal};
ghost use Rattle.ftc_protocol.specs.Next.{next};
ghost use Rattle.ftc_protocol.specs.Run.{IsRunState};
ghost use Rattle.ftc_ties.specs.Servers.{is_shared};
ghost use Rattle.ftc_standing.specs.Stand.{ServerContents, HeldItem, IsServer, IsLink, IsPulled, IsRevived, replica_of};
ghost use Rattle.ftc_standing.specs.Stand.{replica_kept};

use ftc_protocol::{needs_of_packets, withheld_packets};
use ftc_ties::every_state_tied;

/// The receiver of a link that pulls has of each group that both ends share what the sender has, and knows it to be
/// at the tail of the group whose tail it is, which is one of these. The link's messages stay.
pub fn a_server_has_pulled()
    ensures receiver { (setting : Setting) (state : ChainState) (link tail : ℕ) (contents sender : ServerContents)
        (later : List (Option Replicated)) (mine theirs : Replicated) → IsRunState setting state →
        IsLegal setting state (event.Pull link) → tail < servers setting →
        is_tail setting tail (next_of (servers setting) link) ≡ true →
        is_shared setting tail link (next_of (servers setting) link) ≡ true →
        IsPulled setting link contents sender later → replica_of contents.later tail ≡ Some mine →
        replica_kept link sender tail ≡ Some theirs →
        IsServer setting state (next_of (servers setting) link) contents → IsServer setting state link sender →
        IsServer setting (next setting state (event.Pull link)) (next_of (servers setting) link) (record contents {
          later = later;
          known = group_raised contents.known tail (applied_all (missing mine.vector theirs.kept) mine).vector;
        }) }
    ensures link { (setting : Setting) (state : ChainState) (pulled link : ℕ) (queue : AQueue) (gap : Bool) →
        IsRunState setting state → IsLegal setting state (event.Pull pulled) →
        gap ≡ (next setting state (event.Pull pulled)).gap link → IsLink setting state link queue →
        IsLink setting (next setting state (event.Pull pulled)) link (record queue { gap = gap }) }
{
    every_state_tied();
    needs_of_packets();
    withheld_packets();
}

/// A new server stands with what it gets from the two live servers next to it. The one after it drops the messages
/// that lack a visit and keeps the others; what was queued to it goes away, and every other link has what it had.
pub fn a_server_is_replaced()
    ensures revived { (setting : Setting) (state : ChainState) (server : ℕ) (undone : List AVisitName)
        (previous following new : ServerContents) → IsRunState setting state →
        IsLegal setting state (event.Recover server undone) →
        IsServer setting state (previous_live setting state server) previous →
        IsServer setting state (following_live setting state server) following →
        IsRevived setting state server previous following new →
        IsServer setting (next setting state (event.Recover server undone)) server new }
    ensures following { (setting : Setting) (state : ChainState) (server : ℕ) (undone : List AVisitName)
        (contents : ServerContents) (stays : HeldItem → Bool) → IsRunState setting state →
        IsLegal setting state (event.Recover server undone) → following_live setting state server ≢ server →
        ((message : AMessage) (item : HeldItem) → state.message item.message.origin ≡ Some message →
        stays item ≡ has_each setting.partitions state.trace
        (state.lists (following_live setting state server)) message.logs) →
        IsServer setting state (following_live setting state server) contents →
        IsServer setting (next setting state (event.Recover server undone)) (following_live setting state server)
        (record contents { held = filter stays contents.held }) }
    ensures emptied { (setting : Setting) (state : ChainState) (server link : ℕ) (undone : List AVisitName)
        (queue : AQueue) (gap : Bool) → IsRunState setting state →
        IsLegal setting state (event.Recover server undone) →
        next_of (servers setting) link ≡ following_live setting state server →
        gap ≡ (next setting state (event.Recover server undone)).gap link → IsLink setting state link queue →
        IsLink setting (next setting state (event.Recover server undone)) link
        (record queue { messages = []; gap = gap }) }
    ensures link { (setting : Setting) (state : ChainState) (server link : ℕ) (undone : List AVisitName)
        (queue : AQueue) (gap : Bool) → IsRunState setting state →
        IsLegal setting state (event.Recover server undone) →
        next_of (servers setting) link ≢ following_live setting state server →
        gap ≡ (next setting state (event.Recover server undone)).gap link → IsLink setting state link queue →
        IsLink setting (next setting state (event.Recover server undone)) link (record queue { gap = gap }) }
{
    every_state_tied();
    needs_of_packets();
    withheld_packets();
}
