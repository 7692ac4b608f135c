//! Visits that join what a server has.

ghost use Rattle.std.specs.Prelude.{◌≡◌, ◌<◌, ◌++◌, ◌∷◌, ℕ, true, false, List, Option, Some, slice_set};
ghost use Rattle.std.specs.Prelude.{if◌then◌else◌};
ghost use Rattle.std.specs.Option.{is_some};
ghost use Rattle.ftc_journal.specs.declared.event.Event.TheVariants as event;
ghost use Rattle.ftc_message.specs.declared.message.Message.{Message as SentMessage};
ghost use Rattle.ftc_message.specs.Logged.{Logged};
ghost use Rattle.ftc_replica.specs.Held.{Held as Replicated, applied};
ghost use Rattle.ftc_txn.specs.Logs.{IsLogOf};
ghost use Rattle.ftc_vector.specs.Commits.{group_raised};
ghost use Rattle.ftc_protocol.specs.Changes.{is_changing, is_touching};
ghost use Rattle.ftc_protocol.specs.Setting.{Setting, servers, is_tail};
ghost use Rattle.ftc_protocol.specs.State.{ChainState};
ghost use Rattle.ftc_protocol.specs.Legal.{IsLegal};
ghost use Rattle.ftc_protocol.specs.Next.{next, outcome_at};
ghost use Rattle.ftc_protocol.specs.Run.{IsRunState};
ghost use Rattle.ftc_ties.specs.Logs.{IsLogIn};
ghost use Rattle.ftc_ties.specs.Replica.{committed};
ghost use Rattle.ftc_standing.specs.Stand.{ServerContents, HeldItem, IsServer, IsVisited, item_of, replica_of};

use ftc_protocol::{needs_of_packets, withheld_packets};
use ftc_ties::every_state_tied;

/// A log of a visit is applied to the replica of its group. The group's tail knows then that it is there.
pub fn a_log_is_applied()
    ensures { (setting : Setting) (state : ChainState) (server origin group packet : ℕ) (log : Logged)
        (contents : ServerContents) (replica : Replicated) → IsRunState setting state →
        IsLegal setting state (event.Apply server origin group packet) → state.up server ≡ true →
        group < servers setting → IsLogIn setting.partitions state.trace log → log.group ≡ group →
        log.origin ≡ packet → replica_of contents.later group ≡ Some replica →
        IsServer setting state server contents →
        IsServer setting (next setting state (event.Apply server origin group packet)) server (record contents {
          later = slice_set contents.later group (Some (applied log replica));
          known = if is_tail setting group server then group_raised contents.known group (applied log replica).vector
              else contents.known;
        }) }
{
    every_state_tied();
    needs_of_packets();
    withheld_packets();
}

/// A visit of a held message is made. Its log is the one that the head's commit makes, and its message is visited in
/// its place. Where it changes something the head has it committed, and knows that where it is alone in its group.
pub fn a_visit_is_made()
    ensures unchanging { (setting : Setting) (state : ChainState) (server packet worker : ℕ) (contents : ServerContents)
        (before : List HeldItem) (item : HeldItem) (after : List HeldItem) (sent : SentMessage)
        (log : Option Logged) → IsRunState setting state →
        IsLegal setting state (event.Visit server packet worker) → state.up server ≡ true →
        contents.held ≡ before ++ item ∷ after → item.message.origin ≡ packet →
        is_some log ≡ is_touching (outcome_at setting state server packet) →
        ((made : Logged) → log ≡ Some made → IsLogOf server setting.partitions contents.head.vector packet
        (outcome_at setting state server packet).answers (outcome_at setting state server packet).writes made) →
        IsVisited setting.failures (outcome_at setting state server packet) log item.message sent →
        is_changing setting.partitions (outcome_at setting state server packet) ≡ false →
        IsServer setting state server contents →
        IsServer setting (next setting state (event.Visit server packet worker)) server
        (record contents { held = before ++ item_of true item.by_ring sent ∷ after }) }
    ensures changing { (setting : Setting) (state : ChainState) (server packet worker : ℕ) (contents : ServerContents)
        (before : List HeldItem) (item : HeldItem) (after : List HeldItem) (sent : SentMessage)
        (log : Logged) → IsRunState setting state →
        IsLegal setting state (event.Visit server packet worker) → state.up server ≡ true →
        contents.held ≡ before ++ item ∷ after → item.message.origin ≡ packet →
        is_touching (outcome_at setting state server packet) ≡ true →
        IsLogOf server setting.partitions contents.head.vector packet
        (outcome_at setting state server packet).answers (outcome_at setting state server packet).writes log →
        IsVisited setting.failures (outcome_at setting state server packet) (Some log) item.message sent →
        is_changing setting.partitions (outcome_at setting state server packet) ≡ true →
        IsServer setting state server contents →
        IsServer setting (next setting state (event.Visit server packet worker)) server (record contents {
          head = committed setting.partitions (outcome_at setting state server packet) log contents.head;
          known = if is_tail setting server server then group_raised contents.known server
              (committed setting.partitions (outcome_at setting state server packet) log contents.head).vector
              else contents.known;
          held = before ++ item_of true item.by_ring sent ∷ after;
        }) }
{
    every_state_tied();
    needs_of_packets();
    withheld_packets();
}
