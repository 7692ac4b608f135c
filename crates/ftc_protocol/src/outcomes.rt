//! What visits change, and what sets of visits have.

ghost use Rattle.std.specs.Prelude.{◌<◌, ◌≡◌, ◌↔◌, true, ℕ, List};
ghost use Rattle.std.specs.List.{AllByRecursion};
ghost use Rattle.ftc_base.specs.Partition.{partition_of};
ghost use Rattle.ftc_base.specs.declared.ask.Write.{Write as AWrite};
ghost use Rattle.ftc_journal.specs.declared.event.Event.{Event as AnEvent};
ghost use Rattle.ftc_mbox.specs.declared.rule.Rule.{Rule as ARule};
ghost use Rattle.ftc_serial.specs.Take.{Outcome, taken};
ghost use Rattle.ftc_serial.specs.Entries.{Touches, WritesIn};
ghost use Rattle.ftc_store.specs.Store.{Content};
ghost use Rattle.ftc_protocol.specs.Setting.{Setting, IsSetting, servers, shape, is_member, is_tail};
ghost use Rattle.ftc_protocol.specs.Recovery.{is_between};
ghost use Rattle.ftc_ring.specs.Ring.{IsMember, tail_of};
ghost use Rattle.ftc_ring.specs.Live.{IsBetween};
ghost use Rattle.ftc_protocol.specs.Changes.{Changes};
ghost use Rattle.ftc_protocol.specs.Trace.{IsTouching, Has, has_each, lacked_by};
ghost use Rattle.ftc_protocol.specs.Visits.{Visits, In};
ghost use Rattle.ftc_protocol.specs.State.{opening};
ghost use Rattle.ftc_protocol.specs.Run.{IsRun, state_after};

/// A visit changes the partitions of the keys that it wrote, and no others, and touches what it changes.
pub fn law_of_changes()
    ensures written { (partitions : ℕ) (outcome : Outcome) →
        AllByRecursion (λ (write : AWrite). Changes partitions outcome (partition_of partitions write.key))
        outcome.writes }
    ensures same { (partitions : ℕ) (outcome : Outcome) (partition : ℕ) →
        Changes partitions outcome partition ↔ WritesIn partitions outcome partition }
    ensures touched { (partitions : ℕ) (rule : ARule) (packet : List ℕ) (content : Content) (partition : ℕ) →
        Changes partitions (taken rule packet content) partition →
        Touches partitions (taken rule packet content) partition }
{}

/// The tests that events are computed by say what the relations say, in every state of a run: that a set has
/// each wanted visit, and which visits that touch something a set lacks; which server is a member of a group and
/// which its tail, and which head lies between two live servers.
pub fn what_tests_say()
    ensures each { (setting : Setting) → IsSetting setting → (journal : List AnEvent) → IsRun setting journal →
        (visits wanted : Visits) →
        (has_each setting.partitions (state_after setting (opening setting) journal).trace visits wanted ≡ true)
        ↔ ((group packet : ℕ) → In wanted group packet →
        Has setting.partitions (state_after setting (opening setting) journal).trace visits group packet) }
    ensures lacked { (setting : Setting) → IsSetting setting → (journal : List AnEvent) → IsRun setting journal →
        (visits : Visits) (group packet : ℕ) →
        In (lacked_by setting.partitions (state_after setting (opening setting) journal).trace visits) group packet
        ↔ (IsTouching (state_after setting (opening setting) journal).trace group packet
        × ¬ Has setting.partitions (state_after setting (opening setting) journal).trace visits group packet) }
    ensures member { (setting : Setting) (group server : ℕ) →
        (is_member setting group server ≡ true) ↔ IsMember (shape setting) group server }
    ensures tail { (setting : Setting) → IsSetting setting → (group server : ℕ) → group < servers setting →
        server < servers setting → (is_tail setting group server ≡ true) ↔ (server ≡ tail_of (shape setting) group) }
    ensures between { (count previous following head : ℕ) →
        (is_between count previous following head ≡ true) ↔ IsBetween count previous following head }
{}
