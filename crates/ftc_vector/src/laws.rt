//! Laws about vectors, needs and merging, which every caller may rest on.

ghost use Rattle.std.specs.Prelude.{◌≡◌, ◌≢◌, ◌<◌, ◌+◌, ◌↔◌, ℕ, List, Option, Some, None, true, max, length};
ghost use Rattle.std.specs.Prelude.{if◌then◌else◌};
ghost use Rattle.ftc_base.specs.Sets.{has};
ghost use Rattle.ftc_vector.specs.Vector.{by_partition, number_at, mark_at, merged, raised, marks_of, need_at, need_of};
ghost use Rattle.ftc_vector.specs.Order.{IsLogReady, IsCovered, IsBelow, is_log_ready, covers};
ghost use Rattle.ftc_vector.specs.Commits.{vector_of, all_merged, group_raised};

use ftc_base::limits::{MOST_PARTITIONS, MOST_SERVERS};

/// What stands at each partition, and that nothing else is in a vector.
pub fn numbers()
    ensures merged { (one other : List ℕ) (partition : ℕ) → partition < MOST_PARTITIONS →
        number_at (merged one other) partition ≡ max (number_at one partition) (number_at other partition) }
    ensures raised { (vector : List ℕ) (changed partition : ℕ) → partition < MOST_PARTITIONS →
        number_at (raised vector changed) partition
        ≡ (if has changed partition then number_at vector partition + 1 else number_at vector partition) }
    ensures marks { (vector : List ℕ) (touched partition : ℕ) → partition < MOST_PARTITIONS →
        mark_at (marks_of vector touched) partition
        ≡ (if has touched partition then Some (number_at vector partition) else None) }
    ensures need { (before : List (Option ℕ)) (changed partition : ℕ) → partition < MOST_PARTITIONS →
        mark_at (need_of before changed) partition ≡ need_at (mark_at before partition) (has changed partition) }
    ensures lengths { (given : ℕ → ℕ) → length (by_partition given) ≡ MOST_PARTITIONS }
    ensures same { (one other : List ℕ) → length one ≡ MOST_PARTITIONS → length other ≡ MOST_PARTITIONS →
        IsBelow one other → IsBelow other one → one ≡ other }
{}

/// Merging gives the least vector above both.
pub fn merging()
    ensures above_first { (one other : List ℕ) → IsBelow one (merged one other) }
    ensures above_second { (one other : List ℕ) → IsBelow other (merged one other) }
    ensures least { (one other third : List ℕ) → IsBelow one third → IsBelow other third →
        IsBelow (merged one other) third }
    ensures commutative { (one other : List ℕ) → merged one other ≡ merged other one }
    ensures associative { (one other third : List ℕ) →
        merged (merged one other) third ≡ merged one (merged other third) }
    ensures idempotent { (one : List ℕ) → length one ≡ MOST_PARTITIONS → merged one one ≡ one }
{}

/// A log that a commit writes is ready at the vector before it. A ready log that is applied is covered
/// from then on, and a log that is covered and changes a partition isn't ready.
pub fn applying()
    ensures own { (vector : List ℕ) (touched changed : ℕ) → IsLogReady vector (marks_of vector touched) changed }
    ensures applied { (vector : List ℕ) (before : List (Option ℕ)) (changed : ℕ) →
        IsLogReady vector before changed → IsCovered (raised vector changed) (need_of before changed) }
    ensures once { (vector : List ℕ) (before : List (Option ℕ)) (changed partition carried : ℕ) →
        partition < MOST_PARTITIONS →
        mark_at before partition ≡ Some carried → has changed partition ≡ true →
        IsCovered vector (need_of before changed) → ¬ IsLogReady vector before changed }
{}

/// What is covered stays covered when the vector is merged with another, and when it is raised.
pub fn covering()
    ensures above { (one other : List ℕ) (need : List (Option ℕ)) → IsBelow one other → IsCovered one need →
        IsCovered other need }
    ensures merged { (one other : List ℕ) (need : List (Option ℕ)) → IsCovered one need →
        IsCovered (merged one other) need }
    ensures raised { (vector : List ℕ) (changed : ℕ) (need : List (Option ℕ)) →
        IsCovered vector need → IsCovered (raised vector changed) need }
{}

/// The tests of order say what the relations do.
pub fn order_tests()
    ensures ready { (vector : List ℕ) (before : List (Option ℕ)) (changed : ℕ) →
        (is_log_ready vector before changed ≡ true) ↔ IsLogReady vector before changed }
    ensures covers { (vector : List ℕ) (need : List (Option ℕ)) → (covers vector need ≡ true) ↔ IsCovered vector need }
{}

/// What stands for each group, and that nothing else is in the commits.
pub fn groups()
    ensures merged { (one other : List (List ℕ)) (group : ℕ) → group < MOST_SERVERS →
        vector_of (all_merged one other) group ≡ merged (vector_of one group) (vector_of other group) }
    ensures raised { (commits : List (List ℕ)) (group : ℕ) (vector : List ℕ) → group < length commits →
        vector_of (group_raised commits group vector) group ≡ merged (vector_of commits group) vector }
    ensures others { (commits : List (List ℕ)) (group other : ℕ) (vector : List ℕ) → other ≢ group →
        vector_of (group_raised commits group vector) other ≡ vector_of commits other }
    ensures same { (one other : List (List ℕ)) → length one ≡ MOST_SERVERS → length other ≡ MOST_SERVERS →
        ((group : ℕ) → group < MOST_SERVERS → vector_of one group ≡ vector_of other group) → one ≡ other }
{}
