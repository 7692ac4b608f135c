//! What holds of the words that the contracts of a server use.

ghost use Rattle.std.specs.Prelude.{◌≡◌, ◌<◌, ℕ, List, true, length};
ghost use Rattle.ftc_vector.specs.Vector.{number_at};
ghost use Rattle.ftc_server.specs.Replicas.{may_rise};

use ftc_base::limits::MOST_PARTITIONS;

/// A vector's numbers may rise where none of them is the greatest.
pub fn rising()
    ensures { (vector : List ℕ) → length vector ≡ MOST_PARTITIONS →
        ((partition : ℕ) → partition < MOST_PARTITIONS → number_at vector partition < u64.MAX) →
        may_rise vector ≡ true }
{}
