//! What it means that a vector covers a log.

ghost use Rattle.std.specs.Prelude.{◌≡◌, ◌↔◌, ℕ, true, List, Option};
ghost use Rattle.ftc_vector.specs.Order.{IsCovered};
ghost use Rattle.ftc_replica.specs.Kept.{covers};

/// The test says that the need is covered.
pub fn covering()
    ensures { (vector : List ℕ) (need : List (Option ℕ)) → (covers vector need ≡ true) ↔ IsCovered vector need }
{}
