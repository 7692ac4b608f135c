//! What holds of the packets that are due and of those that are left.

ghost use Rattle.std.specs.Prelude.{◌≡◌, ◌↔◌, ℕ, List, Some, None, true, false};
ghost use Rattle.std.specs.List.{AllByRecursion};
ghost use Rattle.ftc_edge.specs.declared.buffer.Withheld.{Withheld as AWithheld};
ghost use Rattle.ftc_edge.specs.Due.{is_due, first_due, without_due, AreCovered, IsFirstOf};

/// A packet is due exactly where each of its needs is covered by what is known of the need's group.
pub fn due_packets()
    ensures { (commits : List (List ℕ)) (withheld : AWithheld) →
        (is_due commits withheld ≡ true) ↔ AreCovered commits withheld.needs }
{}

/// The packet that is released is due and no packet before it is, and the others stay in their order.
/// Where no packet is released, none is due and all stay.
pub fn released_packets()
    ensures first { (commits : List (List ℕ)) (items : List AWithheld) (withheld : AWithheld) →
        first_due commits items ≡ Some withheld → IsFirstOf commits items (without_due commits items) withheld }
    ensures none { (commits : List (List ℕ)) (items : List AWithheld) → first_due commits items ≡ None →
        AllByRecursion (λ withheld. is_due commits withheld ≡ false) items }
    ensures all { (commits : List (List ℕ)) (items : List AWithheld) → first_due commits items ≡ None →
        without_due commits items ≡ items }
{}
