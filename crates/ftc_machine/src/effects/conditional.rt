//! Changes where a test is true.

ghost use Rattle.std.specs.Prelude.{◌≡◌, ◌==◌, ◌&&◌, ◌||◌, ℕ, [], if◌then◌else◌};
ghost use Rattle.ftc_base.specs.Sets.{has};

use ftc_base::{ServerId, ServerSet};
use ftc_journal::VisitNames;
use std::alloc::Global;

/// The set with the server, where the test is true.
pub fn with_if(set: ServerSet, test: bool, server: ServerId) -> ServerSet
    ensures { (member : ℕ) → has result member ≡ ((member == server && test) || has set member) }
{
    if test { set.with(server.number()) } else { set }
}

/// Empties the list, where the test is true.
pub fn clear_if(list: &mut VisitNames, test: bool, alloc: Global)
    ensures { list.new ≡ (if test then [] else list.old) }
{
    if test {
        *list = VisitNames::new(alloc);
    }
}
