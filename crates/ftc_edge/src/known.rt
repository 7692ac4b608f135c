//! Whether what is known of the tails covers what a packet needs.

ghost use Rattle.std.specs.Prelude.{◌≡◌};
ghost use Rattle.std.specs.List.{list_all};
ghost use Rattle.ftc_vector.specs.Order.{covers};
ghost use Rattle.ftc_edge.specs.Due.{is_known};

use ftc_message::{Need, Needs};
use ftc_vector::{Commits, Marks, Vector, covers, order_tests};

/// Whether a vector covers what is needed of its group.
fn is_covered(vector: &Vector, marks: &Marks) -> bool
    ensures { result ≡ covers vector.now marks.now }
{
    order_tests();
    covers(vector, marks)
}

/// Whether a need is known at the tail of its group.
fn is_known(commits: &Commits, need: &Need) -> bool
    ensures { result ≡ is_known commits.now need.now }
{
    is_covered(commits.of(need.group), &need.marks)
}

/// Whether each need is known at the tail of its group.
pub fn are_known(commits: &Commits, needs: &Needs) -> bool
    ensures { result ≡ list_all (is_known commits.now) needs.now }
{
    needs.as_slice().iter().all(|need| is_known(commits, need))
}
