//! What a packet lacks before it is due.

ghost use Rattle.std.specs.Prelude.{◌≡◌, ◌≤◌, ◌<◌, ℕ, List, true, false, IsNone, IfSome};
ghost use Rattle.std.specs.List.{list_all};
ghost use Rattle.ftc_base.specs.declared.limits.TheConstants.{MOST_PARTITIONS};
ghost use Rattle.ftc_vector.specs.Order.{IsCovered};
ghost use Rattle.ftc_vector.specs.Vector.{number_at, mark_at};
ghost use Rattle.ftc_edge.specs.Due.{is_known};
ghost use Rattle.ftc_edge.specs.Known.{known_at};

use ftc_base::ServerId;
use ftc_base::limits::MOST_PARTITIONS;
use ftc_message::{Need, Needs};
use ftc_vector::{Commits, Marks, Vector, order_tests};

/// A number that the tail of a group has to reach in one partition. A packet that lacks it isn't due before.
#[derive(Clone, Copy, Debug)]
pub struct Lack {
    pub group: ServerId,
    pub partition: u8,
    pub number: u64,
    pub ghost within: { partition < MOST_PARTITIONS },
}

impl Lack {
    /// What is reached from the beginning on.
    pub fn nothing() -> Lack
        ensures { result.number ≡ 0 }
    {
        Lack {
            group: ServerId::new(0).unwrap(),
            partition: 0,
            number: 0,
        }
    }

    /// Whether what is known has reached it.
    pub fn is_reached(&self, commits: &Commits) -> bool
        ensures reached { result ≡ true → self.now.number ≤ known_at commits.now self.now.group self.now.partition }
        ensures lacking { result ≡ false → known_at commits.now self.now.group self.now.partition < self.now.number }
    {
        self.number <= commits.of(self.group).at(self.partition)
    }
}

/// The first partition in which a vector hasn't reached what is needed. None where it covers the need.
fn partition_lacking(vector: &Vector, marks: &Marks) -> Option<(u8, u64)>
    ensures covered { IsNone result → IsCovered vector.now marks.now }
    ensures within { IfSome result (λ lack. lack.0 < MOST_PARTITIONS) }
    ensures marked { IfSome result (λ lack. mark_at marks.now lack.0 ≡ Some lack.1) }
    ensures lacking { IfSome result (λ lack. number_at vector.now lack.0 < lack.1) }
{
    for partition in 0..marks.end() {
        if let Some(least) = marks.at(partition) {
            if vector.at(partition) < least {
                return Some((partition, least));
            }
        }
    }
    None
}

/// What is lacking of a need. None where it is known.
fn lack_of_need(commits: &Commits, need: &Need) -> Option<Lack>
    ensures known { IsNone result → is_known commits.now need.now ≡ true }
    ensures lacking { IfSome result (λ lack. known_at commits.now lack.group lack.partition < lack.number) }
    ensures delays { IfSome result (λ lack. (others : List (List ℕ)) → is_known others need.now ≡ true →
        lack.number ≤ known_at others lack.group lack.partition) }
{
    order_tests();
    let (partition, number) = partition_lacking(commits.of(need.group), &need.marks)?;
    Some(Lack {
        group: need.group,
        partition,
        number,
    })
}

/// What a packet with these needs lacks. None where all of them are known. The last group mostly gets to know last,
/// so its need is looked at first.
pub fn lack_of(commits: &Commits, needs: &Needs) -> Option<Lack>
    ensures known { IsNone result → list_all (is_known commits.now) needs.now ≡ true }
    ensures lacking { IfSome result (λ lack. known_at commits.now lack.group lack.partition < lack.number) }
    ensures delays { IfSome result (λ lack. (others : List (List ℕ)) → list_all (is_known others) needs.now ≡ true →
        lack.number ≤ known_at others lack.group lack.partition) }
{
    let mut place = needs.len();
    while place > 0 {
        place -= 1;
        let lack = lack_of_need(commits, needs.at(place));
        if lack.is_some() {
            return lack;
        }
    }
    None
}
