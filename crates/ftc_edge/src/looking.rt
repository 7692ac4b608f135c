//! The first withheld packet that is due.

ghost use Rattle.std.specs.Prelude.{◌≡◌, ◌≤◌, ◌<◌, ℕ, List, true, length, vec_len, slice_index_or};
ghost use Rattle.std.specs.List.{position_or_len};
ghost use Rattle.std.specs.VecDeque.{deque_len, deque_capacity};
ghost use Rattle.ftc_base.specs.declared.limits.TheConstants.{MOST_SERVERS};
ghost use Rattle.ftc_edge.specs.declared.buffer.Withheld.{Withheld as AWithheld};
ghost use Rattle.ftc_edge.specs.Due.{is_due};
ghost use Rattle.ftc_edge.specs.Known.{AreDelayed, AreNotDue};
ghost use Rattle.ftc_edge.specs.Stretches.{IsLookedAt};

use crate::held::Held;
use crate::stretch::Stretch;
use ftc_vector::Commits;
use std::collections::VecDeque;

/// How many packets at the front are looked at anew at each question. More of them cost more each time, and fewer
/// have all others looked at more often.
const NEAR: usize = 64;

/// Looks at the packets from the front on, up to the first that is due or to that place.
fn look_near(held: &mut VecDeque<Held>, to: usize, commits: &Commits) -> usize
    requires { to ≤ deque_len held.old }
    ensures items { held.new.items ≡ held.old.items }
    ensures same { (deque_len held.new ≡ deque_len held.old) × (deque_capacity held.new ≡ deque_capacity held.old) }
    ensures end { result ≤ to }
    ensures not_due { AreNotDue commits.now held.new.items 0 result }
    ensures due { result < to → (other : AWithheld) →
        is_due commits.now (slice_index_or held.new.items result other) ≡ true }
{
    let mut place = 0;
    while place < to {
        if held[place].lack(commits).is_none() {
            return place;
        }
        place += 1;
    }
    place
}

/// Looks at the packets behind those of a stretch, up to the first that is due or to that place.
fn look_far(held: &mut VecDeque<Held>, stretch: &mut Stretch, to: usize, commits: &Commits)
    requires within { (stretch.old.end ≤ to) × (to ≤ deque_len held.old) }
    requires len { vec_len stretch.old.least ≡ MOST_SERVERS }
    requires delayed { AreDelayed stretch.old.least.items held.old.items stretch.old.begin stretch.old.end }
    requires not_due { AreNotDue commits.now held.old.items stretch.old.begin stretch.old.end }
    ensures items { held.new.items ≡ held.old.items }
    ensures same { (deque_len held.new ≡ deque_len held.old) × (deque_capacity held.new ≡ deque_capacity held.old) }
    ensures begin { stretch.new.begin ≡ stretch.old.begin }
    ensures end { (stretch.old.end ≤ stretch.new.end) × (stretch.new.end ≤ to) }
    ensures len { vec_len stretch.new.least ≡ MOST_SERVERS }
    ensures delayed { AreDelayed stretch.new.least.items held.new.items stretch.new.begin stretch.new.end }
    ensures not_due { AreNotDue commits.now held.new.items stretch.new.begin stretch.new.end }
    ensures due { stretch.new.end < to → (other : AWithheld) →
        is_due commits.now (slice_index_or held.new.items stretch.new.end other) ≡ true }
{
    while stretch.end < to {
        let Some(lack) = held[stretch.end].lack(commits) else {
            return;
        };
        stretch.add(lack);
    }
}

/// The place of the first packet that is due, which is behind all where none is. What was found out on the way
/// is kept.
pub fn find_due(held: &mut VecDeque<Held>, far: &mut Stretch, commits: &Commits) -> usize
    requires looked_at { IsLookedAt held.old.items far.old }
    requires len { vec_len far.old.least ≡ MOST_SERVERS }
    ensures items { held.new.items ≡ held.old.items }
    ensures same { (deque_len held.new ≡ deque_len held.old) × (deque_capacity held.new ≡ deque_capacity held.old) }
    ensures looked_at { IsLookedAt held.new.items far.new }
    ensures len { vec_len far.new.least ≡ MOST_SERVERS }
    ensures far { far.new.begin ≤ result → far.new.end ≤ result }
    ensures place { result ≡ position_or_len (is_due commits.now) held.old.items }
{
    if far.begin == far.end || far.is_reached(commits) {
        far.restart(NEAR.min(held.len()));
    }
    let place = look_near(held, far.begin, commits);
    if place < far.begin {
        return place;
    }
    look_far(held, far, held.len(), commits);
    far.end
}

/// The place of the first packet that is due from one place on, up to another.
fn place_due_in(held: &VecDeque<Held>, from: usize, to: usize, commits: &Commits) -> usize
    requires { (from ≤ to) × (to ≤ deque_len held.now) }
    ensures end { (from ≤ result) × (result ≤ to) }
    ensures not_due { AreNotDue commits.now held.now.items from result }
    ensures due { result < to → (other : AWithheld) →
        is_due commits.now (slice_index_or held.now.items result other) ≡ true }
{
    for place in from..to {
        if held[place].is_due(commits) {
            return place;
        }
    }
    to
}

/// The place of the first packet that is due, which is behind all where none is.
pub fn place_due(held: &VecDeque<Held>, far: &Stretch, commits: &Commits) -> usize
    requires looked_at { IsLookedAt held.now.items far.now }
    requires len { vec_len far.now.least ≤ MOST_SERVERS }
    ensures { result ≡ position_or_len (is_due commits.now) held.now.items }
{
    let place = place_due_in(held, 0, far.begin, commits);
    if place < far.begin {
        return place;
    }
    if far.is_reached(commits) {
        return place_due_in(held, far.begin, held.len(), commits);
    }
    place_due_in(held, far.end, held.len(), commits)
}
