//! A number for some of the partitions.

ghost use Rattle.std.specs.Prelude.{◌≡◌, ◌<◌, ℕ, true, slice_set, Some, None, nat_eq};
ghost use Rattle.std.specs.Option.{option_eq};
ghost use Rattle.std.specs.Cmp.Lexicographic.{pointwise};
ghost use Rattle.std.specs.Cmp.Rules.{comparing};
ghost use Rattle.std.proofs.Common.{rules};
ghost use Rattle.ftc_base.specs.Sets.{has};
ghost use Rattle.ftc_vector.specs.Vector.{by_partition, mark_at, need_at, need_of as need_of_marks, AreMarks, IsEnd};

use crate::vector::PARTITIONS;
use ftc_base::PartSet;
use ftc_base::limits::MOST_PARTITIONS;
use std::marker::Model;

/// A number for some of the partitions. A contract sees the list of the numbers, from partition 0 on,
/// with None where a partition has none.
#[derive(Clone, Copy, Debug)]
pub struct Marks {
    /// 0 where a partition has none, so that equal marks have equal fields.
    numbers: [u64; PARTITIONS],
    marked: [bool; PARTITIONS],
    /// The number behind the last partition that has one, so that a walk stops there.
    end: u8,
}

impl Model for Marks {
    ghost use Rattle.std.specs.Prelude.{ℕ, List, Option, map, is_some, unwrap_or};
    ghost use Rattle.std.proofs.Common.{refl};
    ghost use Rattle.ftc_vector.specs.Marked.{marks_in, AreMarked, end_of, numbers_again, flags_again, end_again};

    ghost Value = { List (Option ℕ) };

    ghost view = { λ marks. marks_in marks.numbers marks.marked };

    ghost invariant = { λ marks. AreMarked marks.numbers marks.marked marks.end };

    ghost inverse = { λ marks. record {
      numbers = map (λ mark. unwrap_or mark 0) marks;
      marked = map is_some marks;
      end = end_of marks;
    } };

    ghost inverse_ok = { λ marks are. rw (
      numbers_again marks.numbers marks.marked marks.end are,
      flags_again marks.numbers marks.marked marks.end are,
      end_again (marks_in marks.numbers marks.marked) marks.end are.ends,
    ) refl };
}

impl Marks {
    /// No partition has a number.
    pub fn new() -> Marks
        ensures { result ≡ by_partition (λ _. None) }
    {
        Marks {
            numbers: [0; PARTITIONS],
            marked: [false; PARTITIONS],
            end: 0,
        }
    }

    /// Gives a partition that number.
    pub fn set(&mut self, partition: u8, number: u64)
        requires { partition < MOST_PARTITIONS }
        ensures { self.new ≡ slice_set self.old partition (Some number) }
    {
        self.numbers[usize::from(partition)] = number;
        self.marked[usize::from(partition)] = true;
        self.end = self.end.max(partition + 1);
    }

    /// The number behind the last partition that has one, 0 where none has.
    pub fn end(&self) -> u8
        ensures same { IsEnd self.now result }
        ensures bounds { AreMarks self.now }
    {
        self.end
    }

    /// The number of a partition, where it has one.
    pub fn at(&self, partition: u8) -> Option<u64>
        requires { partition < MOST_PARTITIONS }
        ensures same { result ≡ mark_at self.now partition }
        ensures bounds { AreMarks self.now }
    {
        if self.marked[usize::from(partition)] {
            return Some(self.numbers[usize::from(partition)]);
        }
        None
    }
}

impl PartialEq for Marks {
    ghost eq = { pointwise (option_eq nat_eq) };

    ghost laws = { Prim.search (comparing, rules) };

    fn eq(&self, other: &Marks) -> bool {
        self.numbers == other.numbers && self.marked == other.marked
    }
}

impl Eq for Marks {
    ghost laws = { Prim.search (comparing, rules) };
}

/// What a log needs of a partition, where it carries a number for it.
fn need(carried: Option<u64>, changed: bool) -> Option<u64>
    requires { (number : ℕ) → carried ≡ Some number → changed ≡ true → number < u64.MAX }
    ensures { result ≡ need_at carried changed }
{
    match carried {
        Some(number) if changed => Some(number + 1),
        _ => carried,
    }
}

/// What a replica has to have reached for it to have a log that carries these numbers and changes
/// these partitions: in each partition that the log changes the carried number and 1, in each other
/// partition that it marks the carried number.
pub fn need_of(before: &Marks, changed: PartSet) -> Marks
    requires { (partition carried : ℕ) → partition < MOST_PARTITIONS → mark_at before.now partition ≡ Some carried →
        has changed partition ≡ true → carried < u64.MAX }
    ensures { result ≡ need_of_marks before.now changed }
{
    let mut marks = Marks::new();
    for partition in 0..before.end() {
        let carried = before.at(partition);
        if let Some(number) = need(carried, changed.has(partition)) {
            marks.set(partition, number);
        }
    }
    marks
}
