//! Withheld packets that were looked at, and what they lack.

ghost use Rattle.std.specs.Prelude.{◌≡◌, ◌≤◌, ◌<◌, ◌+◌, ℕ, List, false, vec_len, [], OnOk};
ghost use Rattle.ftc_base.specs.declared.limits.TheConstants.{MOST_PARTITIONS, MOST_SERVERS};
ghost use Rattle.ftc_vector.specs.Vector.{number_at};
ghost use Rattle.ftc_edge.specs.Known.{known_at, IsBelowMarks, AreLacking};

use crate::lack::Lack;
use ftc_base::limits::MOST_SERVERS;
use ftc_base::{NoMemory, ServerId};
use ftc_vector::{Commits, Marks, Vector};
use std::alloc::Global;

/// Withheld packets that stand one behind another and were looked at, and for each group and partition the
/// least number that one of them lacks there. As long as none of these is reached, none of the packets is due.
#[derive(Debug, Drop)]
pub struct Stretch {
    /// The place of the first of them.
    pub begin: usize,
    /// The place behind the last of them.
    pub end: usize,
    /// The least numbers, by group.
    pub least: Vec<Marks>,
}

/// Whether a vector has reached one of the marks.
fn is_one_reached(vector: &Vector, marks: &Marks) -> bool
    ensures { result ≡ false → IsBelowMarks vector.now marks.now }
{
    for partition in 0..marks.end() {
        if let Some(least) = marks.at(partition) {
            if least <= vector.at(partition) {
                return true;
            }
        }
    }
    false
}

/// Gives a partition that number, unless it has a lower one.
fn lower(marks: &mut Marks, partition: u8, number: u64)
    requires { partition < MOST_PARTITIONS }
    ensures others { (vector : List ℕ) → IsBelowMarks vector marks.new → IsBelowMarks vector marks.old }
    ensures own { (vector : List ℕ) → IsBelowMarks vector marks.new → number_at vector partition < number }
{
    if let Some(least) = marks.at(partition) {
        if least <= number {
            return;
        }
    }
    marks.set(partition, number);
}

impl Stretch {
    /// No packet was looked at.
    pub fn new(alloc: Global) -> Stretch
        ensures begin { result.begin ≡ 0 }
        ensures end { result.end ≡ 0 }
        ensures least { result.least.items ≡ [] }
    {
        Stretch {
            begin: 0,
            end: 0,
            least: Vec::new(alloc),
        }
    }

    /// Makes room for marks of each group.
    pub fn make_room(&mut self) -> Result<(), NoMemory>
        requires { vec_len self.old.least ≤ MOST_SERVERS }
        ensures begin { self.new.begin ≡ self.old.begin }
        ensures end { self.new.end ≡ self.old.end }
        ensures ok { OnOk result (vec_len self.new.least ≡ MOST_SERVERS) }
        ensures few { vec_len self.new.least ≤ MOST_SERVERS }
        ensures grown { vec_len self.old.least ≤ vec_len self.new.least }
        ensures lacking { (commits : List (List ℕ)) → AreLacking commits self.new.least.items →
            AreLacking commits self.old.least.items }
    {
        while self.least.len() < usize::from(MOST_SERVERS) {
            self.least.push(Marks::new())?;
        }
        Ok(())
    }

    /// Whether one of the least numbers is reached.
    pub fn is_reached(&self, commits: &Commits) -> bool
        requires { vec_len self.now.least ≤ MOST_SERVERS }
        ensures { result ≡ false → AreLacking commits.now self.now.least.items }
    {
        for (group, marks) in self.least.iter().enumerate() {
            let group = ServerId::new(group as u8).unwrap();
            if is_one_reached(commits.of(group), marks) {
                return true;
            }
        }
        false
    }

    /// Forgets all its packets. The next that is looked at is the one at that place.
    pub fn restart(&mut self, place: usize)
        ensures begin { self.new.begin ≡ place }
        ensures end { self.new.end ≡ place }
        ensures len { vec_len self.new.least ≡ vec_len self.old.least }
    {
        for group in 0..self.least.len() {
            if self.least[group].end() > 0 {
                self.least[group] = Marks::new();
            }
        }
        self.begin = place;
        self.end = place;
    }

    /// The next packet was looked at and lacks this.
    pub fn add(&mut self, lack: Lack)
        requires len { MOST_SERVERS ≤ vec_len self.old.least }
        requires end { self.old.end < usize.MAX }
        ensures begin { self.new.begin ≡ self.old.begin }
        ensures end { self.new.end ≡ self.old.end + 1 }
        ensures len { vec_len self.new.least ≡ vec_len self.old.least }
        ensures others { (commits : List (List ℕ)) → AreLacking commits self.new.least.items →
            AreLacking commits self.old.least.items }
        ensures lack { (commits : List (List ℕ)) → AreLacking commits self.new.least.items →
            known_at commits lack.group lack.partition < lack.number }
    {
        let marks = &mut self.least[usize::from(lack.group.number())];
        lower(marks, lack.partition, lack.number);
        self.end += 1;
    }
}
