//! What the tails of the groups are known to have.

ghost use Rattle.std.specs.Prelude.{◌≡◌, ◌≢◌, ◌<◌, ◌+◌, ◌==◌, ℕ, length, vec_capacity, IfOk, nat_eq};
ghost use Rattle.std.specs.List.{list_all};
ghost use Rattle.std.specs.Cmp.Lexicographic.{pointwise};
ghost use Rattle.std.specs.Cmp.Rules.{comparing};
ghost use Rattle.std.proofs.Common.{rules};
ghost use Rattle.ftc_vector.specs.Vector.{by_partition, merged, IsVector};
ghost use Rattle.ftc_vector.specs.Commits.{by_group, vector_of, all_merged, group_raised, held_of, AreHeld, IsGroupEnd};

use crate::group_vectors::GROUPS;
use crate::vector::{Vector, merge};
use ftc_base::limits::MOST_SERVERS;
use ftc_base::{NoMemory, ServerId};
use std::alloc::Global;
use std::marker::Model;

/// A vector for each group, from group 0 on: the greatest that is known of its tail. The vectors lie on
/// the heap, so that a message that carries them is cheap to move, and only as many as there are groups
/// whose tails are known to have something. A contract sees the list of the vectors of all groups.
#[derive(Debug, Drop)]
pub struct Commits {
    /// The vectors of the first groups, and behind them one that has 0 in each partition and stands for
    /// all others. There is room for a vector of each group, so that no other call takes memory.
    vectors: Vec<Vector>,
}

impl Model for Commits {
    ghost use Rattle.std.specs.Prelude.{◌<◌, ℕ, List, vec_capacity};
    ghost use Rattle.ftc_base.specs.declared.limits.TheConstants.{MOST_SERVERS};
    ghost use Rattle.ftc_vector.specs.Commits.{by_group, held_of, AreHeld};

    ghost Value = { List (List ℕ) };

    ghost view = { λ commits. by_group (held_of commits.vectors.items) };

    ghost invariant = { λ commits. AreHeld commits.vectors.items × (MOST_SERVERS < vec_capacity commits.vectors) };
}

/// Adds vectors of zeros, until the group has one of its own.
fn reach(vectors: &mut Vec<Vector>, group: usize)
    requires group { group < MOST_SERVERS }
    requires held { AreHeld vectors.old.items }
    requires room { MOST_SERVERS < vec_capacity vectors.old }
    ensures same { (other : ℕ) → held_of vectors.new.items other ≡ held_of vectors.old.items other }
    ensures own { group + 1 < length vectors.new.items }
    ensures held { AreHeld vectors.new.items }
    ensures room { MOST_SERVERS < vec_capacity vectors.new }
{
    while vectors.len() < group + 2 {
        let pushed: Result<_, _> = vectors.push(Vector::zero());
        pushed.unwrap();
    }
}

/// Does nothing. Its contract says which bounds the numbers have.
fn bounds(vectors: &[Vector])
    ensures { (group : ℕ) → group < length vectors.now → IsVector (vector_of vectors.now group) }
{
    for vector in vectors {
        let _ = vector.at(0);
    }
}

/// Merges the vector of a group with the given one.
fn raise(vectors: &mut Vec<Vector>, group: usize, vector: &Vector)
    requires group { group < MOST_SERVERS }
    requires held { AreHeld vectors.old.items }
    requires room { MOST_SERVERS < vec_capacity vectors.old }
    ensures own { held_of vectors.new.items group ≡ merged (held_of vectors.old.items group) vector.now }
    ensures others { (other : ℕ) → other ≢ group → held_of vectors.new.items other ≡ held_of vectors.old.items other }
    ensures held { AreHeld vectors.new.items }
    ensures room { MOST_SERVERS < vec_capacity vectors.new }
{
    let is_new = vectors.len() < group + 2;
    reach(vectors, group);
    if is_new {
        // The contract of this call tells how many partitions there are.
        let _ = vector.at(0);
        vectors[group] = *vector;
    } else {
        merge(&mut vectors[group], vector);
    }
}

impl Commits {
    /// Each group's vector has 0 in each partition.
    pub fn new(alloc: Global) -> Result<Commits, NoMemory>
        ensures { IfOk result (λ commits. commits ≡ by_group (λ _. by_partition (λ _. 0))) }
    {
        let mut vectors = Vec::with_capacity(alloc, GROUPS + 1)?;
        vectors.push(Vector::zero())?;
        Ok(Commits { vectors })
    }

    /// The same vectors once more.
    pub fn copy(&self, alloc: Global) -> Result<Commits, NoMemory>
        ensures { IfOk result (λ copy. copy ≡ self.now) }
    {
        let mut vectors = Vec::with_capacity(alloc, GROUPS + 1)?;
        vectors.extend_from_slice(self.vectors.as_slice())?;
        Ok(Commits { vectors })
    }

    /// The vector of a group.
    pub fn of(&self, group: ServerId) -> &Vector
        ensures same { result.now ≡ vector_of self.now group }
        ensures size { length self.now ≡ MOST_SERVERS }
    {
        let last = self.vectors.len() - 1;
        &self.vectors[usize::from(group.number()).min(last)]
    }

    /// Whether a group's vector has 0 in each partition.
    pub fn is_zero(&self, group: ServerId) -> bool
        ensures { result ≡ list_all (λ number. number == 0) (vector_of self.now group) }
    {
        let place = usize::from(group.number());
        if place + 1 >= self.vectors.len() {
            return true;
        }
        self.vectors[place].is_zero()
    }

    /// The number behind the last group whose vector has a number that isn't 0, and 0 where none has.
    pub fn end(&self) -> u8
        ensures { IsGroupEnd self.now result }
    {
        bounds(self.vectors.as_slice());
        let mut end = self.vectors.len() - 1;
        while end > 0 {
            if !self.vectors[end - 1].is_zero() {
                return end as u8;
            }
            end -= 1;
        }
        0
    }

    /// Does nothing. Its contract says which bounds the numbers have.
    pub fn bounds(&self)
        ensures size { length self.now ≡ MOST_SERVERS }
        ensures each { (group : ℕ) → group < MOST_SERVERS → IsVector (vector_of self.now group) }
    {
        bounds(self.vectors.as_slice());
    }

    /// Merges each group's vectors.
    pub fn merge(&mut self, other: &Commits)
        ensures { self.new ≡ all_merged self.old other.now }
    {
        bounds(self.vectors.as_slice());
        for group in 0..other.vectors.len() - 1 {
            raise(&mut self.vectors, group, &other.vectors[group]);
        }
    }

    /// Merges the group's vector with the given one. The other groups' vectors stay.
    pub fn raise(&mut self, group: ServerId, vector: &Vector)
        ensures { self.new ≡ group_raised self.old group vector.now }
    {
        raise(&mut self.vectors, usize::from(group.number()), vector);
    }
}

impl PartialEq for Commits {
    ghost eq = { pointwise (pointwise nat_eq) };

    ghost laws = { Prim.search (comparing, rules) };

    fn eq(&self, other: &Commits) -> bool {
        self.bounds();
        other.bounds();
        for number in 0..MOST_SERVERS {
            let group = ServerId::new(number).unwrap();
            if self.of(group) != other.of(group) {
                return false;
            }
        }
        true
    }
}

impl Eq for Commits {
    ghost laws = { Prim.search (comparing, rules) };
}
