//! A vector for each group, held in place.

ghost use Rattle.std.specs.Prelude.{◌≡◌, ◌<◌, ℕ, length};
ghost use Rattle.ftc_vector.specs.Vector.{by_partition, IsVector};
ghost use Rattle.ftc_vector.specs.Commits.{by_group, vector_of, all_merged, group_raised};

use crate::vector::{Vector, merge};
use ftc_base::ServerId;
use ftc_base::limits::MOST_SERVERS;
use std::marker::Model;

/// How many groups there may be, one for each server.
pub(crate) const GROUPS: usize = MOST_SERVERS as usize;

/// A vector for each group, from group 0 on, held in place: a copy takes no memory, but moves them all. A
/// contract sees the list of the vectors.
#[derive(Clone, Copy, Debug, PartialEq, Eq)]
pub struct GroupVectors {
    vectors: [Vector; GROUPS],
}

impl Model for GroupVectors {
    ghost use Rattle.std.specs.Prelude.{◌≡◌, ℕ, List, length};
    ghost use Rattle.ftc_base.specs.declared.limits.TheConstants.{MOST_SERVERS};

    ghost Value = { List (List ℕ) };

    ghost view = { λ commits. commits.vectors };

    ghost invariant = { λ commits. length commits.vectors ≡ MOST_SERVERS };

    ghost inverse = { λ vectors. record { vectors = vectors } };
}

impl GroupVectors {
    /// Each group's vector has 0 in each partition.
    pub fn new() -> GroupVectors
        ensures { result ≡ by_group (λ _. by_partition (λ _. 0)) }
    {
        GroupVectors {
            vectors: [Vector::zero(); GROUPS],
        }
    }

    /// The vector of a group.
    pub fn of(&self, group: ServerId) -> &Vector
        ensures same { result.now ≡ vector_of self.now group }
        ensures size { length self.now ≡ MOST_SERVERS }
    {
        &self.vectors[usize::from(group.number())]
    }

    /// Does nothing. Its contract says which bounds the numbers have.
    pub fn bounds(&self)
        ensures size { length self.now ≡ MOST_SERVERS }
        ensures each { (group : ℕ) → group < MOST_SERVERS → IsVector (vector_of self.now group) }
    {
        for vector in &self.vectors {
            let _ = vector.at(0);
        }
    }

    /// Merges each group's vectors.
    pub fn merge(&mut self, other: &GroupVectors)
        ensures { self.new ≡ all_merged self.old other.now }
    {
        for (group, vector) in self.vectors.iter_mut().enumerate() {
            merge(vector, &other.vectors[group]);
        }
    }

    /// Merges the group's vector with the given one. The other groups' vectors stay.
    pub fn raise(&mut self, group: ServerId, vector: &Vector)
        ensures { self.new ≡ group_raised self.old group vector.now }
    {
        merge(&mut self.vectors[usize::from(group.number())], vector);
    }
}
