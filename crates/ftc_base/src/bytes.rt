//! Bytes that can grow.

ghost use Rattle.std.specs.Prelude.{◌≡◌, ◌++◌, [], length, IfOk, OnOk, OnErr, ◌==◌, nat_eq, take, drop};
ghost use Rattle.std.proofs.Common.{rules};
ghost use Rattle.std.specs.Borrow.{Lends, sem, u8 as byte};
ghost use Rattle.ftc_base.specs.contracts.bytes.Bytes.{the_row};
ghost use denote.Array.{Array};
ghost use Rattle.std.specs.Cmp.Lexicographic.{pointwise};
ghost use Rattle.std.specs.Cmp.Rules.{comparing};

use crate::items::Items;
use crate::refusal::NoMemory;
use std::alloc::Global;
use std::marker::Model;

/// A list of bytes.
#[derive(Debug, Drop)]
pub struct Bytes {
    buffer: Vec<u8>,
}

/// Lines of a text, each without its line feed.
pub type Lines = Items<Bytes>;

impl Model for Bytes {
    ghost use Rattle.std.specs.Prelude.{ℕ, List};

    ghost Value = { List ℕ };

    ghost view = { λ bytes. bytes.buffer.items };
}

impl Bytes {
    /// No bytes yet.
    pub fn new(alloc: Global) -> Bytes
        ensures { result ≡ [] }
    {
        Bytes {
            buffer: Vec::new(alloc),
        }
    }

    /// No bytes yet, in memory of the same allocator.
    pub fn none_alike(&self) -> Bytes
        ensures { result ≡ [] }
    {
        Bytes {
            buffer: Vec::new(*self.buffer.allocator()),
        }
    }

    /// The bytes of a vector, which are not copied.
    pub fn from_vec(buffer: Vec<u8>) -> Bytes
        ensures { result ≡ buffer.items }
    {
        Bytes { buffer }
    }

    /// The bytes as a vector. They are not copied.
    pub fn into_vec(self) -> Vec<u8>
        ensures { result.items ≡ self }
    {
        self.buffer
    }

    /// The bytes.
    pub fn as_slice(&self) -> &[u8]
        ensures { result.now ≡ self.now }
    {
        self.buffer.as_slice()
    }

    /// The bytes, which may be changed in place.
    pub fn as_mut_slice(&mut self) -> &mut [u8]
        ensures value { result.now ≡ self.old }
        // What is written takes the place of the bytes. It is as long as they were.
        ensures* writes_back { sem 𝓛 (Lends the_row (Array byte 0) self.entry result
            (λ bytes. take (length self.old) (bytes ++ drop (length bytes) self.old))) }
    {
        self.buffer.as_mut_slice()
    }

    /// How many bytes there are.
    pub fn len(&self) -> usize
        ensures { result ≡ length self.now }
    {
        self.buffer.len()
    }

    /// Whether there is no byte.
    pub fn is_empty(&self) -> bool
        ensures { result ≡ (length self.now == 0) }
    {
        self.buffer.is_empty()
    }

    /// Adds the piece at the end.
    pub fn append(&mut self, piece: &[u8]) -> Result<(), NoMemory>
        ensures ok { OnOk result (self.new ≡ self.old ++ piece.now) }
        ensures err { OnErr result (self.new ≡ self.old) }
    {
        self.buffer.extend_from_slice(piece)?;
        Ok(())
    }

    /// The same bytes once more.
    pub fn copy(&self) -> Result<Bytes, NoMemory>
        ensures { IfOk result (λ copy. copy ≡ self.now) }
    {
        let buffer = self.buffer.clone()?;
        Ok(Bytes { buffer })
    }
}

impl PartialEq for Bytes {
    ghost eq = { pointwise nat_eq };

    ghost laws = { Prim.search (comparing, rules) };

    fn eq(&self, other: &Bytes) -> bool {
        self.as_slice() == other.as_slice()
    }
}

impl Eq for Bytes {
    ghost laws = { Prim.search (comparing, rules) };
}
