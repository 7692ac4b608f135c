//! A map in which a write that was reserved cannot fail.

ghost use Rattle.std.specs.Prelude.{◌≡◌, ◌≤◌, ◌+◌, ◌↔◌, length, IsTrue, OnOk, OnErr, IsOk, IfOk};
ghost use Rattle.std.specs.Prelude.{map as map_list};
ghost use Rattle.std.specs.FinMap as map;
ghost use Rattle.ftc_store.specs.Store.{written, changed};
ghost use Rattle.ftc_store.specs.Pairs.{key_value};

use crate::pairs::{Answers2, copy_of, pairs_of, sort_pairs};
use ftc_base::limits::MOST_PARTITIONS;
use ftc_base::{Items, Key, NoMemory, Value, Write, Writes};
use std::alloc::Global;
use std::collections::HashMap;
use std::marker::Model;

/// The content of a middlebox, whose keys lie in partitions.
#[derive(Drop)]
pub struct Store {
    held: HashMap<Key, Value>,
    partitions: u8,
}

impl Model for Store {
    ghost use Rattle.std.specs.FinMap as map;
    ghost use Rattle.std.specs.HashMap.{spare};
    ghost use Rattle.ftc_store.specs.Store.{Stored, stored_code};

    ghost Value = { Stored };

    ghost coded = { stored_code };

    ghost view = { λ store. record {
      content = map.from_entries store.held.entries;
      partitions = store.partitions;
      spare = spare store.held;
    } };
}

impl Store {
    /// A store without keys, whose keys will lie in so many partitions.
    pub fn new(alloc: Global, partitions: u8) -> Store
        requires some { 1 ≤ partitions }
        requires within { partitions ≤ MOST_PARTITIONS }
        ensures empty { result.content ≡ map.empty }
        ensures partitions { result.partitions ≡ partitions }
    {
        Store {
            held: HashMap::new(alloc),
            partitions,
        }
    }

    /// The value at a key.
    pub fn get(&self, key: &Key) -> Option<Value>
        ensures { result ≡ map.get self.now.content key.now }
    {
        self.held.get(key).copied()
    }

    /// In how many partitions the keys lie.
    pub fn partitions(&self) -> u8
        ensures { result ≡ self.now.partitions }
    {
        self.partitions
    }

    /// How many keys there are.
    pub fn len(&self) -> usize
        ensures { result ≡ map.len self.now.content }
    {
        self.held.len()
    }

    /// Whether there is no key.
    pub fn is_empty(&self) -> bool
        ensures { IsTrue result ↔ (map.len self.now.content ≡ 0) }
    {
        self.len() == 0
    }

    /// All pairs, by rising key bytes.
    pub fn list(&self, alloc: Global) -> Result<Answers2, NoMemory>
        ensures { IfOk result (λ list. map_list key_value list ≡ map.entries self.now.content) }
    {
        let mut pairs = pairs_of(alloc, &self.held)?;
        sort_pairs(&mut pairs)?;
        Ok(Items::from_vec(pairs))
    }

    /// A store with the same content and as many partitions.
    pub fn copy(&self, alloc: Global) -> Result<Store, NoMemory>
        ensures content { IfOk result (λ copy. copy.content ≡ self.now.content) }
        ensures partitions { IfOk result (λ copy. copy.partitions ≡ self.now.partitions) }
    {
        let held = copy_of(alloc, &self.held)?;
        Ok(Store {
            held,
            partitions: self.partitions,
        })
    }

    /// Makes room for so many more keys.
    pub fn reserve(&mut self, count: usize) -> Result<(), NoMemory>
        ensures ok { OnOk result (count ≤ self.new.spare) }
        ensures content { self.new.content ≡ self.old.content }
        ensures partitions { self.new.partitions ≡ self.old.partitions }
        ensures spare { self.old.spare ≤ self.new.spare }
        ensures succeeds { count ≤ self.old.spare → IsOk result }
    {
        self.held.reserve(count)?;
        Ok(())
    }

    /// Makes one write.
    fn write(&mut self, write: Write)
        requires { 1 ≤ self.old.spare }
        ensures content { self.new.content ≡ changed self.old.content write.key write.value }
        ensures partitions { self.new.partitions ≡ self.old.partitions }
        ensures spare { self.old.spare ≤ self.new.spare + 1 }
    {
        match write.value {
            Some(value) => {
                let put: Result<_, _> = self.held.insert(write.key, value);
                let _ = put.unwrap();
            }
            None => {
                self.held.remove(&write.key);
            }
        }
    }

    /// Makes the writes, in their order. There is room for each, so none can fail.
    pub fn apply(&mut self, writes: &Writes)
        requires { length writes.now.items ≤ self.old.spare }
        ensures content { self.new.content ≡ written writes.now.items self.old.content }
        ensures partitions { self.new.partitions ≡ self.old.partitions }
        ensures spare { self.old.spare ≤ self.new.spare + length writes.now.items }
    {
        for write in writes.as_slice() {
            self.write(*write);
        }
    }
}
