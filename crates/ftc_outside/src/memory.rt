//! A desk in memory.

ghost use Rattle.std.specs.Prelude.{◌≡◌, ◌≤◌, ◌≢◌, ◌↔◌, ◌++◌, [], ⊤, List, ℕ, Option, Some, None, IfOk, OnOk, OnErr};
ghost use Rattle.std.specs.Prelude.{IsErrOf, option_map, IsOkUnless, codes};
ghost use Rattle.ftc_outside.specs.Desk.{SameFiles, SameButAt, EmptiedAt, GrewAt, MayHaveEmptiedAt, MayHaveGrownAt};
ghost use Rattle.ftc_outside.specs.Desk.{HasServed};

use crate::desk::{Desk, DeskError};
use ftc_base::{Bytes, NoMemory};
use std::alloc::Global;
use std::collections::BTreeMap;

/// Files in memory, all of which it tells.
#[derive(Drop)]
pub struct MemoryDesk {
    alloc: Global,
    files: BTreeMap<String, Bytes>,
    faults: u64,
}

impl MemoryDesk {
    ghost use Rattle.ftc_outside.specs.Memory.{file_of, memory_faults};

    /// A desk without files.
    pub fn new(alloc: Global) -> MemoryDesk
        ensures empty { (name : List ℕ) → file_of result name ≡ None }
        ensures faults { memory_faults result ≡ 0 }
    {
        MemoryDesk {
            alloc,
            files: BTreeMap::new(alloc),
            faults: 0,
        }
    }

    /// Sets a file.
    pub fn put(&mut self, name: &str, bytes: &[u8]) -> Result<(), NoMemory>
        ensures ok { OnOk result (file_of self.new name.now ≡ Some bytes.now) }
        ensures others { SameButAt name.now (file_of self.old) (file_of self.new) }
        ensures err { OnErr result (SameFiles (file_of self.old) (file_of self.new)) }
        ensures count { memory_faults self.new ≡ memory_faults self.old }
    {
        let mut content = Bytes::new(self.alloc);
        content.append(bytes)?;
        let key = String::from_str(self.alloc, name)?;
        self.files.insert(key, content)?;
        Ok(())
    }

    /// The bytes of a file.
    pub fn get(&self, name: &str) -> Option<&[u8]>
        ensures { option_map (λ bytes. bytes.now) result ≡ file_of self.now name.now }
    {
        match self.files.get(name) {
            Some(held) => Some(held.as_slice()),
            None => None,
        }
    }
}

impl Desk for MemoryDesk {
    ghost use Rattle.ftc_outside.specs.Memory.{file_of, memory_faults};

    ghost tells = { λ _. ⊤ };

    ghost file = { file_of };

    ghost faults = { memory_faults };

    ghost sound = { λ _. ⊤ };

    fn fetch(&mut self, _alloc: Global, name: &str) -> Result<Bytes, DeskError>
        ensures bytes { ⊤ → IfOk result (λ bytes. file_of self.old name.now ≡ Some bytes) }
        ensures files { ⊤ → SameFiles (file_of self.old) (file_of self.new) }
        ensures served { HasServed (λ _. ⊤) (λ _. ⊤) memory_faults (IsErrOf result DeskError.Failed) self.old self.new }
        ensures absent { ⊤ → IsErrOf result DeskError.Failed → file_of self.old name.now ≡ None }

        // It fails exactly where there is no such file.
        ensures failed { IsErrOf result DeskError.Failed ↔ (file_of self.old name.now ≡ None) }
    {
        match self.files.get(name) {
            Some(held) => Ok(held.copy()?),
            None => {
                self.faults = self.faults.saturating_add(1);
                Err(DeskError::Failed)
            }
        }
    }

    fn make(&mut self, _alloc: Global, name: &str) -> Result<(), DeskError>
        ensures made { ⊤ → OnOk result (EmptiedAt name.now (file_of self.new)) }
        ensures refused { ⊤ → OnErr result (MayHaveEmptiedAt name.now (file_of self.old) (file_of self.new)) }
        ensures others { ⊤ → SameButAt name.now (file_of self.old) (file_of self.new) }
        ensures served { HasServed (λ _. ⊤) (λ _. ⊤) memory_faults (IsErrOf result DeskError.Failed) self.old self.new }
        ensures absent { ⊤ → IsErrOf result DeskError.Failed → ⊥ }

        // It never fails, and without memory it changes nothing.
        ensures memory { IsOkUnless result DeskError.NoMemory }
        ensures unchanged { OnErr result (SameFiles (file_of self.old) (file_of self.new)) }
    {
        self.put(name, &[])?;
        Ok(())
    }

    fn append(&mut self, _alloc: Global, name: &str, bytes: &[u8]) -> Result<(), DeskError>
        ensures grown { ⊤ → OnOk result (GrewAt name.now bytes.now (file_of self.old) (file_of self.new)) }
        ensures refused { ⊤ → OnErr result (MayHaveGrownAt name.now bytes.now (file_of self.old) (file_of self.new)) }
        ensures others { ⊤ → SameButAt name.now (file_of self.old) (file_of self.new) }
        ensures served { HasServed (λ _. ⊤) (λ _. ⊤) memory_faults (IsErrOf result DeskError.Failed) self.old self.new }
        ensures absent { ⊤ → IsErrOf result DeskError.Failed → (file_of self.old name.now ≡ None)
            × (name.now ≢ codes "-") }

        // It fails exactly where there is neither such a file nor the name of standard output, and then
        // changes nothing.
        ensures failed { IsErrOf result DeskError.Failed
            ↔ ((file_of self.old name.now ≡ None) × (name.now ≢ codes "-")) }
        ensures unchanged { OnErr result (SameFiles (file_of self.old) (file_of self.new)) }
    {
        if let Some(held) = self.files.get_mut(name) {
            held.append(bytes)?;
            return Ok(());
        }
        if name == "-" {
            self.put(name, bytes)?;
            return Ok(());
        }
        self.faults = self.faults.saturating_add(1);
        Err(DeskError::Failed)
    }
}
