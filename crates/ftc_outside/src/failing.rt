//! A desk in memory whose listed calls fail.

ghost use Rattle.std.specs.Prelude.{◌≡◌, ◌≤◌, ◌≢◌, ◌↔◌, ⊤, ◌⊎◌, List, ℕ, Option, Some, None, IfOk, OnOk, OnErr};
ghost use Rattle.std.specs.Prelude.{IsErrOf, IsTrue, Contains, codes};
ghost use Rattle.ftc_outside.specs.Desk.{SameFiles, SameButAt, EmptiedAt, GrewAt, MayHaveEmptiedAt, MayHaveGrownAt};
ghost use Rattle.ftc_outside.specs.Desk.{Rose, counted, HasServed};

use crate::desk::{Desk, DeskError};
use crate::memory::MemoryDesk;
use ftc_base::{Bytes, NoMemory};
use std::alloc::Global;

/// Files in memory. The calls of the listed numbers, counted from 0, fail and change nothing.
#[derive(Drop)]
pub struct FailingDesk {
    inner: MemoryDesk,
    listed: Vec<u64>,
    calls: u64,
    faults: u64,
}

impl FailingDesk {
    ghost use Rattle.ftc_outside.specs.Failing.{inner_of, listed_of, calls_of, failing_faults};

    /// A desk over these files, whose calls of these numbers will fail.
    pub fn new(alloc: Global, inner: MemoryDesk, calls: &[u64]) -> Result<FailingDesk, NoMemory>
        ensures inner { IfOk result (λ desk. inner_of desk ≡ inner) }
        ensures listed { IfOk result (λ desk. listed_of desk ≡ calls.now) }
        ensures calls { IfOk result (λ desk. calls_of desk ≡ 0) }
        ensures faults { IfOk result (λ desk. failing_faults desk ≡ 0) }
    {
        let listed = Vec::from_slice(alloc, calls)?;
        Ok(FailingDesk {
            inner,
            listed,
            calls: 0,
            faults: 0,
        })
    }

    /// The files.
    pub fn inner(&self) -> &MemoryDesk
        ensures { result.now ≡ inner_of self.now }
    {
        &self.inner
    }

    /// Counts a call, and tells whether it is listed.
    fn fails(&mut self) -> bool
        ensures listed { IsTrue result ↔ Contains (listed_of self.old) (calls_of self.old) }
        ensures inner { inner_of self.new ≡ inner_of self.old }
        ensures list { listed_of self.new ≡ listed_of self.old }
        ensures calls { calls_of self.new ≡ counted (calls_of self.old) }
        ensures rises { calls_of self.old ≤ calls_of self.new }
        ensures count { failing_faults self.old ≤ failing_faults self.new }
        ensures rose { IsTrue result → Rose (failing_faults self.old) (failing_faults self.new) }
        ensures still { (IsTrue result → ⊥) → failing_faults self.new ≡ failing_faults self.old }
    {
        let fails = self.listed.contains(&self.calls);
        self.calls = self.calls.saturating_add(1);
        if fails {
            self.faults = self.faults.saturating_add(1);
        }
        fails
    }

    /// Counts a fault where the answer is one.
    fn noted<T>(&mut self, answer: Result<T, DeskError>) -> Result<T, DeskError>
        ensures same { result ≡ answer }
        ensures inner { inner_of self.new ≡ inner_of self.old }
        ensures list { listed_of self.new ≡ listed_of self.old }
        ensures calls { calls_of self.new ≡ calls_of self.old }
        ensures count { failing_faults self.old ≤ failing_faults self.new }
        ensures rose { IsErrOf result DeskError.Failed → Rose (failing_faults self.old) (failing_faults self.new) }
        ensures still { (IsErrOf result DeskError.Failed → ⊥) → failing_faults self.new ≡ failing_faults self.old }
    {
        if let Err(DeskError::Failed) = answer {
            self.faults = self.faults.saturating_add(1);
        }
        answer
    }
}

impl Desk for FailingDesk {
    ghost use Rattle.ftc_outside.specs.Memory.{file_of};
    ghost use Rattle.ftc_outside.specs.Failing.{inner_of, listed_of, calls_of, failing_faults, shown_of, IsSoundDesk};

    ghost tells = { λ _. ⊤ };

    ghost file = { shown_of };

    ghost faults = { failing_faults };

    ghost sound = { IsSoundDesk };

    fn fetch(&mut self, alloc: Global, name: &str) -> Result<Bytes, DeskError>
        ensures bytes { ⊤ → IfOk result (λ bytes. shown_of self.old name.now ≡ Some bytes) }
        ensures files { ⊤ → SameFiles (shown_of self.old) (shown_of self.new) }
        ensures served { HasServed (λ _. ⊤) IsSoundDesk failing_faults
            (IsErrOf result DeskError.Failed) self.old self.new }
        ensures absent { IsSoundDesk self.old → IsErrOf result DeskError.Failed → shown_of self.old name.now ≡ None }

        // It fails exactly in a listed call and where there is no such file.
        ensures failed { IsErrOf result DeskError.Failed
            ↔ (Contains (listed_of self.old) (calls_of self.old) ⊎ (shown_of self.old name.now ≡ None)) }

        ensures calls { calls_of self.new ≡ counted (calls_of self.old) }
        ensures listed { listed_of self.new ≡ listed_of self.old }
    {
        if self.fails() {
            return Err(DeskError::Failed);
        }
        let answer = self.inner.fetch(alloc, name);
        self.noted(answer)
    }

    fn make(&mut self, alloc: Global, name: &str) -> Result<(), DeskError>
        ensures made { ⊤ → OnOk result (EmptiedAt name.now (shown_of self.new)) }
        ensures refused { ⊤ → OnErr result (MayHaveEmptiedAt name.now (shown_of self.old) (shown_of self.new)) }
        ensures others { ⊤ → SameButAt name.now (shown_of self.old) (shown_of self.new) }
        ensures served { HasServed (λ _. ⊤) IsSoundDesk failing_faults
            (IsErrOf result DeskError.Failed) self.old self.new }
        ensures absent { IsSoundDesk self.old → IsErrOf result DeskError.Failed → ⊥ }

        // It fails exactly in a listed call, which changes nothing.
        ensures failed { IsErrOf result DeskError.Failed ↔ Contains (listed_of self.old) (calls_of self.old) }
        ensures unchanged { IsErrOf result DeskError.Failed → SameFiles (shown_of self.old) (shown_of self.new) }

        ensures calls { calls_of self.new ≡ counted (calls_of self.old) }
        ensures listed { listed_of self.new ≡ listed_of self.old }
    {
        if self.fails() {
            return Err(DeskError::Failed);
        }
        let answer = self.inner.make(alloc, name);
        self.noted(answer)
    }

    fn append(&mut self, alloc: Global, name: &str, bytes: &[u8]) -> Result<(), DeskError>
        ensures grown { ⊤ → OnOk result (GrewAt name.now bytes.now (shown_of self.old) (shown_of self.new)) }
        ensures refused { ⊤ → OnErr result (MayHaveGrownAt name.now bytes.now (shown_of self.old) (shown_of self.new)) }
        ensures others { ⊤ → SameButAt name.now (shown_of self.old) (shown_of self.new) }
        ensures served { HasServed (λ _. ⊤) IsSoundDesk failing_faults
            (IsErrOf result DeskError.Failed) self.old self.new }
        ensures absent { IsSoundDesk self.old → IsErrOf result DeskError.Failed → (shown_of self.old name.now ≡ None)
            × (name.now ≢ codes "-") }

        // It fails exactly in a listed call and where there is neither such a file nor the name of
        // standard output, and then changes nothing.
        ensures failed { IsErrOf result DeskError.Failed
            ↔ (Contains (listed_of self.old) (calls_of self.old)
            ⊎ ((shown_of self.old name.now ≡ None) × (name.now ≢ codes "-"))) }
        ensures unchanged { IsErrOf result DeskError.Failed → SameFiles (shown_of self.old) (shown_of self.new) }

        ensures calls { calls_of self.new ≡ counted (calls_of self.old) }
        ensures listed { listed_of self.new ≡ listed_of self.old }
    {
        if self.fails() {
            return Err(DeskError::Failed);
        }
        let answer = self.inner.append(alloc, name, bytes);
        self.noted(answer)
    }
}
