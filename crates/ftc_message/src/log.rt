//! A log: what a visit left.

ghost use Rattle.std.specs.Prelude.{◌≡◌, ◌≤◌, ℕ, true, None, IsSome, length};
ghost use Rattle.std.specs.List.{AllByRecursion};
ghost use Rattle.ftc_base.specs.Sets.{has};
ghost use Rattle.ftc_vector.specs.Vector.{mark_at};
ghost use Rattle.ftc_message.specs.Logged.{keys_rise};
ghost use Rattle.ftc_message.specs.Bounds.{IsLog, IsWrite};
ghost use Rattle.ftc_message.specs.Same.{same_log};
ghost use Rattle.ftc_message.specs.SameLaws.{log_equivalence};
ghost use Rattle.std.specs.Cmp.{partial_equiv_from_equiv};

use ftc_base::limits::MOST_WRITES;
use ftc_base::{PacketNo, PartSet, ServerId, Write, Writes};
use ftc_vector::Marks;
use std::marker::Model;

/// What a visit left: the group and the packet that name it, the numbers that its touched partitions
/// had before, which of these it changed, and its writes by rising key. A contract sees these five.
#[derive(Debug, Drop)]
pub struct Log {
    group: ServerId,
    origin: PacketNo,
    before: Marks,
    changed: PartSet,
    writes: Writes,
}

impl Model for Log {
    ghost use Rattle.ftc_message.specs.Logged.{Logged};
    ghost use Rattle.ftc_message.specs.Bounds.{IsLog};

    ghost Value = { Logged };

    ghost view = { λ log. record {
      group = log.group;
      origin = log.origin;
      before = log.before;
      changed = log.changed;
      writes = log.writes.items;
    } };

    ghost invariant = { λ log. IsLog (record {
      group = log.group;
      origin = log.origin;
      before = log.before;
      changed = log.changed;
      writes = log.writes.items;
    }) };
}

/// Every write has a key and a value of few bytes.
fn is_write(write: &Write)
    ensures { IsWrite write.now }
{
    let _ = write.key.as_slice();
    if let Some(value) = &write.value {
        let _ = value.as_slice();
    }
}

/// Every list of writes is short, and each is a write.
fn are_writes(writes: &Writes)
    ensures few { length writes.now.items ≤ MOST_WRITES }
    ensures each { AllByRecursion IsWrite writes.now.items }
{
    let _ = writes.len();
    for write in writes.as_slice() {
        is_write(write);
    }
}

impl Log {
    /// The log of these five.
    pub fn new(
        group: ServerId,
        origin: PacketNo,
        before: Marks,
        changed: PartSet,
        writes: Writes,
    ) -> Log
        requires marked { (partition : ℕ) → has changed partition ≡ true → IsSome (mark_at before partition) }
        requires rising { keys_rise None writes.items ≡ true }
        ensures { result ≡ record {
          group = group;
          origin = origin;
          before = before;
          changed = changed;
          writes = writes.items;
        } }
    {
        // The contracts of these calls tell the bounds of the parts.
        let _ = (group.number(), before.at(0));
        are_writes(&writes);
        Log {
            group,
            origin,
            before,
            changed,
            writes,
        }
    }

    /// The group whose head made it.
    pub fn group(&self) -> ServerId
        ensures same { result ≡ self.now.group }
        ensures bounds { IsLog self.now }
    {
        self.group
    }

    /// The packet of the visit.
    pub fn origin(&self) -> PacketNo
        ensures { result ≡ self.now.origin }
    {
        self.origin
    }

    /// The numbers that the touched partitions had before.
    pub fn before(&self) -> &Marks
        ensures { result.now ≡ self.now.before }
    {
        &self.before
    }

    /// The partitions that the visit changed.
    pub fn changed(&self) -> PartSet
        ensures { result ≡ self.now.changed }
    {
        self.changed
    }

    /// The writes.
    pub fn writes(&self) -> &Writes
        ensures { result.now.items ≡ self.now.writes }
    {
        &self.writes
    }

    /// The same log once more.
    pub fn copy(&self) -> Log
        ensures { result ≡ self.now }
    {
        let mut writes = Writes::new();
        for write in self.writes.as_slice() {
            writes.push(*write);
        }
        Log {
            group: self.group,
            origin: self.origin,
            before: self.before,
            changed: self.changed,
            writes,
        }
    }
}

impl PartialEq for Log {
    ghost eq = { same_log };

    ghost laws = { partial_equiv_from_equiv log_equivalence };

    fn eq(&self, other: &Log) -> bool {
        self.group == other.group
            && self.origin == other.origin
            && self.before == other.before
            && self.changed == other.changed
            && self.writes.as_slice() == other.writes.as_slice()
    }
}

impl Eq for Log {
    ghost laws = { log_equivalence };
}
