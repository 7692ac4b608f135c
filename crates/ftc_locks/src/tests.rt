ghost use Rattle.std.specs.Prelude.{◌≡◌, ◌<◌, ◌≤◌, ◌+◌, ℕ, true};
ghost use Rattle.ftc_locks.specs.Locks.{holds, age_of};

use crate::{Acquired, LockTable};
use ftc_base::{WorkerId, WorkerSet};
use std::process::Abort;

fn worker(rt: &impl Abort, number: u8) -> WorkerId
    ensures { result ≡ number }
{
    WorkerId::new(number).expect(rt, "a worker is below 64")
}

/// A table of four partitions, which nobody holds.
fn empty() -> LockTable
    ensures partitions { result.partitions ≡ 4 }
    ensures ages { (worker partition : ℕ) → holds result worker partition ≡ true → age_of result worker + 1 ≡ worker }
{
    LockTable::new(4)
}

/// Worker 1 asks with age 0, worker 2 with age 1, and so on.
fn ask(rt: &impl Abort, table: &mut LockTable, number: u8, partition: u8, change: bool) -> Acquired
    requires number { 1 ≤ number }
    requires partition { partition < table.old.partitions }
    requires ages { (worker partition : ℕ) → holds table.old worker partition ≡ true →
        age_of table.old worker + 1 ≡ worker }
    ensures partitions { table.new.partitions ≡ table.old.partitions }
    ensures ages { (worker partition : ℕ) → holds table.new worker partition ≡ true →
        age_of table.new worker + 1 ≡ worker }
{
    let asking = worker(rt, number);
    table.acquire(asking, u64::from(number - 1), partition, change)
}

/// A worker gives up what it holds.
fn leave(rt: &impl Abort, table: &mut LockTable, number: u8)
    requires { (worker partition : ℕ) → holds table.old worker partition ≡ true → age_of table.old worker + 1 ≡ worker }
    ensures partitions { table.new.partitions ≡ table.old.partitions }
    ensures ages { (worker partition : ℕ) → holds table.new worker partition ≡ true →
        age_of table.new worker + 1 ≡ worker }
{
    table.free_all(worker(rt, number));
}

/// The answer is the wanted one.
fn is(rt: &impl Abort, answer: Acquired, wanted: Acquired) {
    assert_eq!(rt; answer, wanted);
}

/// These workers hold a partition, and one of them to change it or none.
fn is_held(rt: &impl Abort, table: &LockTable, partition: u8, by: WorkerSet, exclusive: bool)
    requires { partition < table.now.partitions }
{
    assert_eq!(rt; table.holders(partition), by);
    assert_eq!(rt; table.exclusive(partition), exclusive);
}

#[test]
fn an_older_worker_wounds_two(rt: HostRuntime) {
    let mut table = empty();
    let _ = ask(&rt, &mut table, 2, 0, true);
    let _ = ask(&rt, &mut table, 2, 1, false);
    let _ = ask(&rt, &mut table, 3, 1, false);
    let both = WorkerSet::new().with(2).with(3);
    is_held(&rt, &table, 1, both, false);
    let answer = ask(&rt, &mut table, 1, 1, true);
    is(&rt, answer, Acquired::Granted { wounded: both });
    is_held(&rt, &table, 1, WorkerSet::new().with(1), true);
    is_held(&rt, &table, 0, WorkerSet::new(), false);
    assert_eq!(rt; table.partitions(), 4);
}

#[test]
fn a_younger_worker_waits_for_the_oldest(rt: HostRuntime) {
    let mut table = empty();
    let _ = ask(&rt, &mut table, 3, 1, false);
    let _ = ask(&rt, &mut table, 2, 1, false);
    let _ = ask(&rt, &mut table, 1, 1, false);
    let (first, second) = (worker(&rt, 1), worker(&rt, 2));
    let answer = ask(&rt, &mut table, 3, 1, true);
    is(&rt, answer, Acquired::Blocked { holder: first });
    leave(&rt, &mut table, 1);
    let answer = ask(&rt, &mut table, 3, 1, true);
    is(&rt, answer, Acquired::Blocked { holder: second });
    leave(&rt, &mut table, 2);
    let answer = ask(&rt, &mut table, 3, 1, true);
    let wounded = WorkerSet::new();
    is(&rt, answer, Acquired::Granted { wounded });
    is_held(&rt, &table, 1, WorkerSet::new().with(3), true);
}
