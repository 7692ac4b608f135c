ghost use Rattle.std.specs.Prelude.{[], ◌∷◌};
ghost use Rattle.ftc_txn.specs.Slots.{Running};
ghost use Rattle.ftc_txn.specs.Head.{RunsUnwounded, AreItsWrites};

use crate::{Head, HeadCommit, ReadAnswer};
use ftc_base::limits::MOST_READS;
use ftc_base::{Key, PacketNo, ServerId, Value, WorkerId, Write, Writes, partition_of};
use ftc_message::Log;
use ftc_store::Store;
use ftc_vector::Vector;
use std::alloc::Global;
use std::process::Abort;

/// The partitions of the heads under test.
const PARTITIONS: u8 = 4;

fn worker(rt: &impl Abort, number: u8) -> WorkerId {
    WorkerId::new(number).expect(rt, "a worker is below 64")
}

/// A key of partition 2.
fn key(rt: &impl Abort) -> Key {
    Key::new(b"\x6d\x00\x07").expect(rt, "a key has 1 to 16 bytes")
}

/// A head of group 0.
fn new_head(rt: &impl Abort, alloc: Global) -> Head {
    let group = ServerId::new(0).expect(rt, "a server is below 16");
    Head::new(
        group,
        PARTITIONS,
        Store::new(alloc, PARTITIONS),
        Vector::zero(),
    )
}

/// The value of one byte.
fn one(rt: &impl Abort) -> Value {
    Value::new(b"\x01").expect(rt, "a value has at most 16 bytes")
}

/// Begins where the slot is idle and an age is left.
fn begin(head: &mut Head, worker: WorkerId, packet: PacketNo) -> Option<u64> {
    if head.answers(worker).is_some() || !head.ages_left() {
        return None;
    }
    Some(head.begin(worker, packet))
}

/// Reads where there is room for one more answer.
fn read(head: &mut Head, worker: WorkerId, key: &Key, change: bool) -> ReadAnswer {
    match head.answers(worker) {
        Some(answers) if answers.len() == MOST_READS => ReadAnswer::NotAsked,
        _ => head.read(worker, key, change),
    }
}

/// Commits without writes.
fn finish(head: &mut Head, worker: WorkerId) -> HeadCommit {
    head.commit(worker, &Writes::new())
}

/// The log that a commit without writes would make.
fn foreseen(head: &Head, worker: WorkerId) -> Option<Log> {
    head.log_of(worker, &Writes::new())
}

/// Commits one write, of a key that was read with leave to change it.
fn commit_one(head: &mut Head, worker: WorkerId, write: Write) -> HeadCommit
    requires { (running : Running) → RunsUnwounded head.old worker running →
        AreItsWrites head.old worker running (write ∷ []) }
{
    let partition = partition_of(&write.key, head.store().partitions());
    if head.vector().at(partition) == u64::MAX {
        return HeadCommit::NoMemory;
    }
    let mut writes = Writes::new();
    writes.push(write);
    head.commit(worker, &writes)
}

/// Reads a key with leave to change it, and commits a value that is put there.
fn put(head: &mut Head, worker: WorkerId, key: &Key, value: Value) -> HeadCommit {
    match head.answers(worker) {
        Some(answers) if answers.len() == MOST_READS => return HeadCommit::NoMemory,
        _ => {}
    }
    match head.read(worker, key, true) {
        ReadAnswer::Value(_) => commit_one(head, worker, Write::put(*key, value)),
        _ => HeadCommit::NoMemory,
    }
}

/// The number that a commit's log has of a partition, where it has a log and a number.
fn logged(commit: &HeadCommit, partition: u8) -> Option<u64> {
    if partition >= 64 {
        return None;
    }
    match commit {
        HeadCommit::Done(Some(log)) => log.before().at(partition),
        _ => None,
    }
}

/// Two workers, and a key that both ask for.
#[derive(Drop)]
struct Rivals {
    first: WorkerId,
    second: WorkerId,
    key: Key,
}

/// Workers 1 and 2, and a key of partition 2.
fn two_rivals(rt: &impl Abort) -> Rivals {
    Rivals {
        first: worker(rt, 1),
        second: worker(rt, 2),
        key: key(rt),
    }
}

/// Both begin, the first with packet 10 and the second with packet 11.
fn both_begin(rt: &impl Abort, head: &mut Head, rivals: &Rivals) {
    assert_eq!(rt; begin(head, rivals.first, 10), Some(0));
    assert_eq!(rt; begin(head, rivals.second, 11), Some(1));
}

/// A worker asks for the key, to change it or not, and has that answer.
fn is_answered(
    rt: &impl Abort,
    head: &mut Head,
    worker: WorkerId,
    key: &Key,
    change: bool,
    wanted: ReadAnswer,
) {
    assert_eq!(rt; read(head, worker, key, change), wanted);
}

/// A worker ends without writes, and its log has that number of partition 2.
fn ends(rt: &impl Abort, head: &mut Head, worker: WorkerId, number: u64) {
    let commit = finish(head, worker);
    assert_eq!(rt; logged(&commit, 2), Some(number));
}

/// The second worker has the key, and is wounded by the first, which is older.
fn second_is_wounded(rt: &impl Abort, head: &mut Head, rivals: &Rivals) {
    let Rivals { first, second, key } = rivals;
    is_answered(rt, head, *second, key, true, ReadAnswer::Value(None));
    is_answered(rt, head, *first, key, true, ReadAnswer::Value(None));
    assert_eq!(rt; head.wounded(*second), Some(*first));
    let wounded = ReadAnswer::Wounded { by: *first };
    is_answered(rt, head, *second, key, true, wounded);
    assert_eq!(rt; head.wounded(*second), None);
    let blocked = ReadAnswer::Blocked { holder: *first };
    is_answered(rt, head, *second, key, true, blocked);
}

/// The first worker puts a value.
fn first_puts(rt: &impl Abort, head: &mut Head, rivals: &Rivals, value: Value) {
    let commit = put(head, rivals.first, &rivals.key, value);
    assert!(rt; matches!(commit, HeadCommit::Done(Some(_))));
    assert_eq!(rt; head.store().get(&rivals.key), Some(value));
}

#[test]
fn an_older_transaction_wounds_a_younger_one(rt: HostRuntime) {
    let mut head = new_head(&rt, rt.alloc());
    let (rivals, value) = (two_rivals(&rt), one(&rt));
    both_begin(&rt, &mut head, &rivals);
    second_is_wounded(&rt, &mut head, &rivals);
    first_puts(&rt, &mut head, &rivals, value);
    let there = ReadAnswer::Value(Some(value));
    is_answered(&rt, &mut head, rivals.second, &rivals.key, true, there);
    ends(&rt, &mut head, rivals.second, 1);
    let again = finish(&mut head, rivals.second);
    assert_eq!(rt;
        (head.vector().at(2), matches!(again, HeadCommit::Idle)),
        (1, true)
    );
}

/// The first worker has the key, and the second is blocked until the first ends.
fn second_is_blocked(rt: &impl Abort, head: &mut Head, rivals: &Rivals) {
    let Rivals { first, second, key } = rivals;
    is_answered(rt, head, *first, key, true, ReadAnswer::Value(None));
    let blocked = ReadAnswer::Blocked { holder: *first };
    is_answered(rt, head, *second, key, true, blocked);
    ends(rt, head, *first, 0);
    is_answered(rt, head, *second, key, true, ReadAnswer::Value(None));
}

#[test]
fn a_younger_transaction_is_blocked(rt: HostRuntime) {
    let mut head = new_head(&rt, rt.alloc());
    let rivals = two_rivals(&rt);
    both_begin(&rt, &mut head, &rivals);
    second_is_blocked(&rt, &mut head, &rivals);
    head.quit(rivals.second);
    is_answered(
        &rt,
        &mut head,
        rivals.second,
        &rivals.key,
        true,
        ReadAnswer::Idle,
    );
    assert_eq!(rt; begin(&mut head, rivals.second, 12), Some(0));
}

/// Both workers read the key.
fn both_read(rt: &impl Abort, head: &mut Head, rivals: &Rivals) {
    for worker in [rivals.first, rivals.second] {
        is_answered(
            rt,
            head,
            worker,
            &rivals.key,
            false,
            ReadAnswer::Value(None),
        );
    }
}

/// A worker runs that packet, of which a commit without writes would make a log.
fn runs(rt: &impl Abort, head: &Head, worker: WorkerId, packet: Option<PacketNo>) {
    assert_eq!(rt; head.packet(worker), packet);
    assert_eq!(rt; foreseen(head, worker).map(|log| log.origin()), packet);
}

#[test]
fn readers_share_a_partition(rt: HostRuntime) {
    let mut head = new_head(&rt, rt.alloc());
    let rivals = two_rivals(&rt);
    both_begin(&rt, &mut head, &rivals);
    both_read(&rt, &mut head, &rivals);
    runs(&rt, &head, rivals.second, Some(11));
    ends(&rt, &mut head, rivals.second, 0);
    runs(&rt, &head, rivals.second, None);
    ends(&rt, &mut head, rivals.first, 0);
    assert_eq!(rt; head.vector().at(2), 0);
}
