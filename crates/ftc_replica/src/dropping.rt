//! Kept logs among which dropped ones still lie: those that the vector covers by which the logs were pruned.

ghost use Rattle.std.specs.Prelude.{◌≡◌, ◌<◌, ◌↔◌, IsTrue, true, false, None, Some, IfSome, IfOk, length, slice_get};
ghost use Rattle.std.specs.List.{list_any};
ghost use Rattle.std.specs.VecDeque.{deque_capacity};
ghost use Rattle.ftc_vector.specs.Order.{IsBelow};
ghost use Rattle.ftc_message.specs.Logged.{Logged};
ghost use Rattle.ftc_replica.specs.Kept.{missing, covers_log, is_dropped, left};

use crate::coverage::covers_log;
use ftc_base::NoMemory;
use ftc_base::limits::MOST_PARTITIONS;
use ftc_message::Log;
use ftc_vector::Vector;
use std::alloc::Global;
use std::collections::VecDeque;

/// How many logs may lie there beyond twice those that the last sweep left. So a sweep that comes as they grow goes
/// over fewer than two logs for each that was kept since the last one.
const UNSWEPT: usize = 64;

/// Whether no number of a vector is greater than that of the other.
fn is_below(vector: &Vector, other: &Vector) -> bool
    ensures { IsTrue result ↔ IsBelow vector.now other.now }
{
    for partition in 0..MOST_PARTITIONS {
        if vector.at(partition) > other.at(partition) {
            return false;
        }
    }
    true
}

/// Whether a vector covers all that is dropped.
fn reaches_dropped(pruned: &Option<Vector>, commit: &Vector) -> bool
    ensures { IsTrue result ↔ IfSome pruned.now (λ vector. IsBelow vector commit.now) }
{
    match pruned {
        Some(vector) => is_below(vector, commit),
        None => true,
    }
}

/// Whether a log is dropped, where it lies among logs that were pruned so.
pub fn is_dropped(pruned: &Option<Vector>, log: &Log) -> bool
    ensures { result ≡ is_dropped pruned.now log.now }
{
    match pruned {
        Some(vector) => covers_log(vector, log),
        None => false,
    }
}

/// Whether the logs were pruned last by that vector.
pub fn is_pruned_by(pruned: &Option<Vector>, commit: &Vector) -> bool
    ensures { IsTrue result ↔ (pruned.now ≡ Some commit.now) }
{
    match pruned {
        Some(vector) => vector == commit,
        None => false,
    }
}

/// Takes out the logs in front that the vector covers, up to the first that it doesn't. No other log moves.
pub fn drop_front(logs: &mut VecDeque<Log>, commit: &Vector)
    ensures items { missing commit.now logs.new.items ≡ missing commit.now logs.old.items }
    ensures front { (log : Logged) → slice_get logs.new.items 0 ≡ Some log → covers_log commit.now log ≡ false }
    ensures capacity { deque_capacity logs.new ≡ deque_capacity logs.old }
{
    while let Some(log) = logs.front() {
        if !covers_log(commit, log) {
            return;
        }
        let _ = logs.pop_front();
    }
}

/// Whether the vector covers one of the logs.
fn covers_some(commit: &Vector, logs: &VecDeque<Log>) -> bool
    ensures { result ≡ list_any (covers_log commit.now) logs.now.items }
{
    logs.iter().any(|log| covers_log(commit, log))
}

/// Takes out the logs that the vector covers.
fn drop_covered(logs: &mut VecDeque<Log>, commit: &Vector)
    ensures items { logs.new.items ≡ missing commit.now logs.old.items }
    ensures capacity { deque_capacity logs.new ≡ deque_capacity logs.old }
{
    drop_front(logs, commit);
    // A `retain` moves each log that stays.
    if covers_some(commit, logs) {
        logs.retain(|log| !covers_log(commit, log));
    }
}

/// Takes out what is dropped, so that each log that lies there is left.
pub fn sweep(logs: &mut VecDeque<Log>, pruned: &mut Option<Vector>)
    ensures items { logs.new.items ≡ left pruned.old logs.old.items }
    ensures pruned { pruned.new ≡ None }
    ensures capacity { deque_capacity logs.new ≡ deque_capacity logs.old }
{
    if let Some(vector) = *pruned {
        drop_covered(logs, &vector);
    }
    *pruned = None;
}

/// Makes sure that a vector covers all that is dropped, so that nothing comes back where the logs are pruned by it.
pub fn keep_dropped(logs: &mut VecDeque<Log>, pruned: &mut Option<Vector>, commit: &Vector)
    ensures items { missing commit.now logs.new.items ≡ missing commit.now (left pruned.old logs.old.items) }
    ensures capacity { deque_capacity logs.new ≡ deque_capacity logs.old }
{
    if !reaches_dropped(pruned, commit) {
        sweep(logs, pruned);
    }
}

/// Makes sure that a log would be left, and that not too many dropped ones lie there. `swept` is how many logs the
/// last sweep left, or fewer.
pub fn make_way(logs: &mut VecDeque<Log>, pruned: &mut Option<Vector>, swept: &mut usize, log: &Log)
    ensures items { left pruned.new logs.new.items ≡ left pruned.old logs.old.items }
    ensures left { is_dropped pruned.new log.now ≡ false }
    ensures capacity { deque_capacity logs.new ≡ deque_capacity logs.old }
{
    *swept = logs.len().min(*swept);
    let most = swept.saturating_mul(2).saturating_add(UNSWEPT);
    if logs.len() > most || is_dropped(pruned, log) {
        sweep(logs, pruned);
        *swept = logs.len();
    }
}

/// How many of the logs are left.
pub fn count_left(logs: &VecDeque<Log>, pruned: &Option<Vector>) -> usize
    ensures { result ≡ length (left pruned.now logs.now.items) }
{
    let mut count = 0;
    for place in 0..logs.len() {
        if !is_dropped(pruned, &logs[place]) {
            count += 1;
        }
    }
    count
}

/// Where the log lies that has so many in front of it that are left.
pub fn place_of(logs: &VecDeque<Log>, pruned: &Option<Vector>, count: usize) -> usize
    requires { count < length (left pruned.now logs.now.items) }
    ensures within { result < length logs.now.items }
    ensures same { slice_get logs.now.items result ≡ slice_get (left pruned.now logs.now.items) count }
{
    let mut passed = 0;
    for place in 0..logs.len() {
        if !is_dropped(pruned, &logs[place]) {
            if passed == count {
                return place;
            }
            passed += 1;
        }
    }
    unreachable!()
}

/// Copies of the logs that are left.
pub fn copy_left(
    alloc: Global,
    logs: &VecDeque<Log>,
    pruned: &Option<Vector>,
) -> Result<VecDeque<Log>, NoMemory>
    ensures { IfOk result (λ copies. copies.items ≡ left pruned.now logs.now.items) }
{
    let mut copies = VecDeque::new(alloc);
    for place in 0..logs.len() {
        let log = &logs[place];
        if !is_dropped(pruned, log) {
            copies.push_back(log.copy())?;
        }
    }
    Ok(copies)
}
