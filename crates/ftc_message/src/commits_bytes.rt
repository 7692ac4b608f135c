//! The bytes of what is known of the tails, which is written as needs whose numbers are not 0.

ghost use Rattle.std.specs.Prelude.{◌≡◌, ◌<◌, ◌≤◌, [], ◌∷◌, ◌++◌, length, is_some, OnOk, OnErr, IfOk};
ghost use Rattle.std.specs.List.{list_any, flat_map};
ghost use Rattle.ftc_vector.specs.Commits.{vector_of, IsGroupEnd};
ghost use Rattle.ftc_message.specs.Bounds.{AreCommits};
ghost use Rattle.ftc_message.specs.Spelling.{not_zero, marked, marks_from, need_bytes, known_from, commits_bytes};
ghost use Rattle.ftc_message.specs.Reading.{commits_at};
ghost use Rattle.ftc_message.specs.Front.{IsFront};

use crate::bytes::append_entry;
use crate::fault::FieldFault;
use crate::field::within_at;
use crate::need_bytes::later_group_at;
use crate::parts::known_at;
use ftc_base::limits::{MOST_PARTITIONS, MOST_SERVERS};
use ftc_base::{Bytes, NoMemory, Refuse, ServerId};
use ftc_vector::{Commits, Vector};
use std::alloc::Global;

/// The commits at the front, and the bytes behind them.
#[tactic(auto, unfolding(crate::specs::Reading::commits_at, crate::specs::Reading::needs_at))]
pub fn commits_at(alloc: Global, bytes: &[u8]) -> Result<(Commits, &[u8]), Refuse<FieldFault>>
    ensures value { IsFront result (commits_at bytes.now) }
    ensures spelled { IfOk result (λ found. bytes.now ≡ commits_bytes found.0 ++ found.1.now) }
{
    let (count, after) = within_at(0, MOST_SERVERS, bytes)?;
    let mut rest = after;
    let mut from = 0;
    let mut commits = Commits::new(alloc)?;
    for _ in 0..count {
        let (group, behind) = match later_group_at(from, rest) {
            Ok(found) => found,
            Err(fault) => return Err(Refuse::Bad(fault)),
        };
        let mut vector = Vector::zero();
        rest = known_at(behind, &mut vector)?;
        from = group.number() + 1;
        commits.raise(group, &vector);
    }
    Ok((commits, rest))
}

/// Whether what is known of the group of that number has a number that isn't 0.
fn is_known(commits: &Commits, place: u8) -> bool
    requires { place < MOST_SERVERS }
    ensures { result ≡ list_any is_some (not_zero (vector_of commits.now place)) }
{
    let group = ServerId::new(place).unwrap();
    !commits.is_zero(group)
}

/// How many numbers of a vector aren't 0.
fn count_not_zero(vector: &Vector) -> usize
    ensures count { result ≡ marked (not_zero vector.now) }
    ensures few { result ≤ MOST_PARTITIONS }
{
    // The contract of this call tells how many partitions there are.
    let _ = vector.at(0);
    // A count that is as wide as the numbers is the faster one.
    let mut count: usize = 0;
    for partition in 0..MOST_PARTITIONS {
        if vector.at(partition) != 0 {
            count += 1;
        }
    }
    count
}

/// Adds the numbers of a vector that aren't 0, each behind its partition. There are so many.
fn append_numbers(vector: &Vector, count: usize, out: &mut Bytes) -> Result<(), NoMemory>
    requires { count ≡ marked (not_zero vector.now) }
    ensures { OnOk result (out.new ≡ out.old ++ marks_from 0 (not_zero vector.now)) }
{
    // The contract of this call tells how many partitions there are.
    let _ = vector.at(0);
    let mut left = count;
    for partition in 0..MOST_PARTITIONS {
        if left == 0 {
            return Ok(());
        }
        let number = vector.at(partition);
        if number != 0 {
            append_entry(partition, number, out)?;
            left -= 1;
        }
    }
    Ok(())
}

/// How many groups have a number that is not 0, where the last of them stands before `end`.
fn count_known(commits: &Commits, end: u8) -> u8
    requires { IsGroupEnd commits.now end }
    ensures { result ≡ length (known_from 0 commits.now) }
{
    // The contract of this call tells how many groups there are.
    let _ = commits.of(ServerId::new(0).unwrap());
    let mut count = 0;
    for place in 0..end {
        if is_known(commits, place) {
            count += 1;
        }
    }
    count
}

/// Every group's vector has its bounds.
fn are_commits(commits: &Commits)
    ensures { AreCommits commits.now }
{
    for place in 0..MOST_SERVERS {
        let _ = commits.of(ServerId::new(place).unwrap()).at(0);
    }
}

/// Adds what is known of the group of that number, where it has a number that isn't 0.
fn append_known(commits: &Commits, place: u8, out: &mut Bytes) -> Result<(), NoMemory>
    requires { place < MOST_SERVERS }
    ensures { OnOk result (out.new ≡ out.old
        ++ flat_map need_bytes (known_from place (vector_of commits.now place ∷ []))) }
{
    let vector = commits.of(ServerId::new(place).unwrap());
    let count = count_not_zero(vector);
    if count == 0 {
        return Ok(());
    }
    out.append(&[place, count as u8])?;
    append_numbers(vector, count, out)
}

/// Adds the commits' bytes at the end. Where memory is refused, some of them may have been added.
pub(crate) fn add_commits(commits: &Commits, out: &mut Bytes) -> Result<(), NoMemory>
    ensures added { OnOk result (out.new ≡ out.old ++ commits_bytes commits.now) }
    ensures bounds { AreCommits commits.now }
{
    are_commits(commits);
    let end = commits.end();
    out.append(&[count_known(commits, end)])?;
    for place in 0..end {
        append_known(commits, place, out)?;
    }
    Ok(())
}

/// Adds the commits' bytes at the end.
pub fn append_commits(commits: &Commits, out: &mut Bytes) -> Result<(), NoMemory>
    ensures ok { OnOk result (out.new ≡ out.old ++ commits_bytes commits.now) }
    ensures err { OnErr result (out.new ≡ out.old) }
    ensures bounds { OnOk result (AreCommits commits.now) }
{
    let mut piece = out.none_alike();
    add_commits(commits, &mut piece)?;
    out.append(piece.as_slice())
}
