//! What holds of messages and their frames.

ghost use Rattle.std.specs.Prelude.{◌≡◌, ◌↔◌, ◌≤◌, ◌<◌, ◌+◌, ◌^◌, ◌++◌, ℕ, Bool, true, List, [], length, filter};
ghost use Rattle.std.specs.Prelude.{count_by, Option, Ok, Err, slice_index};
ghost use Rattle.std.specs.List.{AllByRecursion};
ghost use Rattle.ftc_message.specs.Logged.{Logged, log_follows};
ghost use Rattle.ftc_message.specs.Numbers.{number_bytes, number_of};
ghost use Rattle.ftc_message.specs.Bounds.{IsLog, AreLogs, IsNeed, AreNeeds, AreCommits, MarksSome};
ghost use Rattle.ftc_message.specs.WellFormed.{IsTyped, IsWellFormed};
ghost use Rattle.ftc_message.specs.Spelling.{spelling, log_bytes, needs_bytes, commits_bytes};
ghost use Rattle.ftc_message.specs.Reading.{log_at, needs_at, commits_at, message_of};
ghost use Rattle.ftc_message.specs.Ordered.{with_item, with_items, is_earlier, HasNone, AreApart, is_lower, HasNoNeed};
ghost use Rattle.ftc_message.specs.Ordered.{AreOfOthers};
ghost use Rattle.std.specs.Cmp.Lexicographic.{pointwise};
ghost use Rattle.ftc_message.specs.Same.{same_log, same_need, same_message};

use crate::fault::FrameFault;
use crate::message::Message;
use crate::need::Need;

/// The bytes of a number are those that it was read from, and it is read again from its bytes.
pub fn numbers()
    ensures four { (bytes : List ℕ) → length bytes ≡ 4 → ((place : ℕ) → slice_index bytes place < 256) →
        number_bytes 4 (number_of 4 bytes) ≡ bytes }
    ensures four_again { (number : ℕ) → number < 2 ^ 32 → number_of 4 (number_bytes 4 number) ≡ number }
    ensures eight { (bytes : List ℕ) → length bytes ≡ 8 → ((place : ℕ) → slice_index bytes place < 256) →
        number_bytes 8 (number_of 8 bytes) ≡ bytes }
    ensures eight_again { (number : ℕ) → number < 2 ^ 64 → number_of 8 (number_bytes 8 number) ≡ number }
{}

/// Two messages with one spelling are equal, and no spelling is a proper front of another. What spells
/// a message is read as that message, so it has no fault.
pub fn one_spelling()
    ensures same { (one other : Message) → IsTyped one → IsWellFormed one → IsTyped other → IsWellFormed other →
        spelling one ≡ spelling other → one ≡ other }
    ensures front { (one other : Message) (rest : List ℕ) → IsTyped one → IsWellFormed one → IsTyped other →
        IsWellFormed other →
        spelling one ++ rest ≡ spelling other → rest ≡ [] }
    ensures read { (message : Message) → IsTyped message → IsWellFormed message →
        message_of (spelling message) ≡ Ok message }
    ensures right { (message : Message) (fault : FrameFault) → IsTyped message → IsWellFormed message →
        message_of (spelling message) ≡ Err fault → ⊥ }
{}

/// A log, needs and commits are read again from their bytes, whatever stands behind these.
pub fn read_again()
    ensures log { (last : Option (ℕ × ℕ)) (log : Logged) (rest : List ℕ) → IsLog log → MarksSome log.before →
        log_follows last log.origin log.group ≡ true → log_at last (log_bytes log ++ rest) ≡ Ok (log, rest) }
    ensures needs { (most : ℕ) (needs : List Need) (rest : List ℕ) → AreNeeds needs →
        AllByRecursion (λ need. MarksSome need.marks) needs → length needs ≤ most →
        needs_at most 0 (needs_bytes needs ++ rest) ≡ Ok (needs, rest) }
    ensures commits { (commits : List (List ℕ)) (rest : List ℕ) → AreCommits commits →
        commits_at (commits_bytes commits ++ rest) ≡ Ok (commits, rest) }
{}

/// Logs rise where one or many are put at their places and where any are left out, and of each kind
/// there are afterwards as many as there were in both lists.
pub fn logs_in_order()
    ensures one { (log : Logged) (logs : List Logged) → IsLog log → AreLogs logs → HasNone log logs →
        AreLogs (with_item is_earlier log logs) }
    ensures many { (logs others : List Logged) → AreLogs logs → AreLogs others → AreApart logs others →
        AreLogs (with_items is_earlier logs others) }
    ensures fewer { (test : Logged → Bool) (logs : List Logged) → AreLogs logs → AreLogs (filter test logs) }
    ensures count { (test : Logged → Bool) (logs others : List Logged) →
        count_by test (with_items is_earlier logs others) ≡ count_by test logs + count_by test others }
{}

/// The same of needs.
pub fn needs_in_order()
    ensures one { (need : Need) (needs : List Need) → IsNeed need → AreNeeds needs → HasNoNeed need needs →
        AreNeeds (with_item is_lower need needs) }
    ensures many { (needs others : List Need) → AreNeeds needs → AreNeeds others → AreOfOthers needs others →
        AreNeeds (with_items is_lower needs others) }
    ensures fewer { (test : Need → Bool) (needs : List Need) → AreNeeds needs → AreNeeds (filter test needs) }
    ensures count { (test : Need → Bool) (needs others : List Need) →
        count_by test (with_items is_lower needs others) ≡ count_by test needs + count_by test others }
{}

/// What `==` tests is that the two are equal.
pub fn sameness()
    ensures logs { (one other : Logged) → (same_log one other ≡ true) ↔ (one ≡ other) }
    ensures log_lists { (one other : List Logged) → (pointwise same_log one other ≡ true) ↔ (one ≡ other) }
    ensures need_lists { (one other : List Need) → (pointwise same_need one other ≡ true) ↔ (one ≡ other) }
    ensures messages { (one other : Message) → (same_message one other ≡ true) ↔ (one ≡ other) }
{}
