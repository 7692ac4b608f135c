//! What holds of captures and their texts.

ghost use Rattle.std.specs.Prelude.{Bool, List, ℕ, ◌≡◌, ◌≤◌, ◌<◌, ◌^◌, ◌++◌, length};
ghost use Rattle.ftc_pcap.specs.Grammar.{number_bytes, number_of, IsCapture, capture_bytes, Spells, IsFault};

use crate::capture::{Capture, CaptureFault};
use ftc_base::limits::MOST_CAPTURE_BYTES;

/// The four bytes of a number are that number, whatever follows them.
pub fn one_number()
    ensures { (big : Bool) (number : ℕ) (rest : List ℕ) → number < 2 ^ 32 →
        number_of big (number_bytes big number ++ rest) ≡ number }
{}

/// A text is at most one capture.
pub fn one_reading()
    ensures { (text : List ℕ) (one other : Capture) → Spells text one → Spells text other → one ≡ other }
{}

/// A text has at most one first fault, and a text that is a capture has none.
pub fn one_fault()
    ensures one { (text : List ℕ) (one other : CaptureFault) → IsFault text one → IsFault text other → one ≡ other }
    ensures none { (text : List ℕ) (capture : Capture) (fault : CaptureFault) → Spells text capture →
        IsFault text fault → ⊥ }
{}

/// The bytes of a right capture are that capture, and no other.
pub fn round_trip()
    ensures spelled { (capture : Capture) → IsCapture capture → length (capture_bytes capture) ≤ MOST_CAPTURE_BYTES →
        Spells (capture_bytes capture) capture }
    ensures reads_back { (capture read : Capture) → IsCapture capture → Spells (capture_bytes capture) read →
        read ≡ capture }
{}
