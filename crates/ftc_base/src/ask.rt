//! What a middlebox rule asks for and decides.

ghost use Rattle.std.specs.Prelude.{◌≡◌, [], ◌∷◌};
ghost use Rattle.std.specs.Int.{w16, w32, w64};

use crate::key::{Key, Value};
use crate::limits::{MOST_READS, MOST_WRITES};
use arrayvec::ArrayVec;

/// A value that is put at a key, or, where it is None, the deletion of that key.
#[derive(Clone, Copy, Debug, Default, PartialEq, Eq)]
pub struct Write {
    pub key: Key,
    pub value: Option<Value>,
}

/// What the store has at a key that was read.
#[derive(Clone, Copy, Debug, Default, PartialEq, Eq)]
pub struct Answer {
    pub key: Key,
    pub value: Option<Value>,
}

/// The writes of one visit, in order.
pub type Writes = ArrayVec<Write, MOST_WRITES>;

/// The answers of one visit so far, in the order of its reads.
pub type Answers = ArrayVec<Answer, MOST_READS>;

/// How a packet is rewritten before it goes on. Addresses and ports are those of IPv4 (RFC 791) and
/// of TCP or UDP.
#[derive(Clone, Copy, Debug, PartialEq, Eq)]
pub enum Change {
    /// Not at all.
    Keep,
    /// Its source is set.
    Source { address: u32, port: u16 },
    /// Its destination is set.
    Destination { address: u32, port: u16 },
}

/// What becomes of a packet at a middlebox.
#[derive(Clone, Copy, Debug, PartialEq, Eq)]
pub enum Verdict {
    /// It goes on, rewritten so.
    Forward(Change),
    /// It is dropped.
    Filter,
}

/// The end of a visit.
#[derive(Debug, Drop)]
pub struct Finish {
    pub writes: Writes,
    pub verdict: Verdict,
}

/// What a rule asks next.
#[derive(Debug, Drop)]
pub enum Ask {
    /// The value at a key. `change` says whether the rule may write there.
    Read { key: Key, change: bool },
    /// Nothing more.
    Finish(Finish),
}

impl Write {
    ghost use Rattle.ftc_base.specs.Ask.{put};

    /// A value that is put at a key.
    pub fn put(key: Key, value: Value) -> Write
        ensures { result ≡ put key value }
    {
        Write {
            key,
            value: Some(value),
        }
    }
}

impl Answer {
    ghost use Rattle.ftc_base.specs.Ask.{number_in};

    /// The number that the value says, where it has 16 bits. The high byte is the first.
    pub fn as_u16(&self) -> Option<u16>
        ensures { result ≡ number_in w16 self.now.value }
    {
        match self.value?.as_slice() {
            [a, b] => Some(u16::from_be_bytes([*a, *b])),
            _ => None,
        }
    }

    /// The number that the value says, where it has 32 bits. The high byte is the first.
    pub fn as_u32(&self) -> Option<u32>
        ensures { result ≡ number_in w32 self.now.value }
    {
        match self.value?.as_slice() {
            [a, b, c, d] => Some(u32::from_be_bytes([*a, *b, *c, *d])),
            _ => None,
        }
    }

    /// The number that the value says, where it has 64 bits. The high byte is the first.
    pub fn as_u64(&self) -> Option<u64>
        ensures { result ≡ number_in w64 self.now.value }
    {
        match self.value?.as_slice() {
            [a, b, c, d, e, f, g, h] => {
                Some(u64::from_be_bytes([*a, *b, *c, *d, *e, *f, *g, *h]))
            }
            _ => None,
        }
    }
}

impl Ask {
    ghost use Rattle.ftc_base.specs.Ask.{finish, forward, forward_changed, filter_out};

    /// The packet goes on as it is, and nothing is written.
    pub fn keep() -> Ask
        ensures { result ≡ forward [] }
    {
        Ask::Finish(Finish {
            writes: Writes::new(),
            verdict: Verdict::Forward(Change::Keep),
        })
    }

    /// The packet goes on, rewritten, and nothing is written.
    pub fn rewrite(change: Change) -> Ask
        ensures { result ≡ forward_changed [] change }
    {
        Ask::Finish(Finish {
            writes: Writes::new(),
            verdict: Verdict::Forward(change),
        })
    }

    /// The packet is dropped, and nothing is written.
    pub fn filter() -> Ask
        ensures { result ≡ filter_out }
    {
        Ask::Finish(Finish {
            writes: Writes::new(),
            verdict: Verdict::Filter,
        })
    }
}
