//! What a run that is written down consists of.

/// A worked run: the texts that it is played from, and what has to come of it.
pub struct Trial {
    pub name: &'static str,
    pub chain: &'static str,
    pub script: &'static str,
    pub packets: &'static [&'static [u8]],
    /// The schedule by which one thread drives the run.
    pub schedule: &'static str,
    pub journal: &'static str,
    /// The report, once no event is legal any more.
    pub report: &'static str,
    /// What breaks a rule when it is done to the journal, and the answer: `event E` for the first event that is
    /// refused, or `unfinished` where all are accepted and another is legal behind them.
    pub broken: &'static [(Change, &'static str)],
}

/// A change of a journal. Events are numbered from 0.
#[derive(Clone, Copy, Debug)]
pub enum Change {
    /// That event gets that place instead of its own.
    Moved { event: usize, to: usize },
    /// It is left out.
    LeftOut { event: usize },
    /// Another one stands in its place.
    Instead { event: usize, line: &'static str },
}

/// A schedule that says nothing.
pub const NO_EVENTS: &str = "ftc-journal 2\n";

/// UDP datagrams without content: from 10.0.0.5, port 5001, to 198.51.100.7, port 53; the same from
/// 10.0.0.6; and an answer from there to 203.0.113.5, port 20000. A monitor of eight groups counts the first in
/// group 7, since 10 + 0 + 0 + 5 is 7 modulo 8, and the second in group 0.
pub const A: [u8; 42] = [
    2, 0, 0, 0, 0, 1, 2, 0, 0, 0, 0, 2, 8, 0, 0x45, 0, 0, 28, 0, 1, 0, 0, 64, 17, 0x46, 0x91, 10,
    0, 0, 5, 198, 51, 100, 7, 0x13, 0x89, 0, 53, 0, 8, 0xb7, 0xe0,
];

pub const C: [u8; 42] = [
    2, 0, 0, 0, 0, 1, 2, 0, 0, 0, 0, 2, 8, 0, 0x45, 0, 0, 28, 0, 1, 0, 0, 64, 17, 0x46, 0x90, 10,
    0, 0, 6, 198, 51, 100, 7, 0x13, 0x89, 0, 53, 0, 8, 0xb7, 0xdf,
];

pub const D: [u8; 42] = [
    2, 0, 0, 0, 0, 1, 2, 0, 0, 0, 0, 2, 8, 0, 0x45, 0, 0, 28, 0, 1, 0, 0, 64, 17, 0x14, 0x90, 198,
    51, 100, 7, 203, 0, 113, 5, 0, 53, 0x4e, 0x20, 0, 8, 0x4b, 0x48,
];

/// Two monitors and three. Every server has the counts of every other.
pub const TWO: &str = "f 1\npartitions 4\nmonitor 8\nmonitor 8\n";

pub const THREE: &str = "f 2\npartitions 4\nmonitor 8\nmonitor 8\nmonitor 8\n";
