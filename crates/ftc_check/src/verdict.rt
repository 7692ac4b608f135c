//! What the check of a run's files says.

/// Whether a journal, an OUT and a report are those of one run. The first that applies.
#[derive(Clone, Copy, Debug, PartialEq, Eq)]
pub enum Checked {
    /// All of them are.
    Yes,
    /// The protocol doesn't allow that event of the journal.
    NotRun { event: u64 },
    /// The protocol still allows an event after the journal's last.
    Unfinished,
    /// OUT isn't what the run gives, from that byte on.
    OutDiffers { at: u64 },
    /// The report isn't that of the run, from that byte on.
    ReportDiffers { at: u64 },
}
