//! How a command ended.

ghost use Rattle.std.specs.Prelude.{◌≡◌, IfOk, string_bytes};
ghost use Rattle.ftc.specs.declared.status.Status.TheVariants as status;
ghost use Rattle.ftc.specs.Status.{chain_number, capture_number, journal_number, beats_number, code_of, fault_line};
ghost use Rattle.ftc.specs.Status.{verdict_line, ports_line, line_of, desk_status, chain_status, capture_status};
ghost use Rattle.ftc.specs.Status.{script_status, journal_status, schedule_status, ports_status, beats_status};

use ftc_audit::PortsCause;
use ftc_base::{Bytes, NoMemory, Refuse};
use ftc_check::Checked;
use ftc_conf::{ChainCause, ChainFault};
use ftc_journal::{JournalCause, JournalFault};
use ftc_outside::DeskError;
use ftc_pcap::{CaptureCause, CaptureFault};
use ftc_script::{ScriptCause, ScriptFault};
use ftc_watch::{BeatsCause, BeatsFault};
use std::alloc::{AllocError, Global};

/// How a command ended.
#[derive(Clone, Copy, Debug, PartialEq, Eq)]
pub enum Status {
    Done,
    Usage,
    Chain { line: u64, cause: ChainCause },
    Capture { at: u64, cause: CaptureCause },
    Script { line: u32, cause: ScriptCause },
    /// A schedule has the causes of a journal.
    Schedule { line: u64, cause: JournalCause },
    Journal { line: u64, cause: JournalCause },
    Beats { line: u32, cause: BeatsCause },
    /// What a check says, other than Yes: a check that says Yes is done.
    Check { verdict: Checked },
    /// Why there is no port table.
    Ports { cause: PortsCause },
    DeskFault,
    NoMemory,
}

fn chain_number(cause: ChainCause) -> u8
    ensures { result ≡ chain_number cause }
{
    cause as u8
}

fn capture_number(cause: CaptureCause) -> u8
    ensures { result ≡ capture_number cause }
{
    cause as u8
}

fn journal_number(cause: JournalCause) -> u8
    ensures { result ≡ journal_number cause }
{
    cause as u8
}

fn beats_number(cause: BeatsCause) -> u8
    ensures { result ≡ beats_number cause }
{
    cause as u8
}

/// The line of a fault at a place of that kind.
fn fault_words(alloc: Global, kind: &str, place: u64, cause: u8) -> Result<String, AllocError>
    ensures { IfOk result (λ text. string_bytes text ≡ fault_line kind.now place cause) }
{
    format!(in alloc; "{kind} {place}: cause {cause}")
}

/// The line of what a check says.
fn verdict_words(alloc: Global, verdict: Checked) -> Result<String, AllocError>
    ensures { IfOk result (λ text. string_bytes text ≡ verdict_line verdict) }
{
    match verdict {
        Checked::Yes => Ok(String::new(alloc)),
        Checked::NotRun { event } => format!(in alloc; "check: event {event}"),
        Checked::Unfinished => format!(in alloc; "check: unfinished"),
        Checked::OutDiffers { at } => format!(in alloc; "check: out byte {at}"),
        Checked::ReportDiffers { at } => format!(in alloc; "check: report byte {at}"),
    }
}

/// The line of what is wrong with a port table.
fn ports_words(alloc: Global, cause: PortsCause) -> Result<String, AllocError>
    ensures { IfOk result (λ text. string_bytes text ≡ ports_line cause) }
{
    match cause {
        PortsCause::NotNat => format!(in alloc; "ports: not a nat"),
        PortsCause::BadStep { place } => format!(in alloc; "ports: step {place}"),
    }
}

/// The line of a status.
fn words(alloc: Global, status: Status) -> Result<String, AllocError>
    ensures { IfOk result (λ text. string_bytes text ≡ line_of status) }
{
    match status {
        Status::Done => Ok(String::new(alloc)),
        Status::Usage => format!(in alloc;
            "usage: ftc run CHAIN SCRIPT CAPTURE OUT JOURNAL REPORT [--workers N | --alone SCHEDULE]"
        ),
        Status::Chain { line, cause } => {
            fault_words(alloc, "chain: line", line, chain_number(cause))
        }
        Status::Capture { at, cause } => {
            fault_words(alloc, "capture: byte", at, capture_number(cause))
        }
        Status::Script { line, cause } => {
            fault_words(alloc, "script: line", u64::from(line), cause.code())
        }
        Status::Schedule { line, cause } => {
            fault_words(alloc, "schedule: line", line, journal_number(cause))
        }
        Status::Journal { line, cause } => {
            fault_words(alloc, "journal: line", line, journal_number(cause))
        }
        Status::Beats { line, cause } => {
            fault_words(alloc, "beats: line", u64::from(line), beats_number(cause))
        }
        Status::Check { verdict } => verdict_words(alloc, verdict),
        Status::Ports { cause } => ports_words(alloc, cause),
        Status::DeskFault => format!(in alloc; "desk: failed"),
        Status::NoMemory => format!(in alloc; "memory: refused"),
    }
}

impl Status {
    /// The exit code of the program.
    pub fn code(&self) -> u8
        ensures { result ≡ code_of self.now }
    {
        match self {
            Status::Done => 0,
            Status::Usage => 2,
            Status::Chain { .. }
            | Status::Capture { .. }
            | Status::Script { .. }
            | Status::Schedule { .. }
            | Status::Journal { .. }
            | Status::Beats { .. } => 3,
            Status::DeskFault => 4,
            Status::NoMemory => 5,
            Status::Check { .. } => 6,
            Status::Ports { .. } => 7,
        }
    }

    /// The line that the program says on standard error, without a line feed. It is empty where the
    /// command is done.
    pub fn line(&self, alloc: Global) -> Result<Bytes, NoMemory>
        ensures { IfOk result (λ line. line ≡ line_of self.now) }
    {
        let text = words(alloc, *self)?;
        let mut line = Bytes::new(alloc);
        line.append(text.as_bytes())?;
        Ok(line)
    }
}

impl From<DeskError> for Status {
    ghost from_gives = { λ error ending. ending ≡ desk_status error };

    fn from(error: DeskError) -> Status {
        match error {
            DeskError::Failed => Status::DeskFault,
            DeskError::NoMemory => Status::NoMemory,
        }
    }
}

impl From<NoMemory> for Status {
    ghost from_gives = { λ _ ending. ending ≡ status.NoMemory };

    fn from(_error: NoMemory) -> Status {
        Status::NoMemory
    }
}

impl From<Refuse<ChainFault>> for Status {
    ghost from_gives = { λ refusal ending. ending ≡ chain_status refusal };

    fn from(refusal: Refuse<ChainFault>) -> Status {
        match refusal {
            Refuse::Bad(ChainFault { line, cause }) => Status::Chain { line, cause },
            Refuse::NoMemory => Status::NoMemory,
        }
    }
}

impl From<Refuse<CaptureFault>> for Status {
    ghost from_gives = { λ refusal ending. ending ≡ capture_status refusal };

    fn from(refusal: Refuse<CaptureFault>) -> Status {
        match refusal {
            Refuse::Bad(CaptureFault { at, cause }) => Status::Capture { at, cause },
            Refuse::NoMemory => Status::NoMemory,
        }
    }
}

impl From<Refuse<ScriptFault>> for Status {
    ghost from_gives = { λ refusal ending. ending ≡ script_status refusal };

    fn from(refusal: Refuse<ScriptFault>) -> Status {
        match refusal {
            Refuse::Bad(ScriptFault { line, cause }) => Status::Script { line, cause },
            Refuse::NoMemory => Status::NoMemory,
        }
    }
}

impl From<Refuse<JournalFault>> for Status {
    ghost from_gives = { λ refusal ending. ending ≡ journal_status refusal };

    fn from(refusal: Refuse<JournalFault>) -> Status {
        match refusal {
            Refuse::Bad(JournalFault { line, cause }) => Status::Journal { line, cause },
            Refuse::NoMemory => Status::NoMemory,
        }
    }
}

/// How a command ends whose schedule is refused.
pub fn schedule_status(refusal: Refuse<JournalFault>) -> Status
    ensures { result ≡ schedule_status refusal }
{
    match refusal {
        Refuse::Bad(JournalFault { line, cause }) => Status::Schedule { line, cause },
        Refuse::NoMemory => Status::NoMemory,
    }
}

impl From<Refuse<PortsCause>> for Status {
    ghost from_gives = { λ refusal ending. ending ≡ ports_status refusal };

    fn from(refusal: Refuse<PortsCause>) -> Status {
        match refusal {
            Refuse::Bad(cause) => Status::Ports { cause },
            Refuse::NoMemory => Status::NoMemory,
        }
    }
}

impl From<Refuse<BeatsFault>> for Status {
    ghost from_gives = { λ refusal ending. ending ≡ beats_status refusal };

    fn from(refusal: Refuse<BeatsFault>) -> Status {
        match refusal {
            Refuse::Bad(BeatsFault { line, cause }) => Status::Beats { line, cause },
            Refuse::NoMemory => Status::NoMemory,
        }
    }
}
