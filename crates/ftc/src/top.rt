//! A command, from its words to the files that it leaves.

ghost use Rattle.std.specs.Prelude.{◌≡◌, ◌↔◌, ◌⊎◌, ⊤, true, Some, None};
ghost use Rattle.ftc_outside.specs.Desk.{Rose, HasServed};
ghost use Rattle.ftc_words.specs.Shown.{named_of, shown_mode, shown};
ghost use Rattle.std.specs.List.{list_all};
ghost use Rattle.ftc_words.specs.Given.{is_name};
ghost use Rattle.ftc_words.specs.Command.{is_built, are_distinct, files_of, named_by, AreWorkers, IsWithin};
ghost use Rattle.ftc.specs.Answers.{IsRunAnswer};
ghost use Rattle.ftc.specs.Writing.{AreDifferent};
ghost use Rattle.ftc.specs.Checking.{IsCheckEnd, IsYesOrRefused};
ghost use Rattle.ftc.specs.Done.{Ends};
ghost use Rattle.ftc.specs.Ended.{asked, IsAnswer, HasEnded, IsQuiet, HasTexts, HasFiles, HasRightRun, WasLeft};

use crate::judge::judge;
use crate::laws::{run_laws, text_laws};
use crate::making::make_capture;
use crate::porting::{PortNames, tell_ports};
use crate::running::run_texts;
use crate::status::Status;
use crate::texts::read_texts;
use crate::watching::{WatchNames, watch_beats};
use ftc_base::{NoMemory, ServerId};
use ftc_outside::{Desk, Gate};
use ftc_protocol::what_a_run_released;
use ftc_stream::{Seen, Taps};
use ftc_words::{Command, Mode, Names, read_command};
use std::alloc::Global;
use std::sync::Wait;
use std::thread::Threads;

/// Runs with these names, as the mode says.
fn run_names<R: AllocGlobal + Threads + Wait + Sync, D: Desk, G: Gate>(
    rt: &R,
    names: Names<'_>,
    mode: Mode<'_>,
    desk: &mut D,
    gate: &G,
    taps: &mut Taps,
) -> Status
    requires apart { AreDifferent (named_of names) }
    requires workers { AreWorkers (shown_mode mode) }
    ensures ends { D.tells desk.old → Ends (D.sound desk.old) (named_of names.entry) (shown_mode mode.entry)
        (⟦<Taps as Seen>⟧.faces taps.old) (⟦<Taps as Seen>⟧.faces taps.new) (D.file desk.old) (D.file desk.new)
        result }
    ensures answer { IsRunAnswer result }
    ensures served { HasServed D.tells D.sound D.faults (result ≡ Status.DeskFault) desk.old desk.new }
{
    run_laws();
    what_a_run_released();
    let texts = match read_texts(rt.alloc(), names, mode, desk) {
        Ok(texts) => texts,
        Err(status) => return status,
    };
    match run_texts(rt, rt.alloc(), names, mode, &texts, desk, gate, taps) {
        Ok(()) => Status::Done,
        Err(error) => Status::from(error),
    }
}

/// Runs a command that is built.
fn run_command<R: AllocGlobal + Threads + Wait + Sync, D: Desk, G: Gate>(
    rt: &R,
    command: &Command<'_>,
    desk: &mut D,
    gate: &G,
    taps: &mut Taps,
) -> Status
    requires built { is_built (shown command.now) ≡ true }
    requires distinct { are_distinct (files_of (shown command.now)) ≡ true }
    requires named { list_all is_name (named_by (shown command.now)) ≡ true }
    requires within { IsWithin (shown command.now) }
    ensures answer { IsAnswer (Some (shown command.now)) result }
    ensures ends { D.tells desk.old → HasEnded (D.sound desk.old) (Some (shown command.now))
        (⟦<Taps as Seen>⟧.faces taps.old) (⟦<Taps as Seen>⟧.faces taps.new) (D.file desk.old) (D.file desk.new)
        result }
    ensures quiet { IsQuiet (Some (shown command.now)) →
        ⟦<Taps as Seen>⟧.faces taps.new ≡ ⟦<Taps as Seen>⟧.faces taps.old }
    ensures complete { D.tells desk.old → HasTexts (Some (shown command.now)) (D.file desk.old) →
        (Rose (D.faults desk.old) (D.faults desk.new) → ⊥) → (result ≡ Status.Done) ⊎ (result ≡ Status.NoMemory) }
    ensures complete_check { D.tells desk.old → HasFiles (Some (shown command.now)) (D.file desk.old) →
        (Rose (D.faults desk.old) (D.faults desk.new) → ⊥) → IsCheckEnd result }
    ensures exact { D.tells desk.old → HasRightRun (Some (shown command.now)) (D.file desk.old) →
        IsYesOrRefused result }
    ensures agrees { D.tells desk.old → WasLeft (Some (shown command.now)) (D.file desk.old) → IsYesOrRefused result }
    ensures served { HasServed D.tells D.sound D.faults (result ≡ Status.DeskFault) desk.old desk.new }
{
    text_laws();
    let alloc = rt.alloc();
    match command {
        Command::Run { names, mode } => run_names(rt, *names, *mode, desk, gate, taps),
        Command::Check { names } => judge(alloc, *names, desk),
        Command::Make {
            packets,
            seed,
            capture,
        } => make_capture(alloc, *packets, *seed, *capture, desk),
        Command::Ports {
            chain,
            capture,
            journal,
            server,
        } => {
            let names = PortNames {
                chain: *chain,
                capture: *capture,
                journal: *journal,
            };
            tell_ports(alloc, names, ServerId::new(*server).unwrap(), desk)
        }
        Command::Watch {
            limit,
            chain,
            capture,
            beats,
            script,
        } => {
            let names = WatchNames {
                chain: *chain,
                capture: *capture,
                beats: *beats,
                script: *script,
            };
            watch_beats(alloc, names, *limit, desk)
        }
    }
}

/// Runs the command of the words, if they are one's that is built.
///
/// The gate is passed by each visit of a worker. The taps are lent: a run tells them of each packet that it wrote, and
/// drops those that leave.
pub fn run<R: AllocGlobal + Threads + Wait + Sync, D: Desk, G: Gate>(
    rt: &R,
    words: &[&str],
    desk: &mut D,
    gate: &G,
    taps: &mut Taps,
) -> Status
    // Nothing is asked of the caller; without this line no `dyn` value may be lent.
    requires { ⊤ }

    // The words are no command that is built, exactly.
    ensures usage { result ≡ Status.Usage ↔ (asked words.now ≡ None) }

    // What the command may answer, over any desk.
    ensures answer { IsAnswer (asked words.now) result }

    // What the files hold at each end, where the desk tells them.
    ensures ends { D.tells desk.old → HasEnded (D.sound desk.old) (asked words.now)
        (⟦<Taps as Seen>⟧.faces taps.old) (⟦<Taps as Seen>⟧.faces taps.new) (D.file desk.old) (D.file desk.new)
        result }

    // Only a run tells the taps anything.
    ensures quiet { IsQuiet (asked words.now) → ⟦<Taps as Seen>⟧.faces taps.new ≡ ⟦<Taps as Seen>⟧.faces taps.old }

    // Where the texts of a run or of a watch are right, or those of a port table that there is, and no call on the desk
    // failed, it is done, but for want of memory; and where the files of a check can be read, it says what they are.
    ensures complete { D.tells desk.old → HasTexts (asked words.now) (D.file desk.old) →
        (Rose (D.faults desk.old) (D.faults desk.new) → ⊥) → (result ≡ Status.Done) ⊎ (result ≡ Status.NoMemory) }
    ensures complete_check { D.tells desk.old → HasFiles (asked words.now) (D.file desk.old) →
        (Rose (D.faults desk.old) (D.faults desk.new) → ⊥) → IsCheckEnd result }

    // To the files of one run a check says nothing but Yes, and so to what a run left that was done.
    ensures exact { D.tells desk.old → HasRightRun (asked words.now) (D.file desk.old) → IsYesOrRefused result }
    ensures agrees { D.tells desk.old → WasLeft (asked words.now) (D.file desk.old) → IsYesOrRefused result }

    // A fault is the desk's.
    ensures served { HasServed D.tells D.sound D.faults (result ≡ Status.DeskFault) desk.old desk.new }
{
    let read = match read_command(rt.alloc(), words) {
        Ok(read) => read,
        Err(NoMemory) => return Status::NoMemory,
    };
    match read {
        Some(command) => run_command(rt, &command, desk, gate, taps),
        None => Status::Usage,
    }
}
