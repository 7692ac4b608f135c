//! Runs a chain of middleboxes over a capture, checks the files of such a run, and makes a script of heartbeats.
#![tactic(auto)]

mod completing;
mod drive;
mod fates;
mod files;
mod judge;
mod laws;
mod making;
mod numbers;
mod output;
mod porting;
mod running;
mod status;
mod telling;
mod texts;
mod top;
mod watching;
mod workers;
mod writing;

use ftc_audit::AuditTap;
use ftc_outside::{CountTap, FileDesk, OpenGate, Tap};
use ftc_stream::Taps;
use status::Status;
use std::alloc::{AllocError, Global};
use std::env;
use std::process::ExitCode;
use telling::tell;

/// How many endpoints the packets of a run may come from until they aren't audited any more.
const MOST_ENDPOINTS: u32 = 65_536;

/// The texts, lent.
fn lent<'a>(alloc: Global, texts: &'a [String]) -> Result<Vec<&'a str>, AllocError> {
    let mut words = Vec::new(alloc);
    for text in texts {
        words.push(text.as_str())?;
    }
    Ok(words)
}

/// The program's words. None where there was no memory, or a word is no UTF-8.
fn given_words(rt: &HostRuntime) -> Option<Vec<String>> {
    let args = env::args(rt).ok()?;
    args.skip(1).collect::<Vec<String>>(rt.alloc()).ok()
}

/// Says how the command ended. The answer is its exit code.
fn say(rt: &HostRuntime, status: Status) -> ExitCode {
    let (code, _) = tell(rt.alloc(), status, &mut rt.stderr());
    code
}

/// Runs the command of the program's words over the system's files. Two taps are told of released packets: one counts
/// them, the other the endpoints from which they come.
fn main(rt: HostRuntime) -> ExitCode {
    let Some(texts) = given_words(&rt) else {
        return say(&rt, Status::NoMemory);
    };
    let Ok(words) = lent(rt.alloc(), &texts) else {
        return say(&rt, Status::NoMemory);
    };
    // A list that a function made and gave out could be of any taps, and no contract of it would say anything.
    let mut list: Vec<Box<dyn Tap + Send>> = Vec::new(rt.alloc());
    let counts = Box::new(rt.alloc(), CountTap::new());
    let audit = Box::new(rt.alloc(), AuditTap::new(rt.alloc(), MOST_ENDPOINTS));
    let (Ok(counts), Ok(audit)) = (counts, audit) else {
        return say(&rt, Status::NoMemory);
    };
    if list.push(counts).is_err() || list.push(audit).is_err() {
        return say(&rt, Status::NoMemory);
    }
    let mut taps = Taps::new(list);
    let mut desk = FileDesk::new(&rt);
    let status = top::run(&rt, &words, &mut desk, &OpenGate, &mut taps);
    say(&rt, status)
}

#[cfg(test)]
mod tests;
