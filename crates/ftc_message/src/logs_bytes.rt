//! The bytes of the logs of a message.

ghost use Rattle.std.specs.Prelude.{◌≡◌, ◌<◌, ◌++◌, length, OnOk};
ghost use Rattle.ftc_message.specs.Bounds.{AreLogs};
ghost use Rattle.ftc_message.specs.Spelling.{logs_bytes};
ghost use Rattle.ftc_message.specs.Reading.{logs_at};
ghost use Rattle.ftc_message.specs.Front.{IsFront};

use crate::bytes::append_word;
use crate::fault::FieldFault;
use crate::field::word_at;
use crate::log_bytes::{add_log, log_at};
use crate::logs::Logs;
use ftc_base::{Bytes, NoMemory, Refuse};
use std::alloc::Global;

/// Room for at most so many logs is taken before they are read, since the count may be a stranger's.
const FEW_LOGS: usize = 4;

/// The logs at the front, and the bytes behind them.
#[tactic(auto, unfolding(crate::specs::Reading::logs_at))]
pub fn logs_at(alloc: Global, bytes: &[u8]) -> Result<(Logs, &[u8]), Refuse<FieldFault>>
    ensures { IsFront result (logs_at bytes.now) }
{
    let (count, after) = word_at(bytes)?;
    let mut rest = after;
    let mut last = None;
    let mut logs = Logs::new(alloc);
    logs.make_room(FEW_LOGS.min(count as usize))?;
    for _ in 0..count {
        match log_at(&last, rest) {
            Ok((log, behind)) => {
                last = Some((log.origin(), log.group()));
                logs.push(log)?;
                rest = behind;
            }
            Err(fault) => return Err(Refuse::Bad(fault)),
        }
    }
    Ok((logs, rest))
}

/// Adds the logs' bytes at the end.
pub fn add_logs(logs: &Logs, out: &mut Bytes) -> Result<(), NoMemory>
    requires { length logs.now < 4294967296 }
    ensures added { OnOk result (out.new ≡ out.old ++ logs_bytes logs.now) }
    ensures bounds { AreLogs logs.now }
{
    append_word(logs.len() as u32, out)?;
    for log in logs.as_slice() {
        add_log(log, out)?;
    }
    Ok(())
}
