//! What is said of the end of a command.

ghost use Rattle.std.specs.Prelude.{◌≡◌, true, IfOk};
ghost use Rattle.std.specs.Process.{exit_status};
ghost use Rattle.std.specs.Io.KnownBytes.{Appends};
ghost use Rattle.ftc.specs.Status.{code_of, told_of, AppendsFront};

use crate::status::Status;
use ftc_base::{Bytes, NoMemory};
use std::alloc::Global;
use std::io::{ErrorKind, Write};
use std::process::ExitCode;

/// In how many pieces a writer may take a line, interruptions counted.
const MOST_PIECES: usize = 1024;

/// What is said of a status.
fn told(alloc: Global, status: Status) -> Result<Bytes, NoMemory>
    ensures { IfOk result (λ line. line ≡ told_of status) }
{
    let mut line = status.line(alloc)?;
    if line.is_empty() {
        return Ok(line);
    }
    line.append(b"\n")?;
    Ok(line)
}

/// Writes a line in as many pieces as the writer takes it. The answer is whether it took all; one that fails, or takes
/// nothing, has a front of it.
fn write_line<W: Write>(out: &mut W, line: &[u8]) -> bool
    ensures all { result ≡ true → Appends (W.contents out.old) (W.contents out.new) line.now }
    ensures front { AppendsFront (W.contents out.old) (W.contents out.new) line.now }
{
    let mut rest = line;
    for _ in 0..MOST_PIECES {
        if rest.is_empty() {
            return true;
        }
        match out.write(rest) {
            Ok(0) => return false,
            Ok(taken) => rest = &rest[taken..],
            Err(error) => {
                if error.kind() != ErrorKind::Interrupted {
                    return false;
                }
            }
        }
    }
    rest.is_empty()
}

/// Says the line of a status, if it has one. Gives its code, and whether all was said: memory or the writer may
/// refuse the line, and then the code says the status alone.
pub fn tell<W: Write>(alloc: Global, status: Status, out: &mut W) -> (ExitCode, bool)
    ensures code { exit_status result.0 ≡ code_of status }
    ensures said { result.1 ≡ true → Appends (W.contents out.old) (W.contents out.new) (told_of status) }
    ensures front { AppendsFront (W.contents out.old) (W.contents out.new) (told_of status) }
{
    let code = ExitCode::from(status.code());
    let Ok(line) = told(alloc, status) else {
        return (code, false);
    };
    let said = write_line(out, line.as_slice());
    (code, said)
}
