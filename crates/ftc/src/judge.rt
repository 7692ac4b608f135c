//! The check of the files of a run.

ghost use Rattle.std.specs.Prelude.{◌≡◌};
ghost use Rattle.ftc_outside.specs.Desk.{SameFiles, HasServed};
ghost use Rattle.ftc.specs.Answers.{IsCheckAnswer};
ghost use Rattle.ftc_words.specs.Shown.{named_of};
ghost use Rattle.ftc.specs.Checking.{Judges};

use crate::files::{RunFiles, read_files};
use crate::laws::run_laws;
use crate::status::Status;
use ftc_base::NoMemory;
use ftc_check::{Checked, check};
use ftc_outside::Desk;
use ftc_protocol::accepted;
use ftc_words::Names;
use std::alloc::Global;

/// Says whether the files of these names are those of one run. It changes no file.
pub fn judge<D: Desk>(alloc: Global, names: Names<'_>, desk: &mut D) -> Status
    ensures judges { D.tells desk.old → Judges (D.sound desk.old) (named_of names.entry) (D.file desk.old) result }
    ensures files { D.tells desk.old → SameFiles (D.file desk.old) (D.file desk.new) }
    ensures answer { IsCheckAnswer result }
    ensures served { HasServed D.tells D.sound D.faults (result ≡ Status.DeskFault) desk.old desk.new }
{
    let files = match read_files(alloc, names, desk) {
        Ok(files) => files,
        Err(status) => return status,
    };
    accepted();
    let _ = files.spec.rules();
    run_laws();
    let (out, report) = (files.out.as_slice(), files.report.as_slice());
    let (spec, capture) = (&files.spec, &files.capture);
    match check(
        alloc,
        spec,
        capture,
        &files.script,
        out,
        &files.journal,
        report,
    ) {
        Ok(Checked::Yes) => Status::Done,
        Ok(verdict) => Status::Check { verdict },
        Err(NoMemory) => Status::NoMemory,
    }
}
