//! Fetching and reading the files of a run that somebody made.

ghost use Rattle.std.specs.Prelude.{◌≡◌, length, Err, IfOk, IfErr};
ghost use Rattle.ftc_outside.specs.Desk.{SameFiles, HasServed};
ghost use Rattle.ftc_script.specs.Script.{IsScript};
ghost use Rattle.ftc.specs.Answers.{IsJournalAnswer, IsCheckAnswer};
ghost use Rattle.ftc_words.specs.Shown.{named_of};
ghost use Rattle.ftc.specs.Texts.{ring_of, HasJournal};
ghost use Rattle.ftc.specs.Checking.{AreChecked};
ghost use Rattle.ftc.specs.Refused.{IsTextRefused, IsWrongJournal, IsCheckRefused};

use crate::status::Status;
use crate::texts::{Inputs, read_inputs};
use ftc_base::Bytes;
use ftc_journal::{Journal, read};
use ftc_mbox::ChainSpec;
use ftc_outside::Desk;
use ftc_pcap::Capture;
use ftc_script::Script;
use ftc_words::Names;
use std::alloc::Global;

/// What the files of a run say.
#[derive(Drop)]
pub struct RunFiles {
    pub spec: ChainSpec,
    pub capture: Capture,
    pub script: Script,
    pub out: Bytes,
    pub journal: Journal,
    pub report: Bytes,
}

/// Fetches and reads the journal.
pub fn fetch_journal<D: Desk>(alloc: Global, name: &str, desk: &mut D) -> Result<Journal, Status>
    ensures accepted { D.tells desk.old → IfOk result (λ journal. HasJournal name.now (D.file desk.old) journal.items) }
    ensures refused { D.tells desk.old → IfErr result (IsTextRefused (D.sound desk.old)
        (D.file desk.old) name.now IsWrongJournal) }
    ensures answer { IfErr result IsJournalAnswer }
    ensures files { D.tells desk.old → SameFiles (D.file desk.old) (D.file desk.new) }
    ensures served { HasServed D.tells D.sound D.faults (result ≡ Err Status.DeskFault) desk.old desk.new }
{
    let text = desk.fetch(alloc, name)?;
    let journal = read(alloc, text.as_slice())?;
    Ok(journal)
}

/// Fetches the chain, the capture, the script, OUT, the journal and the report in this order, and reads each
/// before the next.
pub fn read_files<D: Desk>(
    alloc: Global,
    names: Names<'_>,
    desk: &mut D,
) -> Result<RunFiles, Status>
    ensures accepted { D.tells desk.old → IfOk result (λ files. AreChecked (named_of names.entry)
        (D.file desk.old) files.spec files.capture files.script files.out files.journal.items files.report) }
    ensures ring { IfOk result (λ files. files.script.ring ≡ ring_of files.spec) }
    ensures packets { IfOk result (λ files. files.script.packets ≡ length files.capture.packets) }
    ensures right { IfOk result (λ files. IsScript files.script) }
    ensures refused { D.tells desk.old → IfErr result (IsCheckRefused (D.sound desk.old) (named_of names.entry)
        (D.file desk.old)) }
    ensures answer { IfErr result IsCheckAnswer }
    ensures files { D.tells desk.old → SameFiles (D.file desk.old) (D.file desk.new) }
    ensures served { HasServed D.tells D.sound D.faults (result ≡ Err Status.DeskFault) desk.old desk.new }
{
    let inputs = read_inputs(alloc, names, desk)?;
    let Inputs {
        spec,
        capture,
        script,
    } = inputs;
    let out = desk.fetch(alloc, names.out)?;
    let journal = fetch_journal(alloc, names.journal, desk)?;
    let report = desk.fetch(alloc, names.report)?;
    Ok(RunFiles {
        spec,
        capture,
        script,
        out,
        journal,
        report,
    })
}
