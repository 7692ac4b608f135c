//! Laws of the crates below on which it rests how a command ends, as many as are cited together in one call.

ghost use Rattle.ftc.specs.Laws.{TextLaws, RunLaws};

use ftc_check::{one_verdict, right_files, right_runs};
use ftc_journal::{faults, spellings};
use ftc_pcap::{one_fault, one_reading};
use ftc_protocol::{every_moment, losses};

/// What is so of texts that were read, and of what is said of them.
pub fn text_laws()
    ensures { TextLaws }
{
    one_reading();
    one_fault();
    spellings();
    faults();
    one_verdict();
}

/// What is so of runs, and of files that are those of one.
pub fn run_laws()
    ensures { RunLaws }
{
    spellings();
    right_files();
    right_runs();
    losses();
    every_moment();
}
