//! What holds of the definitions.

ghost use Rattle.ftc_check.specs.Laws.{DifferencesAreOne, FrontsAreOne, VerdictsAreOne, OwnReportsStay};
ghost use Rattle.ftc_check.specs.Laws.{WholeRunsAreRight, WholeRunsAreOnlyRight, RightRunsAreVisited};
ghost use Rattle.ftc_check.specs.Laws.{RightRunsAreSettled};

use ftc_protocol::{finished_run, released_for_good};

/// Two texts have one first place where they differ.
pub fn one_difference()
    ensures { DifferencesAreOne }
{}

/// A report has one shortest front.
pub fn one_front()
    ensures { FrontsAreOne }
{}

/// The files of a run have one verdict.
pub fn one_verdict()
    ensures { VerdictsAreOne }
{}

/// What is left of a report without the lines of its taps is what is written without taps.
pub fn own_report()
    ensures { OwnReportsStay }
{}

/// What a finished run wrote is right, whatever its taps say, and has no other verdict.
pub fn right_files()
    ensures right { WholeRunsAreRight }
    ensures only { WholeRunsAreOnlyRight }
{}

/// What more is so of files that are right: each released packet has visited all middleboxes, and none of these
/// visits was undone; and each packet was released, filtered or lost.
pub fn right_runs()
    ensures visited { RightRunsAreVisited }
    ensures settled { RightRunsAreSettled }
{
    finished_run();
    released_for_good();
}
