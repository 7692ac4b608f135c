mod play;

use crate::tests::play::{changed, play};
use crate::{TRIALS, Trial};
use std::alloc::Global;
use std::process::Abort;
use std::test::Fail;

/// Plays each of the runs as it is written down.
fn play_each(rt: &impl Abort, alloc: Global, trials: &[Trial]) -> Result<(), Fail> {
    for trial in trials {
        let answer = play(rt, alloc, trial, trial.journal.as_bytes())?;
        assert_eq!(rt; answer.as_str(), trial.report, "{}", trial.name);
    }
    Ok(())
}

/// Plays a run with each of the changes to its journal that break a rule.
fn play_changed(rt: &impl Abort, alloc: Global, trial: &Trial) -> Result<(), Fail> {
    for (change, wanted) in trial.broken {
        let journal = changed(rt, alloc, trial.journal, change)?;
        let answer = play(rt, alloc, trial, journal.as_slice())?;
        assert_eq!(rt; answer.as_str(), *wanted, "{}: {change:?}", trial.name);
    }
    Ok(())
}

#[test]
fn each_run_is_accepted_and_ends_with_its_report(rt: HostRuntime) -> Result<(), Fail> {
    for trials in TRIALS {
        play_each(&rt, rt.alloc(), trials)?;
    }
    Ok(())
}

#[test]
fn a_changed_run_is_refused_where_it_breaks_a_rule(rt: HostRuntime) -> Result<(), Fail> {
    for trials in TRIALS {
        for trial in trials {
            play_changed(&rt, rt.alloc(), trial)?;
        }
    }
    Ok(())
}
