//! Worked runs, driven by their schedules: losses, crashes and recoveries, visits that are undone.

use crate::status::Status;
use crate::tests::checks::CHECK;
use crate::tests::{ALONE, capture_of, desk_of, run};
use ftc_journal::JournalCause;
use ftc_outside::{FailingDesk, MemoryDesk};
use ftc_trials::{A, TRIALS, Trial};
use std::process::Abort;
use std::sync::Wait;
use std::test::Fail;
use std::thread::Threads;

/// A desk with the texts of a trial.
fn trial_desk<R: AllocGlobal>(rt: &R, trial: &Trial) -> Result<MemoryDesk, Fail> {
    let capture = capture_of(rt, trial.packets)?;
    let mut desk = desk_of(rt, trial.chain.as_bytes(), capture.as_slice())?;
    desk.put("script", trial.script.as_bytes())?;
    desk.put("schedule", trial.schedule.as_bytes())?;
    Ok(desk)
}

/// The run is driven as it is written down, and a check of its files says Yes.
fn is_driven<R: Abort + AllocGlobal + Threads + Wait + Sync>(
    rt: &R,
    trial: &Trial,
) -> Result<(), Fail> {
    let mut desk = trial_desk(rt, trial)?;
    let (journal, report) = (trial.journal.as_bytes(), trial.report.as_bytes());
    assert_eq!(rt; run(rt, &ALONE, &mut desk), Status::Done, "{}", trial.name);
    assert_eq!(rt; desk.get("journal"), Some(journal), "{}", trial.name);
    assert_eq!(rt; desk.get("report"), Some(report), "{}", trial.name);
    assert_eq!(rt; run(rt, &CHECK, &mut desk), Status::Done, "{}", trial.name);
    Ok(())
}

#[test]
fn each_is_driven_by_its_schedule(rt: HostRuntime) -> Result<(), Fail> {
    for trials in TRIALS {
        for trial in trials {
            is_driven(&rt, trial)?;
        }
    }
    Ok(())
}

#[test]
fn a_finished_journal_is_its_own_schedule(rt: HostRuntime) -> Result<(), Fail> {
    for trials in TRIALS {
        for trial in trials {
            let mut desk = trial_desk(&rt, trial)?;
            desk.put("schedule", trial.journal.as_bytes())?;
            assert_eq!(rt; run(&rt, &ALONE, &mut desk), Status::Done, "{}", trial.name);
            assert_eq!(rt;
                desk.get("journal"),
                Some(trial.journal.as_bytes()),
                "{}",
                trial.name
            );
        }
    }
    Ok(())
}

/// Two monitors, each of which has the counts of the other, and one packet.
fn pair_desk<R: AllocGlobal>(rt: &R) -> Result<MemoryDesk, Fail> {
    let capture = capture_of(rt, &[&A])?;
    desk_of(
        rt,
        b"f 1\npartitions 4\nmonitor 8\nmonitor 8\n",
        capture.as_slice(),
    )
}

#[test]
fn an_empty_schedule_has_either_header(rt: HostRuntime) -> Result<(), Fail> {
    let mut second = pair_desk(&rt)?;
    let mut first = pair_desk(&rt)?;
    first.put("schedule", b"ftc-journal 1\n")?;
    assert_eq!(rt; run(&rt, &ALONE, &mut second), Status::Done);
    assert_eq!(rt; run(&rt, &ALONE, &mut first), Status::Done);
    for name in ["out", "journal", "report"] {
        assert!(rt; second.get(name).is_some(), "{name}");
        assert_eq!(rt; second.get(name), first.get(name), "{name}");
    }
    Ok(())
}

#[test]
fn what_a_schedule_cannot_ask_is_passed_over(rt: HostRuntime) -> Result<(), Fail> {
    let mut empty = pair_desk(&rt)?;
    let mut scheduled = pair_desk(&rt)?;
    // A release of what isn't withheld, a server that isn't there, a packet that isn't there, and a release on demand.
    let strangers =
        b"ftc-journal 2\nrelease 0\ncrash 0\nvisit 9 0 63\nenter 7\nenter 0\nenter 0\nrelease 0\n";
    scheduled.put("schedule", strangers)?;
    assert_eq!(rt; run(&rt, &ALONE, &mut empty), Status::Done);
    assert_eq!(rt; run(&rt, &ALONE, &mut scheduled), Status::Done);
    assert_eq!(rt; empty.get("journal"), scheduled.get("journal"));
    Ok(())
}

#[test]
fn schedules_that_are_refused(rt: HostRuntime) -> Result<(), Fail> {
    let cases: [(&[u8], u64, JournalCause); 3] = [
        (b"", 1, JournalCause::Header),
        (
            b"ftc-journal 2\nenter 0\ntake 16 0\n",
            3,
            JournalCause::Range,
        ),
        (b"ftc-journal 2\nenter 0", 2, JournalCause::Cut),
    ];
    for (schedule, line, cause) in cases {
        let mut desk = pair_desk(&rt)?;
        desk.put("schedule", schedule)?;
        assert_eq!(rt;
            run(&rt, &ALONE, &mut desk),
            Status::Schedule { line, cause }
        );
        assert_eq!(rt; desk.get("out"), None);
    }
    let mut desk = pair_desk(&rt)?;
    let mut words = ALONE;
    words[8] = "missing";
    assert_eq!(rt; run(&rt, &words, &mut desk), Status::DeskFault);
    Ok(())
}

#[test]
fn a_fault_at_each_call(rt: HostRuntime) -> Result<(), Fail> {
    for trial in &TRIALS[0][..1] {
        let mut whole = trial_desk(&rt, trial)?;
        assert_eq!(rt; run(&rt, &ALONE, &mut whole), Status::Done);
        // Four calls fetch the texts, and each of the three files is made and then grows once.
        for call in 0..10 {
            let desk = trial_desk(&rt, trial)?;
            let mut desk = FailingDesk::new(rt.alloc(), desk, &[call])?;
            assert_eq!(rt; run(&rt, &ALONE, &mut desk), Status::DeskFault, "at {call}");
            for name in ["out", "journal", "report"] {
                let all = whole.get(name).expect(&rt, "a file");
                let front = desk.inner().get(name).unwrap_or(&[]);
                assert!(rt; all.starts_with(front), "{name} at {call}");
            }
        }
        let mut desk = FailingDesk::new(rt.alloc(), trial_desk(&rt, trial)?, &[10])?;
        assert_eq!(rt; run(&rt, &ALONE, &mut desk), Status::Done);
    }
    Ok(())
}
