//! Runs of one thread.

use crate::tests::doing::lines;
use crate::tests::given::{Frame, Parts, two_passes};
use crate::{finish, play, run};
use ftc_base::Bytes;
use ftc_chain::Chain;
use ftc_journal::{Journal, read};
use std::alloc::Global;
use std::test::Fail;

/// The journal of a text.
fn journal_of(alloc: Global, text: &[u8]) -> Result<Journal, Fail> {
    match read(alloc, text) {
        Ok(journal) => Ok(journal),
        Err(_) => Err(Fail::new("the journal is right")),
    }
}

/// Runs a schedule from the opening over two middleboxes and one packet. The answer is whether the run is finished, and
/// its lines.
fn ran(alloc: Global, schedule: &Journal) -> Result<(bool, Bytes), Fail> {
    let parts = Parts::new(alloc, two_passes(alloc)?, &[Frame::A], b"")?;
    let mut chain = Chain::new(alloc, &parts.spec, &parts.packets, &parts.script)?;
    run(&mut chain, schedule)?;
    Ok((chain.finished(), lines(alloc, &chain)?))
}

/// Plays a schedule over them. The answer is whether the run is finished then, its lines, and its lines when all that
/// is left was done.
fn played(alloc: Global, schedule: &Journal) -> Result<(bool, Bytes, Bytes), Fail> {
    let parts = Parts::new(alloc, two_passes(alloc)?, &[Frame::A], b"")?;
    let mut chain = parts.chain(alloc)?;
    play(&mut chain, schedule)?;
    let finished = chain.finished();
    let first = lines(alloc, &chain)?;
    finish(&mut chain)?;
    Ok((finished, first, lines(alloc, &chain)?))
}

#[test]
fn what_is_left_is_done_in_order(rt: HostRuntime) -> Result<(), Fail> {
    let alloc = rt.alloc();
    let (finished, lines) = ran(alloc, &Journal::new(alloc))?;
    assert!(rt; finished);
    let expected =
        b"enter 0\nvisit 0 0 63\npass 0 0\ntake 0 0\nvisit 1 0 63\npass 1 0\nrelease 0\n".as_slice();
    assert_eq!(rt; lines.as_slice(), expected);
    Ok(())
}

#[test]
fn what_is_not_legal_is_passed_over(rt: HostRuntime) -> Result<(), Fail> {
    let alloc = rt.alloc();
    let schedule = journal_of(
        alloc,
        b"ftc-journal 2\nenter 0\ntake 0 0\nvisit 0 0 2\nenter 0\npass 0 0\nrelease 0\n",
    )?;
    let (finished, first, last) = played(alloc, &schedule)?;
    let expected = b"enter 0\nvisit 0 0 2\npass 0 0\n".as_slice();
    assert_eq!(rt; first.as_slice(), expected);
    assert!(rt; !finished);
    let expected =
        b"enter 0\nvisit 0 0 2\npass 0 0\ntake 0 0\nvisit 1 0 63\npass 1 0\nrelease 0\n".as_slice();
    assert_eq!(rt; last.as_slice(), expected);
    Ok(())
}
