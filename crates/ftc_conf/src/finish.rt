//! The chain of a whole text.

ghost use Rattle.std.specs.Prelude.{◌≡◌, ◌≤◌};
ghost use Rattle.ftc_base.specs.declared.limits.TheConstants.{MOST_PARTITIONS};
ghost use Rattle.ftc_base.specs.declared.refusal.Refuse.TheVariants as refuse;
ghost use Rattle.ftc_conf.specs.Draft.{IsDraft};
ghost use Rattle.ftc_base.specs.Refused.{IsReading};
ghost use Rattle.ftc_conf.specs.Grammar.{complete_chain, finish};

use crate::adding::{close_firewall, count_of_servers};
use crate::draft::{Draft, Failures};
use crate::fault::{ChainCause, ChainFault};
use ftc_base::Refuse;
use ftc_mbox::ChainSpec;

/// A fault at that line.
pub fn fault_at(line: u64, cause: ChainCause) -> Refuse<ChainFault>
    ensures { result ≡ refuse.Bad (record { line = line; cause = cause }) }
{
    Refuse::Bad(ChainFault { line, cause })
}

/// The chain, where some server is no spare one, and fewer servers may be down at once than stand in
/// the text, and at most `most`.
fn complete_chain(
    most: u8,
    failures: Failures,
    partitions: u8,
    draft: Draft,
    place: u64,
) -> Result<ChainSpec, Refuse<ChainFault>>
    requires bounds { IsDraft draft }
    requires some_partition { 1 ≤ partitions }
    requires partitions { partitions ≤ MOST_PARTITIONS }
    ensures { IsReading result (complete_chain most failures partitions draft place) }
{
    let servers = count_of_servers(&draft);
    if servers <= usize::from(draft.spares) {
        return Err(fault_at(place, ChainCause::Empty));
    }
    if servers <= usize::from(failures.number) || failures.number > most {
        return Err(fault_at(failures.line, ChainCause::Replicas));
    }
    let rules = close_firewall(draft.rules, draft.firewall)?;
    Ok(ChainSpec::new(failures.number, partitions, rules))
}

/// The chain where no line is left. The place is behind the last line.
pub fn finish(most: u8, draft: Draft, place: u64) -> Result<ChainSpec, Refuse<ChainFault>>
    requires { IsDraft draft }
    ensures { IsReading result (finish most draft place) }
{
    let Some(failures) = draft.failures else {
        return Err(fault_at(place, ChainCause::NoFailures));
    };
    let Some(partitions) = draft.partitions else {
        return Err(fault_at(place, ChainCause::NoPartitions));
    };
    complete_chain(most, failures, partitions, draft, place)
}
