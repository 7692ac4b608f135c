//! What a visit makes of the message of its packet.

ghost use Rattle.std.specs.Prelude.{◌≡◌, ◌<◌, ◌≤◌, ℕ, true, IfOk, IfSome, Some};
ghost use Rattle.ftc_base.specs.Sets.{has};
ghost use Rattle.ftc_vector.specs.Vector.{mark_at};
ghost use Rattle.ftc_mbox.specs.Change.{CanEnd, packet_after};
ghost use Rattle.ftc_message.specs.Ordered.{HasNone, HasNoNeed};
ghost use Rattle.ftc_message.specs.Added.{logs_with, needs_with, need_of_log};
ghost use Rattle.ftc_server.specs.Visited.{needs_after, visit_of};

use ftc_base::limits::MOST_PARTITIONS;
use ftc_base::{Bytes, NoMemory, Verdict};
use ftc_mbox::change_packet;
use ftc_message::{Log, Logs, Message, Need, Needs};
use ftc_vector::need_of;
use std::alloc::Global;

/// What becomes of a packet, and of the logs and the needs that ride with it.
#[derive(Debug, Drop)]
pub struct Visited {
    pub packet: Option<Bytes>,
    pub logs: Logs,
    pub needs: Needs,
}

/// The packet after a verdict, none where it is dropped.
fn packet_after(packet: &Bytes, verdict: &Verdict) -> Result<Option<Bytes>, NoMemory>
    requires { CanEnd packet.now verdict.now }
    ensures { IfOk result (λ after. after ≡ packet_after packet.now verdict.now) }
{
    match verdict {
        Verdict::Forward(change) => {
            let mut buffer = packet.copy()?.into_vec();
            change_packet(buffer.as_mut_slice(), change);
            Ok(Some(Bytes::from_vec(buffer)))
        }
        Verdict::Filter => Ok(None),
    }
}

/// The logs with this one, which is sent on only where a server may fail.
fn logs_with(alloc: Global, failures: u8, log: &Option<Log>, logs: &Logs) -> Result<Logs, NoMemory>
    requires { IfSome log.now (λ log. HasNone log logs.now) }
    ensures { IfOk result (λ after. after ≡ logs_with failures log.now logs.now) }
{
    let mut after = logs.copy(alloc)?;
    match log {
        Some(log) if failures > 0 => after.insert(log.copy())?,
        _ => {}
    }
    Ok(after)
}

/// The needs with that of this log.
fn needs_with(alloc: Global, log: &Option<Log>, needs: &Needs) -> Result<Needs, NoMemory>
    requires other { IfSome log.now (λ log. HasNoNeed (need_of_log log) needs.now) }
    requires numbers { IfSome log.now (λ log. (partition carried : ℕ) → partition < MOST_PARTITIONS →
        mark_at log.before partition ≡ Some carried → has log.changed partition ≡ true → carried < u64.MAX) }
    ensures { IfOk result (λ after. after ≡ needs_with log.now needs.now) }
{
    let mut after = needs.copy(alloc)?;
    match log {
        Some(log) => {
            let marks = need_of(log.before(), log.changed());
            after.insert(Need {
                group: log.group(),
                marks,
            })?
        }
        None => {}
    }
    Ok(after)
}

/// What a visit with this log and this verdict makes of a message with that packet.
pub fn visit_of(
    alloc: Global,
    failures: u8,
    log: &Option<Log>,
    packet: &Bytes,
    verdict: &Verdict,
    message: &Message,
) -> Result<Visited, NoMemory>
    requires change { CanEnd packet.now verdict.now }
    requires new { IfSome log.now (λ log. HasNone log message.now.logs) }
    requires other { IfSome log.now (λ log. HasNoNeed (need_of_log log) message.now.needs) }
    requires numbers { IfSome log.now (λ log. (partition carried : ℕ) → partition < MOST_PARTITIONS →
        mark_at log.before partition ≡ Some carried → has log.changed partition ≡ true → carried < u64.MAX) }
    ensures { IfOk result (λ visited. visited ≡ visit_of failures log.now packet.now verdict.now message.now) }
{
    let after = packet_after(packet, verdict)?;
    let logs = logs_with(alloc, failures, log, &message.logs)?;
    let needs = match &after {
        Some(_) => needs_with(alloc, log, &message.needs)?,
        None => Needs::new(alloc),
    };
    Ok(Visited {
        packet: after,
        logs,
        needs,
    })
}
