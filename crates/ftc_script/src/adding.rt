//! What one more line adds.

ghost use Rattle.std.specs.Prelude.{◌≡◌, IfOk, OnOk};
ghost use Rattle.ftc_base.specs.Refused.{IsReading};
ghost use Rattle.ftc_script.specs.Steps.{last_of, IsCrash};
ghost use Rattle.ftc_script.specs.Grammar.{live_in, server_in, in_turn, may_crash, may_recover, lose_line, add};
ghost use Rattle.ftc_script.specs.Grammar.{crash_step, recover_step, with_step};
ghost use Rattle.ftc_script.specs.Grammar.{IsDraft};

use crate::draft::Draft;
use crate::fault::ScriptCause;
use crate::line::{LoseLine, ScriptLine};
use crate::statement::Statement;
use ftc_base::{PacketNo, Refuse, ServerId};
use ftc_ring::Ring;

/// The server of that number, where the ring has it.
fn server_in(ring: &Ring, number: u32) -> Result<ServerId, ScriptCause>
    ensures { result ≡ server_in ring.now number }
{
    if number >= u32::from(ring.servers()) {
        return Err(ScriptCause::Link);
    }
    match ServerId::new(number as u8) {
        Some(server) => Ok(server),
        None => unreachable!(),
    }
}

/// The server of a step that comes when `at` packets have entered, and not before the last step.
fn in_turn(
    ring: &Ring,
    packets: u32,
    last: PacketNo,
    at: PacketNo,
    number: u32,
) -> Result<ServerId, ScriptCause>
    ensures { result ≡ in_turn ring.now packets last at number }
{
    let server = server_in(ring, number)?;
    if at > packets {
        Err(ScriptCause::Past)
    } else if at < last {
        Err(ScriptCause::Order)
    } else {
        Ok(server)
    }
}

/// A server that crashes is live, and each group keeps a live member.
fn may_crash(ring: &Ring, draft: &Draft, server: ServerId) -> Result<(), ScriptCause>
    ensures value { result ≡ may_crash ring.now (live_in draft.now) server }
    ensures crash { OnOk result (IsCrash ring.now (live_in draft.now) server) }
{
    if !draft.is_up(server) {
        return Err(ScriptCause::NotUp);
    }
    match draft.gone_with(ring, server) {
        Some(group) => Err(ScriptCause::GroupGone { group }),
        None => Ok(()),
    }
}

/// A server that is replaced is down.
fn may_recover(draft: &Draft, server: ServerId) -> Result<(), ScriptCause>
    ensures { result ≡ may_recover (live_in draft.now) server }
{
    if draft.is_up(server) {
        Err(ScriptCause::NotDown)
    } else {
        Ok(())
    }
}

/// The lose line of a link of the ring and a packet of the capture.
fn lose_line(
    ring: &Ring,
    packets: u32,
    place: u32,
    number: u32,
    origin: PacketNo,
) -> Result<LoseLine, ScriptCause>
    ensures { result ≡ lose_line ring.now packets place number origin }
{
    let link = server_in(ring, number)?;
    if origin < packets {
        Ok(LoseLine {
            line: place,
            link,
            origin,
        })
    } else {
        Err(ScriptCause::Past)
    }
}

/// The crash of a server, in its turn.
fn crash_step(
    ring: &Ring,
    packets: u32,
    draft: &Draft,
    at: PacketNo,
    number: u32,
) -> Result<ScriptLine, ScriptCause>
    requires { IsDraft ring.now packets draft.now }
    ensures value { result ≡ crash_step ring.now packets draft.now at number }
    ensures bounds { IfOk result (λ step. IsDraft ring.now packets (with_step draft.now step)) }
{
    let server = in_turn(ring, packets, draft.last(), at, number)?;
    may_crash(ring, draft, server)?;
    Ok(ScriptLine::Crash { at, server })
}

/// The recovery of a server, in its turn.
fn recover_step(
    ring: &Ring,
    packets: u32,
    draft: &Draft,
    at: PacketNo,
    number: u32,
) -> Result<ScriptLine, ScriptCause>
    requires { IsDraft ring.now packets draft.now }
    ensures value { result ≡ recover_step ring.now packets draft.now at number }
    ensures bounds { IfOk result (λ step. IsDraft ring.now packets (with_step draft.now step)) }
{
    let server = in_turn(ring, packets, draft.last(), at, number)?;
    may_recover(draft, server)?;
    Ok(ScriptLine::Recover { at, server })
}

/// The lines with one more, which stands at that place.
pub fn add(
    ring: &Ring,
    packets: u32,
    draft: Draft,
    place: u32,
    statement: Statement,
) -> Result<Draft, Refuse<ScriptCause>>
    requires { IsDraft ring.now packets draft }
    ensures value { IsReading result (add ring.now packets draft place statement) }
    ensures bounds { IfOk result (IsDraft ring.now packets) }
{
    let step = match statement {
        Statement::Nothing => return Ok(draft),
        Statement::Crash { at, server } => crash_step(ring, packets, &draft, at, server)?,
        Statement::Recover { at, server } => recover_step(ring, packets, &draft, at, server)?,
        Statement::Lose { link, origin } => {
            let line = lose_line(ring, packets, place, link, origin)?;
            return Ok(draft.with_lose(line)?);
        }
    };
    Ok(draft.with_step(step)?)
}
