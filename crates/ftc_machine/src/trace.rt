//! The trace of a journal: the visits and releases that count.

ghost use Rattle.std.specs.Prelude.{◌≡◌, ◌++◌, OnOk, IfOk};
ghost use Rattle.std.specs.List.{flat_map};
ghost use Rattle.std.specs.Option.{option_to_list};
ghost use Rattle.ftc_serial.specs.Trace.{undone_by, names, steps_of, trace_of};

use ftc_base::{NoMemory, PacketNo, ServerId};
use ftc_journal::{Event, Journal, VisitName, VisitNames};
use ftc_serial::{Step, Trace};
use std::alloc::Global;

/// Adds the visits that an event undid.
fn add_undone(undone: &mut VisitNames, event: &Event) -> Result<(), NoMemory>
    ensures { OnOk result (undone.new ≡ undone.old ++ undone_by event.now) }
{
    if let Event::Recover { undone: names, .. } = event {
        for name in names.as_slice() {
            undone.push(*name)?;
        }
    }
    Ok(())
}

/// The visits that some event undid.
fn all_undone(alloc: Global, events: &[Event]) -> Result<VisitNames, NoMemory>
    ensures { IfOk result (λ undone. undone ≡ flat_map undone_by events.now) }
{
    let mut undone = VisitNames::new(alloc);
    for event in events {
        add_undone(&mut undone, event)?;
    }
    Ok(undone)
}

/// Whether the visit is among these.
pub fn is_among(undone: &[VisitName], server: ServerId, packet: PacketNo) -> bool
    ensures { result ≡ names undone.now server packet }
{
    undone.iter().any(|name| name.server.number() == server.number() && name.packet == packet)
}

/// The step that an event is, where it is one that counts.
fn step_of(undone: &[VisitName], event: &Event) -> Option<Step>
    ensures { option_to_list result ≡ steps_of undone.now event.now }
{
    match event {
        Event::Visit { server, packet, .. } if !is_among(undone, *server, *packet) => {
            Some(Step::Visit {
                server: *server,
                packet: *packet,
            })
        }
        Event::Release { packet } => Some(Step::Release { packet: *packet }),
        _ => None,
    }
}

/// The steps that events are, where these visits are undone.
fn steps(alloc: Global, undone: &[VisitName], events: &[Event]) -> Result<Trace, NoMemory>
    ensures { IfOk result (λ trace. trace ≡ flat_map (steps_of undone.now) events.now) }
{
    let mut trace = Trace::new(alloc);
    for event in events {
        if let Some(step) = step_of(undone, event) {
            trace.push(step)?;
        }
    }
    Ok(trace)
}

/// The visits and releases of a journal in order, without the visits that one of its recoveries lists.
pub fn trace_of(alloc: Global, journal: &Journal) -> Result<Trace, NoMemory>
    ensures { IfOk result (λ trace. trace ≡ trace_of journal.now.items) }
{
    let events = journal.as_slice();
    let undone = all_undone(alloc, events)?;
    steps(alloc, undone.as_slice(), events)
}
