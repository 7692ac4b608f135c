//! The port table of a translator, from the texts of a run to the lines that are told.

ghost use Rattle.std.specs.Prelude.{◌≡◌, Err, IfOk, IfErr};
ghost use Rattle.ftc_outside.specs.Desk.{SameFiles, HasServed};
ghost use Rattle.ftc.specs.Answers.{IsPortsAnswer};
ghost use Rattle.ftc.specs.Porting.{ports_by, IsTableIn, ArePortsRefused, PortsEnd};

use crate::files::fetch_journal;
use crate::status::Status;
use crate::texts::{Setup, read_setup};
use ftc_audit::{PortLines, ports, ports_text};
use ftc_base::ServerId;
use ftc_machine::trace_of;
use ftc_outside::Desk;
use std::alloc::Global;

/// The names of the files of a port table.
#[derive(Clone, Copy)]
pub struct PortNames<'a> {
    pub chain: &'a str,
    pub capture: &'a str,
    pub journal: &'a str,
}

/// Fetches and reads chain, capture and journal in this order, each before the next, and reads the table off the
/// journal's trace.
fn read_table<D: Desk>(
    alloc: Global,
    names: PortNames<'_>,
    server: ServerId,
    desk: &mut D,
) -> Result<PortLines, Status>
    ensures accepted { D.tells desk.old → IfOk result (IsTableIn (ports_by names.entry) server (D.file desk.old)) }
    ensures refused { D.tells desk.old → IfErr result (ArePortsRefused (D.sound desk.old) (ports_by names.entry) server
        (D.file desk.old)) }
    ensures answer { IfErr result IsPortsAnswer }
    ensures files { D.tells desk.old → SameFiles (D.file desk.old) (D.file desk.new) }
    ensures served { HasServed D.tells D.sound D.faults (result ≡ Err Status.DeskFault) desk.old desk.new }
{
    let setup = read_setup(alloc, names.chain, names.capture, desk)?;
    let Setup { spec, capture } = setup;
    let journal = fetch_journal(alloc, names.journal, desk)?;
    let trace = trace_of(alloc, &journal)?;
    match ports(alloc, &spec, &capture.packets, &trace, server) {
        Ok(lines) => Ok(lines),
        Err(refusal) => Err(Status::from(refusal)),
    }
}

/// Tells the port table of a server.
pub fn tell_ports<D: Desk>(
    alloc: Global,
    names: PortNames<'_>,
    server: ServerId,
    desk: &mut D,
) -> Status
    ensures ends { D.tells desk.old → PortsEnd (D.sound desk.old) (ports_by names.entry) server (D.file desk.old)
        (D.file desk.new) result }
    ensures answer { IsPortsAnswer result }
    ensures served { HasServed D.tells D.sound D.faults (result ≡ Status.DeskFault) desk.old desk.new }
{
    let lines = match read_table(alloc, names, server, desk) {
        Ok(lines) => lines,
        Err(status) => return status,
    };
    let Ok(text) = ports_text(alloc, &lines) else {
        return Status::NoMemory;
    };
    match desk.append(alloc, "-", text.as_slice()) {
        Ok(()) => Status::Done,
        Err(error) => Status::from(error),
    }
}
