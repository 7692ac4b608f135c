//! The logs that go on from a server.

ghost use Rattle.std.specs.Prelude.{◌≡◌, ◌==◌, ◌&&◌, ◌||◌, ℕ, not, IfOk, OnOk};
ghost use Rattle.ftc_serial.specs.Trace.{names};
ghost use Rattle.ftc_machine.specs.Simulation.{logs_in};
ghost use Rattle.ftc_machine.specs.Slots.{slot_at};
ghost use Rattle.ftc_ring.specs.Groups.{group_ending_at};

use crate::state::MachineState;
use crate::trace::is_among;
use ftc_base::{NoMemory, PacketNo, ServerId};
use ftc_journal::{VisitName, VisitNames};
use std::alloc::Global;

/// Adds the visits that are not of the group, each once.
fn add_others(list: &mut VisitNames, more: &[VisitName], group: ServerId) -> Result<(), NoMemory>
    ensures { OnOk result ((server packet : ℕ) → names list.new server packet ≡
        (names list.old server packet || (names more.now server packet && not (server == group)))) }
{
    for name in more {
        if name.server.number() != group.number()
            && !is_among(list.as_slice(), name.server, name.packet)
        {
            list.push(*name)?;
        }
    }
    Ok(())
}

impl MachineState {
    /// The logs that leave the forwarder with a message that leaves a server.
    fn forwarded(&self, alloc: Global, server: ServerId) -> Result<VisitNames, NoMemory>
        ensures { IfOk result (λ list. (group packet : ℕ) → names list group packet ≡
            ((server == 0) && names self.now.forwarder group packet)) }
    {
        if server.number() == 0 {
            self.forwarder.copy(alloc)
        } else {
            Ok(VisitNames::new(alloc))
        }
    }

    /// The logs that a message carries.
    pub fn logs_of(&self, origin: PacketNo) -> &[VisitName]
        ensures { result.now ≡ logs_in (slot_at self.now.messages origin) }
    {
        match self.messages.get(origin as usize) {
            Some(message) => message.logs.as_slice(),
            None => &[],
        }
    }

    /// The logs with which a message goes on from a server, where it has these: those of the group whose
    /// tail the server is go no further.
    pub fn outgoing_logs(
        &self,
        alloc: Global,
        server: ServerId,
        logs: &[VisitName],
    ) -> Result<VisitNames, NoMemory>
        ensures { IfOk result (λ list. (group packet : ℕ) → names list group packet ≡
            ((names logs.now group packet && not (group == group_ending_at self.now.ring server))
            || ((server == 0) && names self.now.forwarder group packet))) }
    {
        let mut list = self.forwarded(alloc, server)?;
        add_others(&mut list, logs, self.ring.group_ending_at(server))?;
        Ok(list)
    }
}
