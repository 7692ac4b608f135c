//! What happened, and what came of it.

ghost use Rattle.std.specs.Prelude.{◌≤◌, ◌<◌, ◌+◌, ◌-◌, ◌^◌, length, OnOk};
ghost use Rattle.ftc_network.specs.Parts.{withheld_in};
ghost use Rattle.ftc_chain.specs.Course.{HasCourseRoomed};

use crate::outlet::Outlet;
use ftc_base::NoMemory;
use ftc_journal::Journal;
use ftc_network::Network;

/// The events so far, the servers and links, and the released packets that weren't taken out yet.
#[derive(Drop)]
pub struct Course {
    pub journal: Journal,
    pub network: Network,
    pub outlet: Outlet,
}

impl Course {
    /// Makes room in the journal for one event more, and there and in the outlet for the releases that may be due after
    /// it.
    pub fn make_room(&mut self) -> Result<(), NoMemory>
        ensures room { OnOk result (withheld_in self.old.network + 2 ≤ self.new.journal.spare) }
        ensures outlet { OnOk result (withheld_in self.old.network + 2 ≤ self.new.outlet.spare) }
        ensures few { OnOk result (length self.old.journal.items < 2 ^ 64 - 1) }
        ensures same { HasCourseRoomed self.old self.new }
    {
        if self.journal.len() as u64 == u64::MAX {
            return Err(NoMemory);
        }
        let Some(room) = self.network.withheld().checked_add(2) else {
            return Err(NoMemory);
        };
        self.journal.reserve(room)?;
        self.outlet.reserve(room)
    }
}
