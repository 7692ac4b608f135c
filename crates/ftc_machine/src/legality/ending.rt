//! Whether a run has ended, and what became of its packets.

ghost use Rattle.std.specs.Prelude.{◌≡◌, ◌==◌, ◌&&◌, not, true, length, ℕ, List, map, IfOk};
ghost use Rattle.std.specs.List.{range_with_len};
ghost use Rattle.ftc_machine.specs.EndTest.{is_done};
ghost use Rattle.ftc_machine.specs.Represents.{fate_in};

use crate::state::MachineState;
use ftc_base::{Items, NoMemory};
use ftc_protocol::{Fate, Fates};
use ftc_script::Script;
use std::alloc::Global;

impl MachineState {
    /// Whether all lines of the script are done, all packets have entered, and there is no message, no log
    /// in the forwarder, no gap and no packet in the buffer.
    pub fn is_done(&self, script: &Script, count: u32) -> bool
        ensures { result ≡ is_done self.now script.now count }
    {
        self.done >= script.steps()
            && self.entered == count
            && !self.has_message()
            && self.forwarder.is_empty()
            && self.is_whole()
            && !self.has_withheld()
    }

    /// What became of a packet.
    fn fate(&self, packet: usize) -> Fate
        ensures { result ≡ fate_in self.now.fates packet }
    {
        match self.fates.get(packet) {
            Some(fate) => *fate,
            None => Fate::Inside,
        }
    }

    /// What became of each of so many packets.
    pub fn fates(&self, alloc: Global, count: usize) -> Result<Fates, NoMemory>
        ensures { IfOk result (λ fates. fates ≡ map (fate_in self.now.fates) (range_with_len 0 count)) }
    {
        let mut fates = Items::new(alloc);
        for packet in 0..count {
            fates.push(self.fate(packet))?;
        }
        Ok(fates)
    }
}
