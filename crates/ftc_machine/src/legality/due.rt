//! Which packets of the buffer are due.

ghost use Rattle.std.specs.Prelude.{◌≡◌, ◌<◌, ◌||◌, not};
ghost use Rattle.std.specs.List.{list_any};
ghost use Rattle.ftc_base.specs.Sets.{has};
ghost use Rattle.ftc_base.specs.declared.limits.TheConstants.{MOST_SERVERS};
ghost use Rattle.ftc_machine.specs.Slots.{has_such, slot_at};
ghost use Rattle.ftc_machine.specs.LegalityTests.{footprints_of, has_named};
ghost use Rattle.ftc_machine.specs.DueTests.{known_last, named, is_due_by, is_due_before, is_any_due, may_release};

use crate::state::MachineState;
use crate::state::message::Withheld;
use ftc_base::{PacketNo, ServerId};
use ftc_journal::VisitName;

impl MachineState {
    /// Whether the last server knows the visit to be at its group's tail.
    fn is_known_last(&self, name: &VisitName) -> bool
        ensures { result ≡ has_named (footprints_of self.now) (known_last self.now) name.now }
    {
        let last = ServerId::new(self.ring.servers() - 1).unwrap();
        match self.footprint(name) {
            Some(footprint) => self.has_known(last, name.server, footprint),
            None => true,
        }
    }

    /// Whether the packet has no need of that group, or its visit there is known to be at the tail.
    fn is_need_met(&self, withheld: &Withheld, group: u8) -> bool
        requires { group < MOST_SERVERS }
        ensures { result ≡ (not (has withheld.now.needs group)
            || has_named (footprints_of self.now) (known_last self.now) (named group withheld.now.packet)) }
    {
        let name = VisitName {
            server: ServerId::new(group).unwrap(),
            packet: withheld.packet,
        };
        !withheld.needs.has(group) || self.is_known_last(&name)
    }

    /// Whether each visit of the packet is known to be at its tail.
    fn is_due(&self, withheld: &Withheld) -> bool
        ensures { result ≡ is_due_by self.now (known_last self.now) withheld.now }
    {
        // What the last server writes is known at its tail the latest, so most packets are found to wait there.
        self.is_need_met(withheld, self.ring.servers() - 1)
            && (0..self.ring.servers()).all(|group| self.is_need_met(withheld, group))
    }

    /// Whether the place of the buffer has a packet that is due.
    fn is_slot_due(&self, slot: &Option<Withheld>) -> bool
        ensures { result ≡ has_such (is_due_by self.now (known_last self.now)) slot.now }
    {
        match slot {
            Some(withheld) => self.is_due(withheld),
            None => false,
        }
    }

    fn is_any_due(&self, slots: &[Option<Withheld>]) -> bool
        ensures { result ≡ list_any (has_such (is_due_by self.now (known_last self.now))) slots.now }
    {
        slots.iter().any(|slot| self.is_slot_due(slot))
    }

    /// Whether some packet of the buffer is due.
    pub fn is_some_due(&self) -> bool
        ensures { result ≡ is_any_due self.now }
    {
        self.is_any_due(self.buffer.live())
    }

    /// Whether the place has a packet that is due, and came there before that event.
    fn is_slot_due_before(&self, since: u64, slot: &Option<Withheld>) -> bool
        ensures { result ≡ has_such (is_due_before self.now (known_last self.now) since) slot.now }
    {
        match slot {
            Some(withheld) => withheld.since < since && self.is_due(withheld),
            None => false,
        }
    }

    fn is_any_due_before(&self, since: u64, slots: &[Option<Withheld>]) -> bool
        ensures { result ≡ list_any (has_such (is_due_before self.now (known_last self.now) since)) slots.now }
    {
        slots
            .iter()
            .any(|slot| self.is_slot_due_before(since, slot))
    }

    fn has_due_before(&self, since: u64) -> bool
        ensures { result ≡ list_any (has_such (is_due_before self.now (known_last self.now) since)) self.now.buffer }
    {
        self.is_any_due_before(since, self.buffer.live())
    }

    /// Whether the packet is the first of the buffer that is due.
    pub fn may_release(&self, packet: PacketNo) -> bool
        ensures { result ≡ may_release self.now packet }
    {
        match self.buffer.get(packet as usize) {
            Some(withheld) => self.is_due(withheld) && !self.has_due_before(withheld.since),
            None => false,
        }
    }
}
