//! Whether a set of visits has a visit.

ghost use Rattle.std.specs.Prelude.{◌≡◌, option_map};
ghost use Rattle.ftc_machine.specs.Represents.{footprints_in};
ghost use Rattle.ftc_machine.specs.LegalityTests.{has_named, has_all};

use crate::state::MachineState;
use crate::state::footprint::Footprint;
use ftc_journal::VisitName;
use ftc_vector::GroupVectors;

impl MachineState {
    /// The footprint of a visit.
    pub fn footprint(&self, name: &VisitName) -> Option<&Footprint>
        ensures { option_map (λ footprint. footprint.now) result
            ≡ footprints_in self.now.visits.items name.now.server name.now.packet }
    {
        match self.visits.get(usize::from(name.server.number())) {
            Some(of) => of.get(name.packet as usize),
            None => None,
        }
    }

    /// Whether a set that reaches so far has the visit.
    pub fn has(&self, reach: &GroupVectors, name: &VisitName) -> bool
        ensures { result ≡ has_named (footprints_in self.now.visits.items) reach.now name.now }
    {
        match self.footprint(name) {
            Some(footprint) => footprint.is_had_by(reach.of(name.server)),
            None => true,
        }
    }

    /// Whether it has each of the visits.
    pub fn has_all(&self, reach: &GroupVectors, names: &[VisitName]) -> bool
        ensures { result ≡ has_all (footprints_in self.now.visits.items) reach.now names.now }
    {
        names.iter().all(|name| self.has(reach, name))
    }
}
