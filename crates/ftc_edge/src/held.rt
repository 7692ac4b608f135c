//! A withheld packet beside what it was found to lack.

ghost use Rattle.std.specs.Prelude.{◌≡◌, ◌≤◌, ◌<◌, ℕ, List, true, IsNone, IfSome};
ghost use Rattle.ftc_edge.specs.Due.{is_due};
ghost use Rattle.ftc_edge.specs.Known.{known_at};

use crate::buffer::Withheld;
use crate::known::are_known;
use crate::lack::{Lack, lack_of};
use ftc_vector::Commits;
use std::marker::Model;

/// A withheld packet, and what it was found to lack when it was looked at last, so that the next look mostly
/// reads one number. A contract sees the packet.
#[derive(Debug, Drop)]
pub struct Held {
    lack: Lack,
    withheld: Withheld,
}

impl Model for Held {
    ghost use Rattle.std.specs.Prelude.{◌≡◌, ◌≤◌, ℕ, List, true};
    ghost use Rattle.ftc_edge.specs.declared.buffer.Withheld.{Withheld as AWithheld};
    ghost use Rattle.ftc_edge.specs.Due.{is_due};
    ghost use Rattle.ftc_edge.specs.Known.{known_at};

    ghost Value = { AWithheld };

    ghost view = { λ held. held.withheld };

    ghost invariant = { λ held. (commits : List (List ℕ)) → is_due commits held.withheld ≡ true →
        held.lack.number ≤ known_at commits held.lack.group held.lack.partition };
}

impl Held {
    /// Nothing is known yet of what the packet lacks.
    pub fn new(withheld: Withheld) -> Held
        ensures { result ≡ withheld }
    {
        Held {
            lack: Lack::nothing(),
            withheld,
        }
    }

    /// The packet.
    pub fn withheld(&self) -> &Withheld
        ensures { result.now ≡ self.now }
    {
        &self.withheld
    }

    /// The packet.
    pub fn into_withheld(self) -> Withheld
        ensures { result ≡ self }
    {
        self.withheld
    }

    /// Whether the packet is due.
    pub fn is_due(&self, commits: &Commits) -> bool
        ensures { result ≡ is_due commits.now self.now }
    {
        self.lack.is_reached(commits) && are_known(commits, &self.withheld.needs)
    }

    /// What the packet lacks. None where it is due.
    pub fn lack(&mut self, commits: &Commits) -> Option<Lack>
        ensures same { self.new ≡ self.old }
        ensures due { IsNone result → is_due commits.now self.old ≡ true }
        ensures lacking { IfSome result (λ lack. known_at commits.now lack.group lack.partition < lack.number) }
        ensures delays { IfSome result (λ lack. (others : List (List ℕ)) → is_due others self.old ≡ true →
            lack.number ≤ known_at others lack.group lack.partition) }
    {
        if self.lack.is_reached(commits) {
            self.lack = lack_of(commits, &self.withheld.needs)?;
        }
        Some(self.lack)
    }
}
