//! What a server knows to be at the tails of the groups.

ghost use Rattle.std.specs.Prelude.{◌≡◌, ◌<◌};
ghost use Rattle.ftc_vector.specs.Commits.{vector_of};
ghost use Rattle.ftc_machine.specs.Frontier.{is_had_by};

use crate::state::MachineState;
use crate::state::footprint::Footprint;
use ftc_base::ServerId;
use ftc_vector::{GroupVectors, Vector, merge};

impl MachineState {
    ghost use Rattle.ftc_machine.specs.Tails.{known_at};

    /// How far reaches what a server knows.
    pub fn knows(&self, server: ServerId) -> GroupVectors
        requires { server < self.now.ring.servers }
        ensures { result ≡ known_at self.now server }
    {
        let place = usize::from(server.number());
        let ending = self.ring.group_ending_at(server);
        let mut known = self.known[place];
        known.bounds();
        known.raise(ending, self.lists[place].of(ending));
        known
    }

    /// How far reaches what a server knows of one group.
    pub fn knows_of(&self, server: ServerId, group: ServerId) -> Vector
        requires { server < self.now.ring.servers }
        ensures { result ≡ vector_of (known_at self.now server) group }
    {
        let place = usize::from(server.number());
        let mut known = *self.known[place].of(group);
        // The contracts of these calls tell how many partitions and how many groups there are.
        let _ = (known.at(0), group.number());
        if group == self.ring.group_ending_at(server) {
            merge(&mut known, self.lists[place].of(group));
        }
        known
    }

    /// Whether what a server knows of a group has that visit. Where the server isn't the group's tail, this copies
    /// nothing.
    pub fn has_known(&self, server: ServerId, group: ServerId, footprint: &Footprint) -> bool
        requires { server < self.now.ring.servers }
        ensures { result ≡ is_had_by footprint.now (vector_of (known_at self.now server) group) }
    {
        if group == self.ring.group_ending_at(server) {
            return footprint.is_had_by(&self.knows_of(server, group));
        }
        let place = usize::from(server.number());
        let known = self.known[place].of(group);
        // The contracts of these calls tell how many partitions and how many groups there are.
        let _ = (known.at(0), group.number());
        footprint.is_had_by(known)
    }
}
