//! What a new server gets from the live servers before and after it.

ghost use Rattle.std.specs.Prelude.{ℕ, ◌≡◌, ◌<◌, length};
ghost use Rattle.ftc_base.specs.declared.limits.TheConstants.{MOST_SERVERS};
ghost use Rattle.ftc_ring.specs.Live.{source_between};
ghost use Rattle.ftc_vector.specs.Commits.{vector_of};
ghost use Rattle.ftc_machine.specs.RecoveryEffect.{got_vector, tail_added, both_known};

use crate::state::MachineState;
use ftc_base::ServerId;
use ftc_vector::GroupVectors;

impl MachineState {
    /// From which of the two live servers a new server gets the list of a group.
    fn source(
        &self,
        server: ServerId,
        previous: ServerId,
        following: ServerId,
        group: ServerId,
    ) -> ServerId
        requires previous { previous < self.now.ring.servers }
        requires following { following < self.now.ring.servers }
        requires group { group < self.now.ring.servers }
        ensures same { result ≡ source_between self.now.ring.servers previous following group server }
        ensures within { result < self.now.ring.servers }
    {
        if self.ring.is_from_before(previous, group, server) {
            previous
        } else {
            following
        }
    }

    /// How far the list reaches that a new server gets.
    pub fn list_got(
        &self,
        server: ServerId,
        previous: ServerId,
        following: ServerId,
    ) -> GroupVectors
        requires server { server < self.now.ring.servers }
        requires previous { previous < self.now.ring.servers }
        requires following { following < self.now.ring.servers }
        ensures size { length result ≡ MOST_SERVERS }
        ensures rows { (group : ℕ) → group < MOST_SERVERS
            → vector_of result group ≡ got_vector self.now server previous following group }
    {
        let mut list = GroupVectors::new();
        for number in 0..self.ring.servers() {
            let group = ServerId::new(number).unwrap();
            if self.ring.belongs(server, group) {
                let source = self.source(server, previous, following, group);
                list.raise(group, self.lists[usize::from(source.number())].of(group));
            }
        }
        list
    }

    /// Adds to what is known the list of the group whose tail a server is.
    fn add_tail(&self, server: ServerId, known: &mut GroupVectors)
        requires { server < self.now.ring.servers }
        ensures { known.new ≡ tail_added self.now server known.old }
    {
        let group = self.ring.group_ending_at(server);
        known.raise(group, self.lists[usize::from(server.number())].of(group));
    }

    /// How far reaches what two servers together know to be at the tails: of the groups whose tails they
    /// are, at least their own lists.
    pub fn both_know(&self, one: ServerId, other: ServerId) -> GroupVectors
        requires one { one < self.now.ring.servers }
        requires other { other < self.now.ring.servers }
        ensures { result ≡ both_known self.now one other }
    {
        let mut known = self.known[usize::from(one.number())];
        known.merge(&self.known[usize::from(other.number())]);
        self.add_tail(one, &mut known);
        self.add_tail(other, &mut known);
        known
    }
}
