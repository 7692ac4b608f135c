//! The groups of which a server is a later member.

ghost use Rattle.std.specs.Prelude.{◌≡◌, ◌<◌, ◌&&◌, ℕ, nat_lt};
ghost use Rattle.ftc_base.specs.Sets.{has};
ghost use Rattle.ftc_ring.specs.Groups.{is_later_member};

use crate::effects::conditional::with_if;
use crate::state::MachineState;
use ftc_base::{ServerId, ServerSet};

impl MachineState {
    /// The groups that a server belongs to and doesn't head.
    pub fn groups_behind(&self, server: ServerId) -> ServerSet
        requires { server < self.now.ring.servers }
        ensures { (group : ℕ) → has result group
            ≡ (nat_lt group self.now.ring.servers && is_later_member self.now.ring group server) }
    {
        let mut groups = ServerSet::new();
        for number in 0..self.ring.servers() {
            let group = ServerId::new(number).unwrap();
            groups = with_if(groups, self.ring.is_later_member(group, server), group);
        }
        groups
    }
}
