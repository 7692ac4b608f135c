//! The groups of a server.

ghost use Rattle.std.specs.Prelude.{◌≡◌, ◌<◌};
ghost use Rattle.ftc_ring.specs.Groups.{group_ending_at, is_later_member};

use crate::ring::Ring;
use ftc_base::ServerId;

impl Ring {
    /// The group whose last member a server is.
    pub fn group_ending_at(&self, server: ServerId) -> ServerId
        ensures same { result ≡ group_ending_at self.now server }
        ensures within { server < self.now.servers → result < self.now.servers }
    {
        let (number, failures) = (server.number(), self.failures());
        let group = if failures <= number {
            number - failures
        } else {
            number + self.servers() - failures
        };
        ServerId::new(group).unwrap()
    }

    /// Whether a server belongs to a group and doesn't head it.
    pub fn is_later_member(&self, group: ServerId, server: ServerId) -> bool
        requires group { group < self.now.servers }
        requires server { server < self.now.servers }
        ensures { result ≡ is_later_member self.now group server }
    {
        group.number() != server.number() && self.belongs(server, group)
    }
}
