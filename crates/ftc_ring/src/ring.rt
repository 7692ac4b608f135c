//! A ring of servers.

ghost use Rattle.std.specs.Prelude.{◌≡◌, ◌≤◌, ◌<◌, ◌↔◌, IsTrue, IsSome, IfSome};
ghost use Rattle.ftc_base.specs.declared.limits.TheConstants.{MOST_SERVERS};
ghost use Rattle.ftc_ring.specs.Ring.{IsRing, IsMember, next_of, previous_of, tail_of};

use crate::distance::{apart, next_of, server_of};
use ftc_base::ServerId;
use ftc_base::limits::MOST_SERVERS;
use std::marker::Model;

/// Servers 0, 1, 2 and so on, with a link from each to the next and from the last to server 0. Group j,
/// which server j heads, is that server and as many servers after it as may be down at once.
#[derive(Clone, Copy, Debug, PartialEq, Eq)]
pub struct Ring {
    servers: u8,
    failures: u8,
}

impl Model for Ring {
    ghost use Rattle.std.specs.Prelude.{◌≤◌, ◌<◌};
    ghost use Rattle.ftc_base.specs.declared.limits.TheConstants.{MOST_SERVERS};
    ghost use Rattle.ftc_ring.specs.Ring.{RingShape};

    ghost Value = { RingShape };

    ghost view = { λ ring. record { servers = ring.servers; failures = ring.failures } };

    ghost invariant = { λ ring. (ring.servers ≤ MOST_SERVERS) × (ring.failures < ring.servers) };

    ghost inverse = { λ shape. record { servers = shape.servers; failures = shape.failures } };
}

impl Ring {
    /// The ring of so many servers, of which so many may be down at once.
    pub fn new(servers: u8, failures: u8) -> Option<Ring>
        ensures within { IsSome result ↔ ((1 ≤ servers) × (servers ≤ MOST_SERVERS) × (failures < servers)) }
        ensures same { IfSome result (λ ring. ring ≡ record { servers = servers; failures = failures }) }
    {
        if servers <= MOST_SERVERS && failures < servers {
            Some(Ring { servers, failures })
        } else {
            None
        }
    }

    /// How many servers it has.
    pub fn servers(&self) -> u8
        ensures same { result ≡ self.now.servers }
        ensures bounds { IsRing self.now }
    {
        self.servers
    }

    /// How many of them may be down at once.
    pub fn failures(&self) -> u8
        ensures same { result ≡ self.now.failures }
        ensures bounds { IsRing self.now }
    {
        self.failures
    }

    /// Whether a server is a member of a group.
    pub fn belongs(&self, server: ServerId, group: ServerId) -> bool
        requires server { server < self.now.servers }
        requires group { group < self.now.servers }
        ensures { IsTrue result ↔ IsMember self.now group server }
    {
        apart(self.servers, group, server) <= self.failures
    }

    /// The last member of a group.
    pub fn tail(&self, group: ServerId) -> ServerId
        requires { group < self.now.servers }
        ensures same { result ≡ tail_of self.now group }
        ensures within { result < self.now.servers }
    {
        let last = group.number() + self.failures;
        if last < self.servers {
            server_of(last)
        } else {
            server_of(last - self.servers)
        }
    }

    /// The server to which the link from a server leads.
    pub fn next(&self, server: ServerId) -> ServerId
        requires { server < self.now.servers }
        ensures same { result ≡ next_of self.now.servers server }
        ensures within { result < self.now.servers }
    {
        server_of(next_of(self.servers, server))
    }

    /// The server from which a link leads to a server.
    pub fn previous(&self, server: ServerId) -> ServerId
        requires { server < self.now.servers }
        ensures same { result ≡ previous_of self.now.servers server }
        ensures within { result < self.now.servers }
    {
        match server.number() {
            0 => server_of(self.servers - 1),
            number => server_of(number - 1),
        }
    }
}
