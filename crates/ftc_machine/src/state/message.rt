//! Messages and withheld packets, as the machine keeps them.

ghost use Rattle.std.specs.Prelude.{◌≡◌};

use ftc_base::{Bytes, PacketNo, ServerId, ServerSet};
use ftc_journal::VisitNames;
use ftc_vector::GroupVectors;

/// Where a message is.
#[derive(Debug, Drop)]
pub enum Place {
    /// A server holds it. It was visited there or not, and came by the ring link or not.
    Held {
        server: ServerId,
        visited: bool,
        by_ring: bool,
    },
    /// It is queued on a link, with what its sender knew to be at the tails.
    Queued {
        link: ServerId,
        known: Box<GroupVectors>,
    },
}

impl Place {
    ghost use Rattle.ftc_machine.specs.LegalityTests.{is_held, is_unvisited, may_go, came_by_ring, is_begun, is_queued};

    /// Whether that server holds it.
    pub fn is_held(&self, server: ServerId) -> bool
        ensures { result ≡ is_held server self.now }
    {
        match self {
            Place::Held { server: holder, .. } => holder.number() == server.number(),
            Place::Queued { .. } => false,
        }
    }

    /// Whether that server holds it and its middlebox hasn't visited it.
    pub fn is_unvisited(&self, server: ServerId) -> bool
        ensures { result ≡ is_unvisited server self.now }
    {
        match self {
            Place::Held {
                server: holder,
                visited,
                ..
            } => holder.number() == server.number() && !*visited,
            Place::Queued { .. } => false,
        }
    }

    /// Whether that server may send it on, once it is ready, where it carries a packet or is bare.
    pub fn may_go(&self, server: ServerId, bare: bool) -> bool
        ensures { result ≡ may_go server bare self.now }
    {
        match self {
            Place::Held {
                server: holder,
                visited,
                by_ring,
            } => holder.number() == server.number() && !*by_ring && (*visited || bare),
            Place::Queued { .. } => false,
        }
    }

    /// Whether server 0 holds it, to which it came by the ring link.
    pub fn came_by_ring(&self) -> bool
        ensures { result ≡ came_by_ring self.now }
    {
        match self {
            Place::Held {
                server,
                by_ring,
                ..
            } => server.number() == 0 && *by_ring,
            Place::Queued { .. } => false,
        }
    }

    /// Whether server 0 holds it, where it began.
    pub fn is_begun(&self) -> bool
        ensures { result ≡ is_begun self.now }
    {
        match self {
            Place::Held {
                server,
                by_ring,
                ..
            } => server.number() == 0 && !*by_ring,
            Place::Queued { .. } => false,
        }
    }

    /// Whether it is queued on that link.
    pub fn is_queued(&self, link: ServerId) -> bool
        ensures { result ≡ is_queued link self.now }
    {
        match self {
            Place::Held { .. } => false,
            Place::Queued { link: queued, .. } => queued.number() == link.number(),
        }
    }
}

/// A message.
#[derive(Debug, Drop)]
pub struct Message {
    pub place: Place,
    /// The number of the event by which it came there.
    pub since: u64,
    /// The packet that it carries, if it carries one.
    pub packet: Option<Bytes>,
    /// The visits whose logs it carries.
    pub logs: VisitNames,
    /// The middleboxes at which its packet touched something.
    pub needs: ServerSet,
}

/// A packet in the buffer.
#[derive(Clone, Copy, Debug, PartialEq, Eq)]
pub struct Withheld {
    pub packet: PacketNo,
    /// The number of the event by which it came there.
    pub since: u64,
    /// The middleboxes at which it touched something.
    pub needs: ServerSet,
}
