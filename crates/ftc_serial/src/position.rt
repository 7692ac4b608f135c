//! Where a packet is on the serial chain.

ghost use Rattle.std.specs.Prelude.{◌≡◌, ◌<◌, ◌≤◌, Option};
ghost use Rattle.ftc_serial.specs.Place.{place_of};

use ftc_base::limits::MOST_SERVERS;
use ftc_base::{Bytes, ServerId};

/// Where a packet is, with the bytes that it has there.
#[derive(Debug, Drop)]
pub enum Position {
    /// It waits for the middlebox of a server.
    Waiting { server: ServerId, bytes: Bytes },
    /// It has passed all middleboxes.
    Passed { bytes: Bytes },
    /// The middlebox of a server has dropped it.
    Filtered { server: ServerId },
    /// It has left the chain.
    Released,
}

/// Where a packet is.
#[derive(Clone, Copy, Debug, PartialEq, Eq)]
pub enum Place {
    /// It waits for the middlebox of a server.
    Waiting { server: ServerId },
    /// It has passed all middleboxes.
    Passed,
    /// The middlebox of a server has dropped it.
    Filtered { server: ServerId },
    /// It has left the chain.
    Released,
}

/// A position without the bytes.
pub fn place_of(position: &Position) -> Place
    ensures { result ≡ place_of position.now }
{
    match position {
        Position::Waiting { server, .. } => Place::Waiting { server: *server },
        Position::Passed { .. } => Place::Passed,
        Position::Filtered { server } => Place::Filtered { server: *server },
        Position::Released => Place::Released,
    }
}
