//! Where a server and the link that leaves it stand in their lists.

ghost use Rattle.std.specs.Prelude.{◌≡◌};

use ftc_base::ServerId;

/// The place of a server, and of the link that leaves it.
pub fn place_of(server: ServerId) -> usize
    ensures { result ≡ server }
{
    usize::from(server.number())
}
