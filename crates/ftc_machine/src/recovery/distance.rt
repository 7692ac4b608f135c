//! How far live servers are apart.

ghost use Rattle.std.specs.Prelude.{◌≡◌, ◌≤◌, ◌<◌};
ghost use Rattle.ftc_base.specs.declared.limits.TheConstants.{MOST_SERVERS};
ghost use Rattle.ftc_ring.specs.Live.{span};

use ftc_base::ServerId;
use ftc_ring::apart;

/// How many links lead from the live server before a server to the live server after it.
pub fn span(servers: u8, before: ServerId, after: ServerId) -> u8
    requires ring { servers ≤ MOST_SERVERS }
    requires from { before < servers }
    ensures { result ≡ span servers before after }
{
    if before.number() == after.number() {
        servers
    } else {
        apart(servers, before, after)
    }
}
