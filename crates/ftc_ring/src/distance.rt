//! Servers by their numbers, and how far they are apart.

ghost use Rattle.std.specs.Prelude.{◌≡◌, ◌≤◌, ◌<◌};
ghost use Rattle.ftc_base.specs.declared.limits.TheConstants.{MOST_SERVERS};
ghost use Rattle.ftc_ring.specs.Ring.{apart, next_of};

use ftc_base::ServerId;

/// The server of a number that a ring has.
pub fn server_of(number: u8) -> ServerId
    requires { number < MOST_SERVERS }
    ensures { result ≡ number }
{
    match ServerId::new(number) {
        Some(server) => server,
        None => unreachable!(),
    }
}

/// The number of the server to which the link from a server leads, in a ring of so many.
pub fn next_of(servers: u8, server: ServerId) -> u8
    ensures { result ≡ next_of servers server }
{
    let number = server.number() + 1;
    if number == servers { 0 } else { number }
}

/// How many links lead from one server to another, in a ring of so many servers.
pub fn apart(servers: u8, from: ServerId, to: ServerId) -> u8
    requires ring { servers ≤ MOST_SERVERS }
    requires from { from < servers }
    ensures { result ≡ apart servers from to }
{
    let (from, to) = (from.number(), to.number());
    if from <= to {
        to - from
    } else {
        to + servers - from
    }
}
