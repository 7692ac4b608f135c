//! How many messages are held and queued.

ghost use Rattle.std.specs.Prelude.{◌≡◌, ◌<◌, ◌^◌, length};
ghost use Rattle.ftc_chain.specs.Messages.{held_in, all_held, all_queued, messages_in};

use ftc_link::Link;
use ftc_network::Network;
use ftc_server::Server;

/// How many messages a server holds.
fn held_at(slot: &Option<Server>) -> u64
    ensures { result ≡ length (held_in slot.now) }
{
    match slot {
        Some(server) => server.held() as u64,
        None => 0,
    }
}

/// How many messages these servers hold.
fn held_by(slots: &[Option<Server>]) -> u64
    requires { all_held slots.now < 2 ^ 64 }
    ensures { result ≡ all_held slots.now }
{
    let mut count = 0;
    for slot in slots {
        count += held_at(slot);
    }
    count
}

/// How many messages are queued on these links.
fn queued_on(links: &[Link]) -> u64
    requires { all_queued links.now < 2 ^ 64 }
    ensures { result ≡ all_queued links.now }
{
    let mut count = 0;
    for link in links {
        count += link.len() as u64;
    }
    count
}

/// How many messages are held and queued.
pub fn messages_in(network: &Network) -> u64
    requires { messages_in network.now < 2 ^ 64 }
    ensures { result ≡ messages_in network.now }
{
    held_by(network.servers.as_slice()) + queued_on(network.links.as_slice())
}
