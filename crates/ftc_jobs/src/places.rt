//! Servers and links by their numbers.

ghost use Rattle.std.specs.Prelude.{◌≡◌, ◌<◌};
ghost use Rattle.std.specs.Option.{option_copied};
ghost use Rattle.ftc_network.specs.Parts.{server_in, link_in};

use ftc_base::ServerId;
use ftc_link::Link;
use ftc_network::Network;
use ftc_server::Server;

/// The server of that number, None where it is down or the chain hasn't one of that number.
pub fn server_at(network: &Network, server: ServerId) -> Option<&Server>
    ensures { option_copied result ≡ server_in network.now.servers.items server }
{
    let place = usize::from(server.number());
    if place < network.servers.len() {
        network.servers[place].as_ref()
    } else {
        None
    }
}

/// The link that leaves the server of that number.
pub fn link_at(network: &Network, link: ServerId) -> &Link
    requires { link < network.now.ring.servers }
    ensures { result.now ≡ link_in network.now.links.items link }
{
    &network.links[usize::from(link.number())]
}
