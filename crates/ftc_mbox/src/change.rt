//! Rewriting a packet as a verdict says.

ghost use Rattle.std.specs.Prelude.{◌≡◌, length};
ghost use Rattle.ftc_mbox.specs.Change.{changed_packet, CanChange};

use ftc_base::Change;
use ftc_packet::{set_destination, set_source};

/// Rewrites a packet. Where the change isn't Keep, the packet is a flow packet.
pub fn change_packet(packet: &mut [u8], change: &Change)
    requires { CanChange packet.old change.now }
    ensures same { packet.new ≡ changed_packet packet.old change.now }
    ensures length { length packet.new ≡ length packet.old }
{
    match change {
        Change::Keep => {}
        Change::Source { address, port } => set_source(packet, *address, *port),
        Change::Destination { address, port } => set_destination(packet, *address, *port),
    }
}
