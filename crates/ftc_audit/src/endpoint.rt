//! Where a flow comes from.

ghost use Rattle.std.specs.Prelude.{◌≡◌};
ghost use Rattle.ftc_audit.specs.Sources.{source_of};

use ftc_packet::flow_of;

/// One end of a flow.
#[derive(Clone, Copy, Debug, PartialEq, Eq, PartialOrd, Ord)]
pub struct Endpoint {
    /// The protocol's number: 6 for TCP, 17 for UDP.
    pub protocol: u8,
    /// The IPv4 address, its first byte highest.
    pub address: u32,
    pub port: u16,
}

/// Where a flow packet comes from. None for every other packet.
pub fn source_of(packet: &[u8]) -> Option<Endpoint>
    ensures { result ≡ source_of packet.now }
{
    let flow = flow_of(packet)?;
    Some(Endpoint {
        protocol: flow.protocol,
        address: flow.source,
        port: flow.source_port,
    })
}
