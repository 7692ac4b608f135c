//! What a run is given.

use ftc_mbox::ChainSpec;
use ftc_pcap::Packets;
use ftc_script::Script;
use std::alloc::Global;

/// A chain, the packets of a capture and a script, which was accepted for that chain's ring and for as many packets.
#[derive(Clone, Copy)]
pub struct Given<'a> {
    pub alloc: Global,
    pub spec: &'a ChainSpec,
    pub packets: &'a Packets,
    pub script: &'a Script,
}
