//! Flow packets: TCP and UDP in unfragmented IPv4 on Ethernet, as captured from the wire.
//!
//! A flow packet names a [`Flow`], and either end of it can be given another address and port in
//! place, with both checksums kept right: the IPv4 header's (RFC 791) and that of TCP (RFC 9293) or
//! UDP (RFC 768) with its pseudo header. The checksums are updated from the words that change, by
//! equation 3 of RFC 1624, and not summed anew. Numbers stand in network byte order, and nothing
//! here allocates.
#![tactic(auto)]

mod check;
mod flow;
mod laws;
mod layout;
mod rewrite;
mod sum;
#[cfg(test)]
mod tests;

pub use crate::check::sums_right;
pub use crate::flow::{Flow, flow_of};
pub use crate::laws::{law_of_datagrams, law_of_flows, law_of_segments, law_of_updates};
pub use crate::rewrite::{set_destination, set_source};
