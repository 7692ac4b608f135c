//! The ring of a chain.

ghost use Rattle.std.specs.Prelude.{◌≡◌};
ghost use Rattle.ftc_ring.specs.Ring.{IsRing};
ghost use Rattle.ftc_protocol.specs.ChainRing.{ring_of};

use ftc_mbox::ChainSpec;
use ftc_ring::Ring;

/// The ring of a chain, with a server for each middlebox.
pub fn ring_of(spec: &ChainSpec) -> Ring
    ensures same { result ≡ ring_of spec.now }
    ensures right { IsRing result }
{
    match Ring::new(spec.rules().len() as u8, spec.failures()) {
        Some(ring) => ring,
        None => unreachable!(),
    }
}
