//! Beats that were accepted.

ghost use Rattle.std.specs.Prelude.{◌≡◌};
ghost use Rattle.ftc_watch.specs.Beats.{IsBeats};

use crate::tick::Tick;
use ftc_base::Items;
use ftc_ring::Ring;
use std::marker::Model;

/// The ticks of a beats text in order. They were accepted for their ring and their count of packets.
#[derive(Drop)]
pub struct Beats {
    ring: Ring,
    packets: u32,
    ticks: Items<Tick>,
}

impl Model for Beats {
    ghost use Rattle.ftc_watch.specs.Beats.{BeatsShape, IsBeats};

    ghost Value = { BeatsShape };

    ghost view = { λ beats. record { ring = beats.ring; packets = beats.packets; ticks = beats.ticks } };

    ghost invariant = { λ beats. IsBeats (record { ring = beats.ring; packets = beats.packets; ticks = beats.ticks }) };
}

impl Beats {
    /// The beats of these parts.
    pub(crate) fn new(ring: Ring, packets: u32, ticks: Items<Tick>) -> Beats
        requires { IsBeats (record { ring = ring; packets = packets; ticks = ticks }) }
        ensures { result ≡ record { ring = ring; packets = packets; ticks = ticks } }
    {
        Beats {
            ring,
            packets,
            ticks,
        }
    }

    /// The ring for which they were accepted.
    pub fn ring(&self) -> &Ring
        ensures same { result.now ≡ self.now.ring }
        ensures accepted { IsBeats self.now }
    {
        &self.ring
    }

    /// The count of packets for which they were accepted.
    pub fn packets(&self) -> u32
        ensures same { result ≡ self.now.packets }
        ensures accepted { IsBeats self.now }
    {
        self.packets
    }

    /// The ticks in order.
    pub fn ticks(&self) -> &[Tick]
        ensures same { result.now ≡ self.now.ticks }
        ensures accepted { IsBeats self.now }
    {
        self.ticks.as_slice()
    }
}
