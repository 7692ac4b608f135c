//! A script that was accepted.

ghost use Rattle.std.specs.Prelude.{◌≡◌, ◌<◌, length, slice_get, Some};
ghost use Rattle.ftc_script.specs.Script.{IsScript, is_of, loses_of};

use crate::line::{LoseLine, ScriptLine};
use ftc_base::{Items, PacketNo, ServerId};
use ftc_ring::Ring;
use std::marker::Model;

/// The crashes and recoveries of a run in order, and the messages that links lose. It was accepted for
/// its ring and its count of packets.
#[derive(Drop)]
pub struct Script {
    ring: Ring,
    packets: u32,
    steps: Items<ScriptLine>,
    loses: Items<LoseLine>,
}

impl Model for Script {
    ghost use Rattle.ftc_script.specs.Script.{ScriptShape, IsScript};

    ghost Value = { ScriptShape };

    ghost view = { λ script. record {
      ring = script.ring;
      packets = script.packets;
      steps = script.steps;
      loses = script.loses;
    } };

    ghost invariant = { λ script. IsScript (record {
      ring = script.ring;
      packets = script.packets;
      steps = script.steps;
      loses = script.loses;
    }) };
}

impl Script {
    /// The script of these parts.
    pub(crate) fn new(
        ring: Ring,
        packets: u32,
        steps: Items<ScriptLine>,
        loses: Items<LoseLine>,
    ) -> Script
        requires { IsScript (record { ring = ring; packets = packets; steps = steps; loses = loses }) }
        ensures { result ≡ record { ring = ring; packets = packets; steps = steps; loses = loses } }
    {
        Script {
            ring,
            packets,
            steps,
            loses,
        }
    }

    /// The ring for which it was accepted.
    pub fn ring(&self) -> &Ring
        ensures same { result.now ≡ self.now.ring }
        ensures accepted { IsScript self.now }
    {
        &self.ring
    }

    /// The count of packets for which it was accepted.
    pub fn packets(&self) -> u32
        ensures same { result ≡ self.now.packets }
        ensures accepted { IsScript self.now }
    {
        self.packets
    }

    /// How many crashes and recoveries it has.
    pub fn steps(&self) -> usize
        ensures { result ≡ length self.now.steps }
    {
        self.steps.len()
    }

    /// The crash or recovery of that number, from 0.
    pub fn step(&self, place: usize) -> ScriptLine
        requires { place < length self.now.steps }
        ensures { slice_get self.now.steps place ≡ Some result }
    {
        *self.steps.at(place)
    }

    /// The number of the first line by which a link loses the message of that origin.
    pub fn loses(&self, link: ServerId, origin: PacketNo) -> Option<u32>
        ensures { result ≡ loses_of self.now.loses link origin }
    {
        for line in self.loses.as_slice() {
            if line.link == link && line.origin == origin {
                return Some(line.line);
            }
        }
        None
    }
}
