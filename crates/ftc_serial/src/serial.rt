//! The serial chain.

ghost use Rattle.std.specs.Prelude.{◌≡◌, ◌<◌, ◌≤◌, ◌↔◌, length, OnOk, OnErr, IfOk, Some, None, IsSome, option_map};
ghost use Rattle.ftc_base.specs.Refused.{IfBad};
ghost use Rattle.ftc_base.specs.declared.limits.TheConstants.{MOST_SERVERS};

use crate::advance::{has_passed, released_bytes, visited, waits};
use crate::opening::{empty_stores, first_positions};
use crate::position::{Place, Position, place_of};
use crate::step::{Step, Trace};
use ftc_base::limits::MOST_WRITES;
use ftc_base::{Items, NoMemory, PacketNo, Refuse, Released, ReleasedList, ServerId};
use ftc_mbox::{ChainSpec, Rules, copy_rules};
use ftc_pcap::Packets;
use ftc_store::Store;
use std::alloc::Global;
use std::mem;
use thiserror::Error;

/// The packet doesn't wait for that middlebox, or hasn't passed all of them.
#[derive(Clone, Copy, Debug, PartialEq, Eq, Error)]
#[error("the packet does not wait for that")]
pub struct NotWaiting;

/// The first step of a run that isn't legal, by its place from 0.
#[derive(Clone, Copy, Debug, PartialEq, Eq, Error)]
#[error("step {place} is not legal")]
pub struct BadStep {
    pub place: u64,
}

/// A serial chain: what each middlebox has, where each packet is, and what was released.
#[derive(Drop)]
pub struct Serial {
    rules: Rules,
    stores: Vec<Store>,
    positions: Vec<Position>,
    released: ReleasedList,
    ghost one_store_each: { length stores.items ≡ length rules },
    ghost few: { length rules ≤ MOST_SERVERS },
}

impl Serial {
    ghost use Rattle.ftc_serial.specs.Serial.{serial_opening, serial_step, serial_run};
    ghost use Rattle.ftc_serial.specs.Illegal.{IsFirstIllegal};
    ghost use Rattle.ftc_serial.specs.Held.{rules_of, serial_state};
    ghost use Rattle.ftc_serial.specs.Packets.{bytes_of_packets};
    ghost use Rattle.ftc_serial.specs.Place.{place_of};
    ghost use Rattle.ftc_serial.specs.declared.step.Step.TheVariants as step;

    /// The chain at its start: every store is empty, and each packet waits for the first middlebox.
    pub fn new(alloc: Global, spec: &ChainSpec, packets: &Packets) -> Result<Serial, NoMemory>
        ensures rules { IfOk result (λ serial. rules_of serial ≡ spec.now.rules) }
        ensures some { IfOk result (λ serial. 1 ≤ length (rules_of serial)) }
        ensures opening { IfOk result (λ serial. serial_state serial ≡ serial_opening (bytes_of_packets packets.now)) }
    {
        let rules = copy_rules(alloc, spec.rules())?;
        let stores = empty_stores(alloc, rules.len(), spec.partitions())?;
        let positions = first_positions(alloc, packets)?;
        Ok(Serial {
            rules,
            stores,
            positions,
            released: Items::new(alloc),
        })
    }

    /// How many middleboxes there are.
    pub fn servers(&self) -> usize
        ensures same { result ≡ length (rules_of self.now) }
        ensures few { result ≤ MOST_SERVERS }
    {
        self.rules.len()
    }

    /// The packet goes through the middlebox of that server. It is refused exactly where the packet
    /// doesn't wait for it. A refused call leaves the chain as it was.
    pub fn visit(&mut self, server: ServerId, packet: PacketNo) -> Result<(), Refuse<NotWaiting>>
        ensures made { OnOk result (serial_step (rules_of self.old) (serial_state self.old) (step.Visit server packet)
            ≡ Some (serial_state self.new)) }
        ensures refused { IfBad result
            (λ _. serial_step (rules_of self.old) (serial_state self.old) (step.Visit server packet) ≡ None) }
        ensures err { OnErr result (serial_state self.new ≡ serial_state self.old) }
        ensures rules { rules_of self.new ≡ rules_of self.old }
    {
        let place = packet as usize;
        let middlebox = usize::from(server.number());
        if middlebox >= self.stores.len() || !waits(&self.positions, place, server) {
            return Err(Refuse::Bad(NotWaiting));
        }
        self.stores[middlebox].reserve(MOST_WRITES)?;
        let position = mem::replace(&mut self.positions[place], Position::Released);
        let rule = self.rules.at(middlebox);
        let next = visited(
            position,
            server,
            self.rules.len(),
            rule,
            &mut self.stores[middlebox],
        );
        self.positions[place] = next;
        Ok(())
    }

    /// The packet, which has passed all middleboxes, leaves the chain. It is refused exactly where it
    /// hasn't. A refused call leaves the chain as it was.
    pub fn release(&mut self, packet: PacketNo) -> Result<(), Refuse<NotWaiting>>
        ensures made { OnOk result (serial_step (rules_of self.old) (serial_state self.old) (step.Release packet)
            ≡ Some (serial_state self.new)) }
        ensures refused { IfBad result
            (λ _. serial_step (rules_of self.old) (serial_state self.old) (step.Release packet) ≡ None) }
        ensures err { OnErr result (serial_state self.new ≡ serial_state self.old) }
        ensures rules { rules_of self.new ≡ rules_of self.old }
    {
        let place = packet as usize;
        if !has_passed(&self.positions, place) {
            return Err(Refuse::Bad(NotWaiting));
        }
        let position = mem::replace(&mut self.positions[place], Position::Released);
        let bytes = released_bytes(position);
        match self.released.give(Released { packet, bytes }) {
            Ok(()) => Ok(()),
            Err(Released { bytes, .. }) => {
                self.positions[place] = Position::Passed { bytes };
                Err(Refuse::NoMemory)
            }
        }
    }

    /// Makes one step. It is refused exactly where the step isn't legal. A refused call leaves the chain
    /// as it was.
    pub fn step(&mut self, step: &Step) -> Result<(), Refuse<NotWaiting>>
        ensures made { OnOk result (serial_step (rules_of self.old) (serial_state self.old) step.now
            ≡ Some (serial_state self.new)) }
        ensures refused { IfBad result (λ _. serial_step (rules_of self.old) (serial_state self.old) step.now ≡ None) }
        ensures err { OnErr result (serial_state self.new ≡ serial_state self.old) }
        ensures rules { rules_of self.new ≡ rules_of self.old }
    {
        match step {
            Step::Visit { server, packet } => self.visit(*server, *packet),
            Step::Release { packet } => self.release(*packet),
        }
    }

    /// The chain after the steps, one after another from its start. It is refused for the first step that
    /// isn't legal.
    pub fn run(
        alloc: Global,
        spec: &ChainSpec,
        packets: &Packets,
        trace: &Trace,
    ) -> Result<Serial, Refuse<BadStep>>
        ensures rules { IfOk result (λ serial. rules_of serial ≡ spec.now.rules) }
        ensures state { IfOk result
            (λ serial. serial_run spec.now.rules (serial_opening (bytes_of_packets packets.now)) trace.now
            ≡ Some (serial_state serial)) }
        ensures bad { IfBad result
            (λ fault. IsFirstIllegal spec.now.rules
            (serial_opening (bytes_of_packets packets.now)) trace.now fault.place) }
    {
        let mut serial = Serial::new(alloc, spec, packets)?;
        for (place, step) in trace.as_slice().iter().enumerate() {
            match serial.step(step) {
                Ok(()) => {}
                Err(Refuse::Bad(_)) => {
                    return Err(Refuse::Bad(BadStep {
                        place: place as u64,
                    }));
                }
                Err(Refuse::NoMemory) => return Err(Refuse::NoMemory),
            }
        }
        Ok(serial)
    }

    /// The store of a server's middlebox.
    pub fn store(&self, server: ServerId) -> &Store
        requires { server < length (rules_of self.now) }
        ensures { result.now.content ≡ (serial_state self.now).maps server }
    {
        &self.stores[usize::from(server.number())]
    }

    /// Where a packet is.
    pub fn place(&self, packet: PacketNo) -> Place
        requires { IsSome ((serial_state self.now).place packet) }
        ensures { Some result ≡ option_map place_of ((serial_state self.now).place packet) }
    {
        place_of(&self.positions[packet as usize])
    }

    /// The released packets, in the order of their release.
    pub fn released(&self) -> &ReleasedList
        ensures { result.now ≡ (serial_state self.now).released }
    {
        &self.released
    }
}
