//! The parts of a serial chain at its start.

ghost use Rattle.std.specs.Prelude.{ℕ, ◌≡◌, ◌≤◌, length, IfOk, map};
ghost use Rattle.std.specs.FinMap.{empty};
ghost use Rattle.ftc_serial.specs.Contents.{content_at};
ghost use Rattle.ftc_serial.specs.declared.position.Position.TheVariants as position;

use crate::position::Position;
use ftc_base::limits::MOST_PARTITIONS;
use ftc_base::{NoMemory, ServerId};
use ftc_pcap::Packets;
use ftc_store::Store;
use std::alloc::Global;

/// An empty store for each of so many middleboxes.
pub fn empty_stores(alloc: Global, count: usize, partitions: u8) -> Result<Vec<Store>, NoMemory>
    requires some { 1 ≤ partitions }
    requires within { partitions ≤ MOST_PARTITIONS }
    ensures count { IfOk result (λ stores. length stores.items ≡ count) }
    ensures empty { IfOk result (λ stores. (server : ℕ) → content_at stores.items server ≡ empty) }
{
    let mut stores = Vec::new(alloc);
    for _ in 0..count {
        stores.push(Store::new(alloc, partitions))?;
    }
    Ok(stores)
}

/// The position of each packet: it waits for the first middlebox with its own bytes.
pub fn first_positions(alloc: Global, packets: &Packets) -> Result<Vec<Position>, NoMemory>
    ensures { IfOk result (λ positions. positions.items ≡ map (λ packet. position.Waiting 0 packet.bytes) packets.now) }
{
    let server = ServerId::new(0).unwrap();
    let mut positions = Vec::new(alloc);
    for place in 0..packets.len() {
        let bytes = packets.at(place).bytes.copy()?;
        positions.push(Position::Waiting { server, bytes })?;
    }
    Ok(positions)
}
