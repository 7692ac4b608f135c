//! What is told of each record that is put.

ghost use Rattle.std.specs.Prelude.{◌≡◌, [], ◌∷◌, true, not, length, IfOk, OnOk, OnErr, IsOk};
ghost use Rattle.ftc_outside.specs.Tap.{Face, HasNoFeed, WasTold, counted_by, count_face, list_face};

use ftc_base::{Bytes, NoMemory, PacketNo, Released, ReleasedList};
use std::alloc::Global;
use std::marker::Model;

/// It is told each record that is put, and has a line in the report.
pub trait Tap: Drop {
    /// What can be seen of it.
    ghost face: { Self → Face };

    /// Adds a record, and says whether the tap stays.
    fn see(&mut self, alloc: Global, number: PacketNo, bytes: &[u8]) -> Result<bool, NoMemory>
        ensures stays { IfOk result (λ stays.
            stays ≡ not ((face self.old).leaves (record { packet = number; bytes = bytes.now }))) }
        ensures told { OnOk result (
            WasTold (record { packet = number; bytes = bytes.now } ∷ []) (face self.old) (face self.new)) }
        ensures constant { (face self.old).constant ≡ true → IfOk result (λ stays. stays ≡ true) }
        ensures err { OnErr result (face self.new ≡ face self.old) };

    /// Its line in the report, without a line feed.
    fn line(&self, alloc: Global) -> Result<Bytes, NoMemory>
        ensures line { IfOk result (λ line. line ≡ (face self.now).line) }
        ensures alone { IfOk result (λ line. HasNoFeed line) };
}

/// Counts packets and bytes, and never leaves.
#[derive(Drop)]
pub struct CountTap {
    packets: u64,
    bytes: u64,
}

impl Model for CountTap {
    ghost use Rattle.ftc_outside.specs.Tap.{Counts};

    ghost Value = { Counts };

    ghost view = { λ tap. record { packets = tap.packets; bytes = tap.bytes } };
}

impl CountTap {
    /// A tap that was told nothing yet.
    pub fn new() -> CountTap
        ensures packets { result.packets ≡ 0 }
        ensures bytes { result.bytes ≡ 0 }
    {
        CountTap {
            packets: 0,
            bytes: 0,
        }
    }
}

impl Tap for CountTap {
    ghost face = { count_face };

    fn see(&mut self, _alloc: Global, _number: PacketNo, bytes: &[u8]) -> Result<bool, NoMemory>
        ensures stays { IfOk result (λ stays. stays ≡ true) }
        ensures told { OnOk result (
            WasTold (record { packet = _number; bytes = bytes.now } ∷ [])
            (count_face self.old) (count_face self.new)) }
        ensures constant { true ≡ true → IfOk result (λ stays. stays ≡ true) }
        ensures err { OnErr result (count_face self.new ≡ count_face self.old) }

        // It always counts.
        ensures sees { IsOk result }
        ensures packets { self.new.packets ≡ counted_by self.old.packets 1 }
        ensures bytes { self.new.bytes ≡ counted_by self.old.bytes (length bytes.now) }
    {
        self.packets = self.packets.saturating_add(1);
        self.bytes = self.bytes.saturating_add(bytes.len() as u64);
        Ok(true)
    }

    fn line(&self, alloc: Global) -> Result<Bytes, NoMemory> {
        let packets = self.packets;
        let bytes = self.bytes;
        let text = format!(in alloc; "packets {packets} bytes {bytes}")?;
        Ok(Bytes::from_vec(text.into_bytes()))
    }
}

/// Keeps all records, and never leaves. Contracts see the list of them.
#[derive(Drop)]
pub struct ListTap {
    list: ReleasedList,
}

impl Model for ListTap {
    ghost use Rattle.std.specs.Prelude.{List};
    ghost use Rattle.ftc_base.specs.declared.released.Released.{Released};

    ghost Value = { List Released };

    ghost view = { λ tap. tap.list };
}

impl ListTap {
    /// A tap that was told nothing yet.
    pub fn new(alloc: Global) -> ListTap
        ensures { result ≡ [] }
    {
        ListTap {
            list: ReleasedList::new(alloc),
        }
    }

    /// The records that it was told, in order.
    pub fn list(&self) -> &ReleasedList
        ensures { result.now ≡ self.now }
    {
        &self.list
    }
}

impl Tap for ListTap {
    ghost face = { list_face };

    fn see(&mut self, alloc: Global, number: PacketNo, bytes: &[u8]) -> Result<bool, NoMemory> {
        let mut copy = Bytes::new(alloc);
        copy.append(bytes)?;
        self.list.push(Released {
            packet: number,
            bytes: copy,
        })?;
        Ok(true)
    }

    fn line(&self, alloc: Global) -> Result<Bytes, NoMemory> {
        let records = self.list.len();
        let text = format!(in alloc; "list {records}")?;
        Ok(Bytes::from_vec(text.into_bytes()))
    }
}
