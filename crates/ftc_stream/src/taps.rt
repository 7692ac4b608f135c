//! Taps in boxes.

ghost use Rattle.std.specs.Prelude.{◌≡◌, ◌∷◌, [], List, true, not, map, IfOk, OnOk, OnErr};
ghost use Rattle.std.specs.List.{AllByRecursion};
ghost use Rattle.ftc_outside.specs.Tap.{Face, HasNoFeed, WasTold};
ghost use Rattle.ftc_stream.specs.Taps.{AreTold, AreToldInPart, AreLeft, AreToldShort};

use ftc_base::{Bytes, Lines, NoMemory, PacketNo, Released};
use ftc_outside::Tap;
use std::alloc::Global;

/// Taps in the order in which they were handed in.
#[derive(Drop)]
pub struct Taps {
    list: Vec<Box<dyn Tap + Send>>,
}

/// What can be seen of a row of taps.
pub trait Seen {
    /// The face of each tap.
    ghost faces: { Self → List Face };
}

impl Seen for Taps {
    ghost faces = { λ taps. map (λ tap. (Tap-box tap).face tap.value) taps.list.items };
}

/// Tells one tap.
fn see_one(
    tap: &mut Box<dyn Tap + Send>,
    alloc: Global,
    number: PacketNo,
    bytes: &[u8],
) -> Result<bool, NoMemory>
    ensures stays { IfOk result (λ stays.
        stays ≡ not ((face tap.old).leaves (record { packet = number; bytes = bytes.now }))) }
    ensures told { OnOk result (
        WasTold (record { packet = number; bytes = bytes.now } ∷ []) (face tap.old) (face tap.new)) }
    ensures constant { (face tap.old).constant ≡ true → IfOk result (λ stays. stays ≡ true) }
    ensures err { OnErr result (face tap.new ≡ face tap.old) }
{
    tap.see(alloc, number, bytes)
}

/// A tap's line.
fn line_of(tap: &Box<dyn Tap + Send>, alloc: Global) -> Result<Bytes, NoMemory>
    ensures line { IfOk result (λ line. line ≡ (face tap.now).line) }
    ensures alone { IfOk result HasNoFeed }
{
    tap.line(alloc)
}

/// Tells each tap, and drops those that leave.
fn tell_each(
    taps: &mut Vec<Box<dyn Tap + Send>>,
    alloc: Global,
    number: PacketNo,
    bytes: &[u8],
) -> Result<(), NoMemory>
    ensures told { OnOk result (AreTold (record { packet = number; bytes = bytes.now })
        (map (λ tap. face tap) taps.old.items)
        (map (λ tap. face tap) taps.new.items)) }
    ensures part { OnErr result (AreToldInPart (record { packet = number; bytes = bytes.now })
        (map (λ tap. face tap) taps.old.items) (map (λ tap. face tap) taps.new.items)) }
{
    let mut place = 0;
    while place < taps.len() {
        if see_one(&mut taps[place], alloc, number, bytes)? {
            place += 1;
        } else {
            drop(taps.remove(place));
        }
    }
    Ok(())
}

impl Taps {
    /// These taps.
    pub fn new(taps: Vec<Box<dyn Tap + Send>>) -> Taps
        ensures { ⟦<Taps as Seen>⟧.faces result ≡ map (λ tap. face tap) taps.items }
    {
        Taps { list: taps }
    }

    /// Tells each tap of a record, and drops those that leave at it.
    pub fn tell(&mut self, alloc: Global, item: &Released) -> Result<(), NoMemory>
        ensures told { OnOk result (
            AreTold item.now (⟦<Taps as Seen>⟧.faces self.old) (⟦<Taps as Seen>⟧.faces self.new)) }
        ensures part { OnErr result (AreToldInPart item.now (⟦<Taps as Seen>⟧.faces self.old)
            (⟦<Taps as Seen>⟧.faces self.new)) }
    {
        tell_each(&mut self.list, alloc, item.packet, item.bytes.as_slice())
    }

    /// Tells each tap of these records, one after another, and drops those that leave at one. Where memory is refused,
    /// the taps were told some front of them, and those up to some place one record more.
    pub fn tell_all(&mut self, alloc: Global, items: &[Released]) -> Result<(), NoMemory>
        ensures told { OnOk result (
            AreLeft items.now (⟦<Taps as Seen>⟧.faces self.old) (⟦<Taps as Seen>⟧.faces self.new)) }
        ensures part { OnErr result (
            AreToldShort items.now (⟦<Taps as Seen>⟧.faces self.old) (⟦<Taps as Seen>⟧.faces self.new)) }
    {
        for item in items {
            self.tell(alloc, item)?;
        }
        Ok(())
    }

    /// The lines of the taps that are still there, in their order.
    pub fn lines(&self, alloc: Global) -> Result<Lines, NoMemory>
        ensures lines { IfOk result (λ lines. lines ≡ map (λ tap. tap.line) (⟦<Taps as Seen>⟧.faces self.now)) }
        ensures alone { IfOk result (AllByRecursion HasNoFeed) }
    {
        let mut lines = Lines::new(alloc);
        for tap in self.list.as_slice() {
            lines.push(line_of(tap, alloc)?)?;
        }
        Ok(lines)
    }
}
