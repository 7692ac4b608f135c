//! A ring from the chain to the writer.

ghost use Rattle.std.specs.Prelude.{◌≡◌, ◌≢◌, ◌<◌, ◌≤◌, ◌++◌, ◌∷◌, [], None, length, vec_len, vec_capacity, IfOk, OnOk};
ghost use Rattle.std.specs.Prelude.{OnErr, IsErrOf, codes};
ghost use Rattle.ftc_outside.specs.Desk.{SameButAt, HasServed};
ghost use Rattle.ftc_stream.specs.Records.{writable, records, HasGrownBy, HasGrownInPart};
ghost use Rattle.ftc_stream.specs.Taps.{AreLeft, AreToldInPart, AreLeftInPart};

use crate::fault::PutFault;
use crate::putting::put;
use crate::taps::{Seen, Taps};
use ftc_base::{NoMemory, Released, ReleasedList};
use ftc_outside::Desk;
use ftc_pcap::Capture;
use rtrb::{Consumer, Producer, RingBuffer};
use std::alloc::Global;
use std::marker::Model;

/// The end of a ring that sends. Contracts see for how many items it is, and what was sent.
#[derive(Drop)]
pub struct Sender {
    producer: Producer<Released>,
    room: u32,
}

impl Model for Sender {
    ghost use Rattle.std.specs.Prelude.{◌≡◌, ◌+◌, length};
    ghost use Rattle.rtrb.specs.Ring.{sent, known_free};
    ghost use Rattle.ftc_stream.specs.Flow.{Flow};

    ghost Value = { Flow };

    ghost view = { λ sender. record { room = sender.room; items = sent sender.producer } };

    ghost invariant = { λ sender. length (sent sender.producer) + known_free sender.producer ≡ sender.room };
}

impl Sender {
    /// Sends an item. It waits for nobody.
    pub fn send(&mut self, item: Released)
        requires { length self.old.items < self.old.room }
        ensures sent { self.new.items ≡ self.old.items ++ item ∷ [] }
        ensures room { self.new.room ≡ self.old.room }
    {
        self.producer.push_reserved(item);
    }
}

/// The end of a ring that writes. Contracts see for how many items it is, and what was put.
#[derive(Drop)]
pub struct Writer {
    consumer: Consumer<Released>,
    room: u32,
    put: Vec<Released>,
}

impl Model for Writer {
    ghost use Rattle.std.specs.Prelude.{◌≤◌, vec_len, vec_capacity};
    ghost use Rattle.ftc_stream.specs.Flow.{Flow};

    ghost Value = { Flow };

    ghost view = { λ writer. record { room = writer.room; items = writer.put.items } };

    ghost invariant = { λ writer. (vec_len writer.put ≤ writer.room) × (writer.room ≤ vec_capacity writer.put) };
}

/// Puts an item, and adds it to the list.
fn put_next<D: Desk>(
    list: &mut Vec<Released>,
    item: Released,
    alloc: Global,
    capture: &Capture,
    out: &str,
    desk: &mut D,
    taps: &mut Taps,
) -> Result<(), PutFault>
    requires { vec_len list.old < vec_capacity list.old }
    ensures capacity { vec_capacity list.new ≡ vec_capacity list.old }
    ensures added { OnOk result (list.new.items ≡ list.old.items ++ item ∷ []) }
    ensures unchanged { OnErr result (list.new ≡ list.old) }
    ensures grown { D.tells desk.old →
        OnOk result (HasGrownBy out.now (records capture.now (item ∷ [])) (D.file desk.old) (D.file desk.new)) }
    ensures told { OnOk result (
        AreLeft (writable capture.now (item ∷ [])) (⟦<Taps as Seen>⟧.faces taps.old)
        (⟦<Taps as Seen>⟧.faces taps.new)) }
    ensures part { D.tells desk.old →
        OnErr result (HasGrownInPart out.now capture.now [] (D.file desk.old) (D.file desk.new)) }
    ensures told_in_part { OnErr result (
        AreLeftInPart [] (⟦<Taps as Seen>⟧.faces taps.old) (⟦<Taps as Seen>⟧.faces taps.new)) }
    ensures untold { IsErrOf result PutFault.Failed →
        AreLeft [] (⟦<Taps as Seen>⟧.faces taps.old) (⟦<Taps as Seen>⟧.faces taps.new) }
    ensures others { D.tells desk.old → SameButAt out.now (D.file desk.old) (D.file desk.new) }
    ensures served { HasServed D.tells D.sound D.faults (IsErrOf result PutFault.Failed) desk.old desk.new }
    ensures absent { D.sound desk.old → IsErrOf result PutFault.Failed →
        (D.file desk.old out.now ≡ None) × (out.now ≢ codes "-") }
{
    put(alloc, &item, capture, out, desk, taps)?;
    list.push_reserved(item);
    Ok(())
}

impl Writer {
    ghost use Rattle.ftc_stream.specs.Flow.{since};

    /// Takes items that the ring shows, puts each, and adds it to the list, while there is room. It answers
    /// how many were put. Where it is refused, the item whose `put` was refused is the last one taken, and
    /// is not in the list.
    pub fn write_some<D: Desk>(
        &mut self,
        alloc: Global,
        capture: &Capture,
        out: &str,
        desk: &mut D,
        taps: &mut Taps,
    ) -> Result<u32, PutFault>
        ensures room { self.new.room ≡ self.old.room }
        ensures within { length self.new.items ≤ self.new.room }
        ensures added { self.new.items ≡ self.old.items ++ since self.old self.new }
        ensures counted { IfOk result (λ count. length (since self.old self.new) ≡ count) }
        ensures grown { D.tells desk.old → OnOk result (
            HasGrownBy out.now (records capture.now (since self.old self.new)) (D.file desk.old) (D.file desk.new)) }
        ensures told { OnOk result (AreLeft (writable capture.now (since self.old self.new))
            (⟦<Taps as Seen>⟧.faces taps.old) (⟦<Taps as Seen>⟧.faces taps.new)) }
        ensures part { D.tells desk.old → OnErr result (
            HasGrownInPart out.now capture.now (since self.old self.new) (D.file desk.old) (D.file desk.new)) }
        ensures told_in_part { OnErr result (AreLeftInPart (writable capture.now (since self.old self.new))
            (⟦<Taps as Seen>⟧.faces taps.old) (⟦<Taps as Seen>⟧.faces taps.new)) }
        ensures untold { IsErrOf result PutFault.Failed → AreLeft (writable capture.now (since self.old self.new))
            (⟦<Taps as Seen>⟧.faces taps.old) (⟦<Taps as Seen>⟧.faces taps.new) }
        ensures others { D.tells desk.old → SameButAt out.now (D.file desk.old) (D.file desk.new) }
        ensures served { HasServed D.tells D.sound D.faults (IsErrOf result PutFault.Failed) desk.old desk.new }
        ensures absent { D.tells desk.old → D.sound desk.old → IsErrOf result PutFault.Failed →
            (D.file desk.old out.now ≡ None) × (out.now ≢ codes "-") }
    {
        let mut count = 0u32;
        while self.put.len() < self.room as usize {
            let Ok(item) = self.consumer.pop() else {
                break;
            };
            put_next(&mut self.put, item, alloc, capture, out, desk, taps)?;
            count += 1;
        }
        Ok(count)
    }

    /// What was put. It takes no memory.
    pub fn into_put(self) -> ReleasedList
        ensures { result ≡ self.items }
    {
        ReleasedList::from_vec(self.put)
    }
}

/// A ring for so many items, none of them sent yet. It takes the memory for all that the writer will put.
pub fn ring(alloc: Global, room: u32) -> Result<(Sender, Writer), NoMemory>
    ensures sender { IfOk result (λ ends. (ends.0.room ≡ room) × (ends.0.items ≡ [])) }
    ensures writer { IfOk result (λ ends. (ends.1.room ≡ room) × (ends.1.items ≡ [])) }
{
    let mut put = Vec::new(alloc);
    put.reserve(room as usize)?;
    let (producer, consumer) = RingBuffer::new(alloc, room as usize)?;
    Ok((
        Sender { producer, room },
        Writer {
            consumer,
            room,
            put,
        },
    ))
}
