use crate::{Page, PutFault, Sink, Taps, Writer, put, ring};
use ftc_base::limits::MOST_CAPTURED;
use ftc_base::{Bytes, Items, NoMemory, PacketNo, Refuse, Released};
use ftc_outside::{CountTap, Desk, FailingDesk, ListTap, MemoryDesk, Tap};
use ftc_pcap::{Capture, CaptureFault, read_capture};
use std::alloc::Global;
use std::process::Abort;
use std::test::Fail;

/// A header, and the head of a packet of 42 bytes, all captured, at second 1.
const HEADER: [u8; 24] = [
    0xd4, 0xc3, 0xb2, 0xa1, 2, 0, 4, 0, 0, 0, 0, 0, 0, 0, 0, 0, 0xff, 0xff, 0, 0, 1, 0, 0, 0,
];

const HEAD: [u8; 16] = [1, 0, 0, 0, 0, 0, 0, 0, 42, 0, 0, 0, 42, 0, 0, 0];

/// A UDP datagram without content.
const FRAME: [u8; 42] = [
    2, 0, 0, 0, 0, 1, 2, 0, 0, 0, 0, 2, 8, 0, 0x45, 0, 0, 28, 0, 1, 0, 0, 64, 17, 0x46, 0x91, 10,
    0, 0, 5, 198, 51, 100, 7, 0x13, 0x89, 0, 53, 0, 8, 0xb7, 0xe0,
];

/// A tap that leaves at its second record.
#[derive(Drop)]
struct LeavingTap {
    told: bool,
}

impl Tap for LeavingTap {
    ghost use Rattle.std.specs.Prelude.{None, [], true, false};

    ghost face = { λ tap. record { told = None; line = []; leaves = λ _. tap.told; constant = false } };

    fn see(&mut self, _alloc: Global, _number: PacketNo, _bytes: &[u8]) -> Result<bool, NoMemory> {
        let stays = !self.told;
        self.told = true;
        Ok(stays)
    }

    fn line(&self, alloc: Global) -> Result<Bytes, NoMemory> {
        Ok(Bytes::new(alloc))
    }
}

/// A tap that never gets the memory that it asks for.
#[derive(Drop)]
struct PoorTap;

impl Tap for PoorTap {
    ghost use Rattle.std.specs.Prelude.{None, [], true, false};

    ghost face = { λ tap. record { told = None; line = []; leaves = λ _. false; constant = true } };

    fn see(&mut self, _alloc: Global, _number: PacketNo, _bytes: &[u8]) -> Result<bool, NoMemory> {
        Err(NoMemory)
    }

    fn line(&self, alloc: Global) -> Result<Bytes, NoMemory> {
        Ok(Bytes::new(alloc))
    }
}

/// The text of a capture of so many times the same packet.
fn text_of(alloc: Global, packets: u8) -> Result<Bytes, NoMemory> {
    let mut text = Bytes::new(alloc);
    text.append(&HEADER)?;
    for _ in 0..packets {
        text.append(&HEAD)?;
        text.append(&FRAME)?;
    }
    Ok(text)
}

/// A capture of so many times the same packet.
fn capture_of(alloc: Global, packets: u8) -> Result<Capture, Refuse<CaptureFault>> {
    let text = text_of(alloc, packets)?;
    read_capture(alloc, text.as_slice())
}

fn released(alloc: Global, packet: PacketNo) -> Result<Released, NoMemory> {
    let mut bytes = Bytes::new(alloc);
    bytes.append(&FRAME)?;
    Ok(Released { packet, bytes })
}

/// A desk with a file `out` that has the header.
fn desk_with_out(alloc: Global) -> Result<MemoryDesk, NoMemory> {
    let mut desk = MemoryDesk::new(alloc);
    desk.put("out", &HEADER)?;
    Ok(desk)
}

/// Compares the file `out` with the header and so many records of the packet.
fn has_records(rt: &impl Abort, alloc: Global, desk: &MemoryDesk, records: u8) -> Result<(), Fail> {
    let wanted = text_of(alloc, records)?;
    assert_eq!(rt; desk.get("out"), Some(wanted.as_slice()));
    Ok(())
}

/// The lines of the taps, each with a line feed.
fn lines_of(alloc: Global, taps: &Taps) -> Result<Bytes, NoMemory> {
    let lines = taps.lines(alloc)?;
    let mut text = Bytes::new(alloc);
    for line in lines.as_slice() {
        text.append(line.as_slice())?;
        text.append(b"\n")?;
    }
    Ok(text)
}

/// Compares the lines of the taps.
fn have_lines(rt: &impl Abort, alloc: Global, taps: &Taps, wanted: &str) -> Result<(), Fail> {
    let text = lines_of(alloc, taps)?;
    assert_eq!(rt; text.as_slice(), wanted.as_bytes());
    Ok(())
}

/// Puts the packet of that number.
fn put_packet<D: Desk>(
    alloc: Global,
    packet: PacketNo,
    capture: &Capture,
    desk: &mut D,
    taps: &mut Taps,
) -> Result<(), PutFault> {
    let item = released(alloc, packet)?;
    put(alloc, &item, capture, "out", desk, taps)
}

/// Puts packets one after another, and compares the lines of the taps behind each, and then the file `out`.
fn tells(
    rt: &impl Abort,
    alloc: Global,
    taps: &mut Taps,
    steps: &[(PacketNo, &str)],
) -> Result<(), Fail> {
    let capture = capture_of(alloc, 3)?;
    let mut desk = desk_with_out(alloc)?;
    let mut records = 0u8;
    for (packet, lines) in steps {
        let answer = put_packet(alloc, *packet, &capture, &mut desk, taps);
        assert_eq!(rt; answer, Ok(()));
        have_lines(rt, alloc, taps, *lines)?;
        records = records.saturating_add(1);
    }
    has_records(rt, alloc, &desk, records)
}

#[test]
fn a_record_is_appended_and_told(rt: HostRuntime) -> Result<(), Fail> {
    let alloc = rt.alloc();
    let mut list: Vec<Box<dyn Tap + Send>> = Vec::new(alloc);
    list.push(Box::new(alloc, ListTap::new(alloc))?)?;
    list.push(Box::new(alloc, CountTap::new())?)?;
    let mut taps = Taps::new(list);
    tells(
        &rt,
        alloc,
        &mut taps,
        &[(0, "list 1\npackets 1 bytes 42\n")],
    )
}

#[test]
fn a_tap_leaves_and_the_others_stay(rt: HostRuntime) -> Result<(), Fail> {
    let alloc = rt.alloc();
    let mut list: Vec<Box<dyn Tap + Send>> = Vec::new(alloc);
    list.push(Box::new(alloc, LeavingTap { told: false })?)?;
    list.push(Box::new(alloc, ListTap::new(alloc))?)?;
    list.push(Box::new(alloc, LeavingTap { told: true })?)?;
    list.push(Box::new(alloc, CountTap::new())?)?;
    let mut taps = Taps::new(list);
    let steps = [
        (2, "\nlist 1\npackets 1 bytes 42\n"),
        (0, "list 2\npackets 2 bytes 84\n"),
        (1, "list 3\npackets 3 bytes 126\n"),
    ];
    tells(&rt, alloc, &mut taps, &steps)
}

/// Puts an item that has no record, and compares the file `out` and the line of a list.
fn passes_over(
    rt: &impl Abort,
    alloc: Global,
    taps: &mut Taps,
    item: &Released,
) -> Result<(), Fail> {
    let capture = capture_of(alloc, 2)?;
    let mut desk = desk_with_out(alloc)?;
    let answer = put(alloc, item, &capture, "out", &mut desk, taps);
    assert_eq!(rt; answer, Ok(()));
    has_records(rt, alloc, &desk, 0)?;
    have_lines(rt, alloc, taps, "list 0\n")
}

/// An item of one byte more than a record may have.
fn long_item(alloc: Global) -> Result<Released, Fail> {
    let long = vec![in alloc; 0u8; MOST_CAPTURED + 1]?;
    Ok(Released {
        packet: 1,
        bytes: Bytes::from_vec(long),
    })
}

#[test]
fn items_without_a_record_are_passed_over(rt: HostRuntime) -> Result<(), Fail> {
    let alloc = rt.alloc();
    let mut list: Vec<Box<dyn Tap + Send>> = Vec::new(alloc);
    list.push(Box::new(alloc, ListTap::new(alloc))?)?;
    let mut taps = Taps::new(list);
    passes_over(&rt, alloc, &mut taps, &released(alloc, 2)?)?;
    passes_over(&rt, alloc, &mut taps, &long_item(alloc)?)
}

/// Puts a packet where that is refused, and compares why.
fn is_refused<D: Desk>(
    rt: &impl Abort,
    alloc: Global,
    desk: &mut D,
    taps: &mut Taps,
    wanted: PutFault,
) -> Result<(), Fail> {
    let capture = capture_of(alloc, 1)?;
    let answer = put_packet(alloc, 0, &capture, desk, taps);
    assert_eq!(rt; answer, Err(wanted));
    Ok(())
}

#[test]
fn a_file_that_is_missing_is_told_to_no_tap(rt: HostRuntime) -> Result<(), Fail> {
    let alloc = rt.alloc();
    let mut list: Vec<Box<dyn Tap + Send>> = Vec::new(alloc);
    list.push(Box::new(alloc, ListTap::new(alloc))?)?;
    let mut taps = Taps::new(list);
    let mut empty = MemoryDesk::new(alloc);
    is_refused(&rt, alloc, &mut empty, &mut taps, PutFault::Failed)?;
    assert_eq!(rt; empty.get("out"), None);
    have_lines(&rt, alloc, &taps, "list 0\n")
}

#[test]
fn a_fault_of_the_desk_is_told_to_no_tap(rt: HostRuntime) -> Result<(), Fail> {
    let alloc = rt.alloc();
    let mut list: Vec<Box<dyn Tap + Send>> = Vec::new(alloc);
    list.push(Box::new(alloc, ListTap::new(alloc))?)?;
    let mut taps = Taps::new(list);
    let mut failing = FailingDesk::new(alloc, desk_with_out(alloc)?, &[0])?;
    is_refused(&rt, alloc, &mut failing, &mut taps, PutFault::Failed)?;
    has_records(&rt, alloc, failing.inner(), 0)?;
    have_lines(&rt, alloc, &taps, "list 0\n")
}

#[test]
fn a_tap_without_memory_ends_the_telling(rt: HostRuntime) -> Result<(), Fail> {
    let alloc = rt.alloc();
    let mut list: Vec<Box<dyn Tap + Send>> = Vec::new(alloc);
    list.push(Box::new(alloc, LeavingTap { told: true })?)?;
    list.push(Box::new(alloc, ListTap::new(alloc))?)?;
    list.push(Box::new(alloc, PoorTap)?)?;
    list.push(Box::new(alloc, CountTap::new())?)?;
    let mut taps = Taps::new(list);
    let mut desk = desk_with_out(alloc)?;
    is_refused(&rt, alloc, &mut desk, &mut taps, PutFault::NoMemory)?;
    has_records(&rt, alloc, &desk, 1)?;
    have_lines(&rt, alloc, &taps, "list 1\n\npackets 0 bytes 0\n")
}

/// Writes what the writer's ring shows of a capture of three packets, and compares what is answered.
fn writes<D: Desk>(
    rt: &impl Abort,
    alloc: Global,
    writer: &mut Writer,
    desk: &mut D,
    taps: &mut Taps,
    wanted: Result<u32, PutFault>,
) -> Result<(), Fail> {
    let capture = capture_of(alloc, 3)?;
    let answer = writer.write_some(alloc, &capture, "out", desk, taps);
    assert_eq!(rt; answer, wanted);
    Ok(())
}

/// The numbers of the packets that were put.
fn numbers_of(alloc: Global, writer: Writer) -> Result<Items<PacketNo>, NoMemory> {
    let put = writer.into_put();
    let mut numbers = Items::new(alloc);
    for item in put.as_slice() {
        numbers.push(item.packet)?;
    }
    Ok(numbers)
}

/// Compares these numbers.
fn has_put(
    rt: &impl Abort,
    alloc: Global,
    writer: Writer,
    wanted: &[PacketNo],
) -> Result<(), Fail> {
    let numbers = numbers_of(alloc, writer)?;
    assert_eq!(rt; numbers.as_slice(), wanted);
    Ok(())
}

#[test]
fn what_is_sent_is_put_in_order(rt: HostRuntime) -> Result<(), Fail> {
    let alloc = rt.alloc();
    let mut desk = desk_with_out(alloc)?;
    let mut taps = Taps::new(Vec::new(alloc));
    let (mut sender, mut writer) = ring(alloc, 3)?;
    writes(&rt, alloc, &mut writer, &mut desk, &mut taps, Ok(0))?;
    sender.send(released(alloc, 2)?);
    sender.send(released(alloc, 0)?);
    writes(&rt, alloc, &mut writer, &mut desk, &mut taps, Ok(2))?;
    sender.send(released(alloc, 1)?);
    writes(&rt, alloc, &mut writer, &mut desk, &mut taps, Ok(1))?;
    has_put(&rt, alloc, writer, &[2, 0, 1])?;
    has_records(&rt, alloc, &desk, 3)
}

/// A ring for three items, and as many sent; the end that writes.
fn three_sent(alloc: Global) -> Result<Writer, NoMemory> {
    let (mut sender, writer) = ring(alloc, 3)?;
    sender.send(released(alloc, 0)?);
    sender.send(released(alloc, 1)?);
    sender.send(released(alloc, 2)?);
    Ok(writer)
}

#[test]
fn the_item_of_a_refused_put_is_not_listed(rt: HostRuntime) -> Result<(), Fail> {
    let alloc = rt.alloc();
    let mut list: Vec<Box<dyn Tap + Send>> = Vec::new(alloc);
    list.push(Box::new(alloc, ListTap::new(alloc))?)?;
    let mut taps = Taps::new(list);
    let mut desk = FailingDesk::new(alloc, desk_with_out(alloc)?, &[1])?;
    let mut writer = three_sent(alloc)?;
    let wanted = Err(PutFault::Failed);
    writes(&rt, alloc, &mut writer, &mut desk, &mut taps, wanted)?;
    has_put(&rt, alloc, writer, &[0])?;
    has_records(&rt, alloc, desk.inner(), 1)?;
    have_lines(&rt, alloc, &taps, "list 1\n")
}

#[test]
fn a_ring_for_nothing_writes_nothing(rt: HostRuntime) -> Result<(), Fail> {
    let alloc = rt.alloc();
    let mut desk = desk_with_out(alloc)?;
    let mut taps = Taps::new(Vec::new(alloc));
    let (_sender, mut writer) = ring(alloc, 0)?;
    writes(&rt, alloc, &mut writer, &mut desk, &mut taps, Ok(0))?;
    has_records(&rt, alloc, &desk, 0)
}

/// Writes until a call writes nothing.
fn write_all<S: Sink>(sink: &mut S) -> Result<u32, PutFault> {
    let first = sink.write_some()?;
    let then = sink.write_some()?;
    Ok(first.saturating_add(then))
}

/// Writes a page of what the writer's ring shows.
fn write_page<D: Desk>(
    alloc: Global,
    writer: Writer,
    capture: &Capture,
    desk: &mut D,
    taps: &mut Taps,
) -> Result<u32, PutFault> {
    let mut page = Page {
        alloc,
        writer,
        capture,
        out: "out",
        desk,
        taps,
    };
    write_all(&mut page)
}

/// A ring for two items, and as many sent; the end that writes.
fn two_sent(alloc: Global) -> Result<Writer, NoMemory> {
    let (mut sender, writer) = ring(alloc, 2)?;
    sender.send(released(alloc, 1)?);
    sender.send(released(alloc, 0)?);
    Ok(writer)
}

#[test]
fn a_page_is_written_as_any_sink(rt: HostRuntime) -> Result<(), Fail> {
    let alloc = rt.alloc();
    let mut list: Vec<Box<dyn Tap + Send>> = Vec::new(alloc);
    list.push(Box::new(alloc, CountTap::new())?)?;
    let mut taps = Taps::new(list);
    let mut desk = desk_with_out(alloc)?;
    let capture = capture_of(alloc, 2)?;
    let written = write_page(alloc, two_sent(alloc)?, &capture, &mut desk, &mut taps);
    assert_eq!(rt; written, Ok(2));
    has_records(&rt, alloc, &desk, 2)?;
    have_lines(&rt, alloc, &taps, "packets 2 bytes 84\n")
}
