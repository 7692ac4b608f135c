use crate::{CountTap, Desk, DeskError, FailingDesk, FileDesk, ListTap, MemoryDesk, Tap};
use ftc_base::{NoMemory, PacketNo, Released};
use std::alloc::Global;
use std::process::Abort;
use std::test::Fail;
use std::{fs, process};

/// A call on a desk.
#[derive(Clone, Copy)]
enum Call {
    Make,
    Append,
    Fetch,
}

/// What came of a call.
#[derive(Clone, Copy, Debug, PartialEq, Eq)]
enum Came {
    /// It was done, and a fetch gave the bytes of its line.
    Done,
    /// A fetch gave other bytes.
    Other,
    Failed,
    NoMemory,
}

/// A line of a table: the call, the file's name, the bytes, and what comes of it.
type Line<'a> = (Call, &'a str, &'a [u8], Came);

/// What comes of a call that gives nothing.
fn outcome(answer: Result<(), DeskError>) -> Came {
    match answer {
        Ok(()) => Came::Done,
        Err(DeskError::Failed) => Came::Failed,
        Err(DeskError::NoMemory) => Came::NoMemory,
    }
}

/// Makes a call.
fn make<D: Desk>(alloc: Global, desk: &mut D, call: Call, name: &str, bytes: &[u8]) -> Came {
    match call {
        Call::Make => outcome(desk.make(alloc, name)),
        Call::Append => outcome(desk.append(alloc, name, bytes)),
        Call::Fetch => match desk.fetch(alloc, name) {
            Ok(found) if found.as_slice() == bytes => Came::Done,
            Ok(_) => Came::Other,
            Err(error) => outcome(Err(error)),
        },
    }
}

/// Makes the calls of a table. None where each goes as it says, and else the place of the first that doesn't.
fn first_wrong<D: Desk>(alloc: Global, desk: &mut D, table: &[Line<'_>]) -> Option<usize> {
    for place in 0..table.len() {
        let (what, name, bytes, wanted) = table[place];
        if make(alloc, desk, what, name, bytes) != wanted {
            return Some(place);
        }
    }
    None
}

/// Makes the calls of a table, and compares what came of each.
fn goes<D: Desk>(rt: &impl Abort, alloc: Global, desk: &mut D, table: &[Line<'_>]) {
    assert_eq!(rt; first_wrong(alloc, desk, table), None);
}

/// A desk with a file `a`.
fn desk_with_a(alloc: Global) -> Result<MemoryDesk, NoMemory> {
    let mut desk = MemoryDesk::new(alloc);
    desk.put("a", b"one")?;
    Ok(desk)
}

const NAMED: [Line<'static>; 11] = [
    (Call::Make, "b", b"", Came::Done),
    (Call::Append, "b", b"tw", Came::Done),
    (Call::Append, "b", b"o", Came::Done),
    (Call::Append, "-", b"shown", Came::Done),
    (Call::Fetch, "a", b"one", Came::Done),
    (Call::Fetch, "b", b"two", Came::Done),
    (Call::Fetch, "-", b"shown", Came::Done),
    (Call::Make, "b", b"", Came::Done),
    (Call::Fetch, "b", b"", Came::Done),
    (Call::Fetch, "c", b"", Came::Failed),
    (Call::Append, "c", b"x", Came::Failed),
];

/// Compares a file of a desk.
fn holds(rt: &impl Abort, desk: &MemoryDesk, name: &str, wanted: Option<&[u8]>) {
    assert_eq!(rt; desk.get(name), wanted);
}

#[test]
fn a_desk_in_memory_keeps_files_by_name(rt: HostRuntime) -> Result<(), Fail> {
    let mut desk = desk_with_a(rt.alloc())?;
    goes(&rt, rt.alloc(), &mut desk, &NAMED);
    holds(&rt, &desk, "b", Some(b""));
    holds(&rt, &desk, "c", None);
    Ok(())
}

/// Of these calls the second and the fifth fail.
const LISTED: [Line<'static>; 7] = [
    (Call::Fetch, "a", b"one", Came::Done),
    (Call::Make, "a", b"", Came::Failed),
    (Call::Fetch, "a", b"one", Came::Done),
    (Call::Append, "a", b"!", Came::Done),
    (Call::Append, "a", b"?", Came::Failed),
    (Call::Append, "a", b"!", Came::Done),
    (Call::Fetch, "a", b"one!!", Came::Done),
];

#[test]
fn the_listed_calls_fail_and_change_nothing(rt: HostRuntime) -> Result<(), Fail> {
    let inner = desk_with_a(rt.alloc())?;
    let mut desk = FailingDesk::new(rt.alloc(), inner, &[1, 4])?;
    goes(&rt, rt.alloc(), &mut desk, &LISTED);
    holds(&rt, desk.inner(), "a", Some(b"one!!"));
    Ok(())
}

/// The calls on a file that is not there yet.
fn calls_on<'a>(name: &'a str) -> [Line<'a>; 7] {
    [
        (Call::Fetch, name, b"", Came::Failed),
        (Call::Make, name, b"", Came::Done),
        (Call::Append, name, b"ab", Came::Done),
        (Call::Append, name, b"c", Came::Done),
        (Call::Fetch, name, b"abc", Came::Done),
        (Call::Make, name, b"", Came::Done),
        (Call::Fetch, name, b"", Came::Done),
    ]
}

#[test]
fn a_real_file_is_made_and_added_to_and_fetched(rt: HostRuntime) -> Result<(), Fail> {
    let id = process::id(rt.process());
    let text = format!(in rt.alloc(); "/tmp/ftc-desk-test-{id}")?;
    let name = text.as_str();
    let mut desk = FileDesk::new(&rt);
    goes(&rt, rt.alloc(), &mut desk, &calls_on(name));
    fs::remove_file(&rt, name)?;
    let gone: [Line<'_>; 1] = [(Call::Append, name, b"d", Came::Failed)];
    goes(&rt, rt.alloc(), &mut desk, &gone);
    Ok(())
}

#[test]
fn standard_output_needs_no_make(rt: HostRuntime) -> Result<(), Fail> {
    let mut desk = FileDesk::new(&rt);
    desk.append(rt.alloc(), "-", b"a line on standard output\n")?;
    Ok(())
}

/// Compares the line of a tap.
fn says<T: Tap>(rt: &impl Abort, alloc: Global, tap: &T, wanted: &[u8]) -> Result<(), NoMemory> {
    let line = tap.line(alloc)?;
    assert_eq!(rt; line.as_slice(), wanted);
    Ok(())
}

/// Tells a tap of two packets.
fn tell_two<T: Tap>(alloc: Global, tap: &mut T) -> Result<(), NoMemory> {
    tap.see(alloc, 4, b"abc")?;
    tap.see(alloc, 2, b"de")?;
    Ok(())
}

/// Compares the lines of a tap before and behind two packets.
fn says_before_and_behind<T: Tap>(
    rt: &impl Abort,
    alloc: Global,
    tap: &mut T,
    before: &[u8],
    behind: &[u8],
) -> Result<(), NoMemory> {
    says(rt, alloc, tap, before)?;
    tell_two(alloc, tap)?;
    says(rt, alloc, tap, behind)
}

#[test]
fn a_count_says_how_many_packets_and_bytes(rt: HostRuntime) -> Result<(), Fail> {
    let mut tap = CountTap::new();
    let (before, behind) = (b"packets 0 bytes 0", b"packets 2 bytes 5");
    says_before_and_behind(&rt, rt.alloc(), &mut tap, before, behind)?;
    Ok(())
}

#[test]
fn a_list_says_how_many_packets(rt: HostRuntime) -> Result<(), Fail> {
    let mut tap = ListTap::new(rt.alloc());
    says_before_and_behind(&rt, rt.alloc(), &mut tap, b"list 0", b"list 2")?;
    Ok(())
}

/// Compares the number and the bytes of a packet.
fn is_item(rt: &impl Abort, item: &Released, packet: PacketNo, bytes: &[u8]) {
    assert_eq!(rt; item.packet, packet);
    assert_eq!(rt; item.bytes.as_slice(), bytes);
}

/// Compares the two packets that a list was told of.
fn was_told(rt: &impl Abort, tap: &ListTap) {
    let [first, second] = tap.list().as_slice() else {
        panic!(rt; "two packets were told");
    };
    is_item(rt, first, 4, b"abc");
    is_item(rt, second, 2, b"");
}

#[test]
fn a_list_tap_keeps_numbers_and_bytes_in_order(rt: HostRuntime) -> Result<(), Fail> {
    let mut tap = ListTap::new(rt.alloc());
    let stays = [
        tap.see(rt.alloc(), 4, b"abc")?,
        tap.see(rt.alloc(), 2, b"")?,
    ];
    assert_eq!(rt; stays, [true, true]);
    was_told(&rt, &tap);
    Ok(())
}
