ghost use Rattle.std.specs.Prelude.{◌≡◌, IfOk, length};

use crate::stores::value_text;
use crate::{out_of, print, report};
use ftc_base::limits::MOST_RECORDS;
use ftc_base::{Bytes, Items, Lines, NoMemory, Refuse, Released, ReleasedList, ServerId, Value};
use ftc_journal::{Journal, read};
use ftc_machine::replay;
use ftc_mbox::{ChainSpec, Rule};
use ftc_pcap::{Capture, Packet, Packets};
use ftc_protocol::{Fate, Fates, ring_of};
use ftc_ring::Ring;
use ftc_script::{Script, accepted, read_script};
use ftc_serial::{NotWaiting, Serial};
use std::alloc::Global;
use std::test::Fail;

/// UDP datagrams without content: from 10.0.0.5 and from 10.0.0.6.
const DATAGRAMS: [[u8; 42]; 2] = [
    [
        2, 0, 0, 0, 0, 1, 2, 0, 0, 0, 0, 2, 8, 0, 0x45, 0, 0, 28, 0, 1, 0, 0, 64, 17, 0x46, 0x91,
        10, 0, 0, 5, 198, 51, 100, 7, 0x13, 0x89, 0, 53, 0, 8, 0xb7, 0xe0,
    ],
    [
        2, 0, 0, 0, 0, 1, 2, 0, 0, 0, 0, 2, 8, 0, 0x45, 0, 0, 28, 0, 1, 0, 0, 64, 17, 0x46, 0x90,
        10, 0, 0, 6, 198, 51, 100, 7, 0x13, 0x89, 0, 53, 0, 8, 0xb7, 0xdf,
    ],
];

fn bytes_of(alloc: Global, text: &[u8]) -> Result<Bytes, NoMemory> {
    let mut bytes = Bytes::new(alloc);
    bytes.append(text)?;
    Ok(bytes)
}

/// Adds a packet of 42 bytes.
fn add(packets: &mut Packets, alloc: Global, datagram: &[u8; 42]) -> Result<(), NoMemory> {
    if packets.len() >= MOST_RECORDS {
        return Err(NoMemory);
    }
    let mut bytes = Bytes::new(alloc);
    bytes.append(datagram)?;
    packets.push(Packet {
        seconds: 1,
        fraction: 0,
        original: 42,
        bytes,
    })
}

fn packets_of(alloc: Global) -> Result<Packets, NoMemory> {
    let mut packets = Packets::new(alloc);
    for datagram in &DATAGRAMS {
        add(&mut packets, alloc, datagram)?;
    }
    Ok(packets)
}

/// A monitor of eight groups, and a middlebox that passes everything, each with a replica or none.
fn chain_of(alloc: Global, is_replicated: bool) -> Result<ChainSpec, NoMemory> {
    let mut rules = Items::new(alloc);
    rules.push(Rule::Monitor { groups: 8 })?;
    rules.push(Rule::Pass)?;
    if is_replicated {
        Ok(ChainSpec::new(1, 4, rules))
    } else {
        Ok(ChainSpec::new(0, 4, rules))
    }
}

fn fates_of(alloc: Global, fates: &[Fate]) -> Result<Fates, NoMemory> {
    let mut list = Fates::new(alloc);
    for fate in fates {
        list.push(*fate)?;
    }
    Ok(list)
}

fn taps_of(alloc: Global, texts: &[&str]) -> Result<Lines, NoMemory> {
    let mut taps = Lines::new(alloc);
    for text in texts {
        taps.push(bytes_of(alloc, text.as_bytes())?)?;
    }
    Ok(taps)
}

/// The serial chain after both packets visited the monitor, and the first of them the middlebox behind it, which
/// released it.
fn visited(alloc: Global) -> Result<Serial, Fail> {
    let mut serial = Serial::new(alloc, &chain_of(alloc, false)?, &packets_of(alloc)?)?;
    for (server, packet) in [(0, 0), (0, 1), (1, 0)] {
        if let Some(server) = ServerId::new(server) {
            is_made(serial.visit(server, packet))?;
        }
    }
    is_made(serial.release(0))?;
    Ok(serial)
}

/// A step has to be made.
fn is_made(answer: Result<(), Refuse<NotWaiting>>) -> Result<(), Fail> {
    match answer {
        Ok(()) => Ok(()),
        Err(_) => Err(Fail::new("the step may be made")),
    }
}

/// The report of these fates and taps over that chain.
fn printed(alloc: Global, fates: &[Fate], taps: &[&str]) -> Result<Bytes, Fail> {
    let (fates, taps) = (fates_of(alloc, fates)?, taps_of(alloc, taps)?);
    Ok(print(alloc, &fates, &visited(alloc)?, &taps)?)
}

#[test]
fn each_line_is_in_its_place(rt: HostRuntime) -> Result<(), Fail> {
    let fates = [
        Fate::Released,
        Fate::Filtered {
            server: ServerId::new(1).expect(&rt, "a server"),
        },
        Fate::Lost { event: 12 },
        Fate::Inside,
        Fate::Lost { event: 0 },
    ];
    let text = printed(rt.alloc(), &fates, &["packets 3 bytes 126", "list 3"])?;
    // 10 + 0 + 0 + 5 is 7 modulo 8, and with a 6 it is 0.
    let expected = b"ftc-report 1\npackets 5\nreleased 1\nfiltered 1\nlost 2\nfate 0 released\n\
        fate 1 filtered 1\nfate 2 lost 12\nfate 3 inside\nfate 4 lost 0\nstore 0 2\n\
        key 6d0000 0000000000000001\nkey 6d0007 0000000000000001\nstore 1 0\n\
        tap packets 3 bytes 126\ntap list 3\n";
    assert_eq!(rt; text.as_slice(), expected.as_slice());
    Ok(())
}

#[test]
fn an_empty_value_is_a_dash(rt: HostRuntime) -> Result<(), Fail> {
    let alloc = rt.alloc();
    assert_eq!(rt; value_text(alloc, &Value::empty())?.as_str(), "-");
    let value = Value::new(&[0x0a, 0xff, 0]).expect(&rt, "three bytes");
    assert_eq!(rt; value_text(alloc, &value)?.as_str(), "0aff00");
    Ok(())
}

/// Server 0 crashes behind its visit of packet 0 and comes back without it. Packet 1 goes through.
const CRASH: &[u8] = b"ftc-journal 2
enter 0
visit 0 0 63
crash 0
recover 0 0:0
pull 0
pull 1
enter 1
visit 0 1 63
pass 0 1
take 0 1
apply 1 1 0 1
visit 1 1 63
pass 1 1
release 1
take 1 1
carry 1
";

/// The script of a text, for that ring and so many packets.
fn script_of(alloc: Global, text: &str, ring: &Ring, packets: u32) -> Result<Script, Fail>
    ensures ring { IfOk result (λ script. script.ring ≡ ring.now) }
    ensures packets { IfOk result (λ script. script.packets ≡ packets) }
{
    let _servers = ring.servers();
    accepted();
    match read_script(alloc, text.as_bytes(), ring, packets) {
        Ok(script) => Ok(script),
        Err(_) => Err(Fail::new("the script is right")),
    }
}

/// The report of the run with that journal, without taps.
fn reported(
    alloc: Global,
    spec: &ChainSpec,
    packets: &Packets,
    script: &Script,
    journal: &Journal,
) -> Result<Bytes, Fail>
    requires ring { script.now.ring ≡ record { servers = length spec.now.rules; failures = spec.now.failures } }
    requires packets { script.now.packets ≡ length packets.now }
{
    match replay(alloc, spec, packets, script, journal) {
        Ok(machine) => {
            let taps = Lines::new(alloc);
            Ok(report(alloc, spec, packets, script, machine.journal(), &taps)?)
        }
        Err(_) => Err(Fail::new("the journal is a run")),
    }
}

/// The report of the run with the crash, for that chain and those packets.
fn reported_crash(alloc: Global, spec: &ChainSpec, packets: &Packets) -> Result<Bytes, Fail> {
    let ring = ring_of(spec);
    let lines = "at 1 crash 0\nat 1 recover 0\n";
    let script = script_of(alloc, lines, &ring, packets.len() as u32)?;
    match read(alloc, CRASH) {
        Ok(journal) => reported(alloc, spec, packets, &script, &journal),
        Err(_) => Err(Fail::new("the journal is right")),
    }
}

#[test]
fn an_undone_visit_is_not_reported(rt: HostRuntime) -> Result<(), Fail> {
    let alloc = rt.alloc();
    let text = reported_crash(alloc, &chain_of(alloc, true)?, &packets_of(alloc)?)?;
    // 10 + 0 + 0 + 6 is 0 modulo 8.
    let expected =
        b"ftc-report 1\npackets 2\nreleased 1\nfiltered 0\nlost 1\nfate 0 lost 2\nfate 1 released\n\
        store 0 1\nkey 6d0000 0000000000000001\nstore 1 0\n";
    assert_eq!(rt; text.as_slice(), expected.as_slice());
    Ok(())
}

/// OUT of a big-endian capture of both packets, of which the second was released as two bytes.
fn out_of_second(alloc: Global) -> Result<Bytes, Fail> {
    let capture = Capture {
        header: [7; 24],
        big: true,
        packets: packets_of(alloc)?,
    };
    if capture.packets.len() != 2 {
        return Err(Fail::new("there are two packets"));
    }
    let mut bytes = Bytes::new(alloc);
    bytes.append(&[8, 9])?;
    let mut released = ReleasedList::new(alloc);
    released.push(Released { packet: 1, bytes })?;
    Ok(out_of(alloc, &capture, &released)?)
}

/// The header, and the record with the packet's stamp and length as it was captured.
const OUT_OF_SECOND: [u8; 42] = [
    7, 7, 7, 7, 7, 7, 7, 7, 7, 7, 7, 7, 7, 7, 7, 7, 7, 7, 7, 7, 7, 7, 7, 7, 0, 0, 0, 1, 0, 0, 0, 0,
    0, 0, 0, 2, 0, 0, 0, 42, 8, 9,
];

#[test]
fn released_packets_have_their_own_stamps(rt: HostRuntime) -> Result<(), Fail> {
    let out = out_of_second(rt.alloc())?;
    assert_eq!(rt; out.as_slice(), OUT_OF_SECOND.as_slice());
    Ok(())
}
