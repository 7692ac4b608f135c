use crate::{PortLine, PortLines, PortsCause, ports, ports_text};
use ftc_base::{Bytes, Items, Net, NoMemory, Refuse, ServerId};
use ftc_mbox::{ChainSpec, Rule};
use ftc_nat::NatRule;
use ftc_pcap::{Packet, Packets};
use ftc_serial::{Step, Trace};
use std::alloc::Global;
use std::process::Abort;

/// A UDP datagram without content from 10.0.0.5, port 5001, to 198.51.100.7, port 53.
const FROM_FIVE: [u8; 42] = [
    2, 0, 0, 0, 0, 1, 2, 0, 0, 0, 0, 2, 8, 0, 0x45, 0, 0, 28, 0, 1, 0, 0, 64, 17, 0x46, 0x91, 10,
    0, 0, 5, 198, 51, 100, 7, 0x13, 0x89, 0, 53, 0, 8, 0xb7, 0xe0,
];

/// The same from 10.0.0.6.
const FROM_SIX: [u8; 42] = [
    2, 0, 0, 0, 0, 1, 2, 0, 0, 0, 0, 2, 8, 0, 0x45, 0, 0, 28, 0, 1, 0, 0, 64, 17, 0x46, 0x90, 10,
    0, 0, 6, 198, 51, 100, 7, 0x13, 0x89, 0, 53, 0, 8, 0xb7, 0xdf,
];

/// An answer from there to 203.0.113.5, port 20000.
const ANSWER: [u8; 42] = [
    2, 0, 0, 0, 0, 1, 2, 0, 0, 0, 0, 2, 8, 0, 0x45, 0, 0, 28, 0, 1, 0, 0, 64, 17, 0x14, 0x90, 198,
    51, 100, 7, 203, 0, 113, 5, 0, 53, 0x4e, 0x20, 0, 8, 0x4b, 0x48,
];

/// A TCP segment from 10.0.0.5, port 5001.
const SEGMENT: [u8; 54] = [
    2, 0, 0, 0, 0, 1, 2, 0, 0, 0, 0, 2, 8, 0, 0x45, 0, 0, 40, 0, 1, 0, 0, 64, 6, 0x46, 0x90, 10, 0,
    0, 5, 198, 51, 100, 7, 0x13, 0x89, 0, 53, 0, 0, 0, 1, 0, 0, 0, 0, 0x50, 2, 0x10, 0, 0x57, 0xe4,
    0, 0,
];

/// An ARP frame.
const ARP: [u8; 42] = [
    2, 0, 0, 0, 0, 1, 2, 0, 0, 0, 0, 2, 8, 6, 0, 0, 0, 0, 0, 0, 0, 0, 0, 0, 0, 0, 0, 0, 0, 0, 0, 0,
    0, 0, 0, 0, 0, 0, 0, 0, 0, 0,
];

/// Adds a packet of these bytes, of which there are few.
fn add(
    packets: &mut Packets,
    alloc: Global,
    rt: &impl Abort,
    captured: &[u8],
) -> Result<(), NoMemory> {
    assert!(rt; captured.len() < 100 && packets.len() < 10);
    let mut bytes = Bytes::new(alloc);
    bytes.append(captured)?;
    packets.push(Packet {
        seconds: 1,
        fraction: 0,
        original: 42,
        bytes,
    })
}

/// The packets of these bytes.
fn packets_of(alloc: Global, rt: &impl Abort, all: &[&[u8]]) -> Result<Packets, NoMemory> {
    let mut packets = Packets::new(alloc);
    for captured in all {
        add(&mut packets, alloc, rt, captured)?;
    }
    Ok(packets)
}

/// Two translators: one of 10.0.0.0/8 to 203.0.113.5, and one of that address to 192.0.2.1. A monitor
/// stands behind them.
fn chain_of(alloc: Global) -> Result<ChainSpec, NoMemory> {
    let mut rules = Items::new(alloc);
    rules.push(Rule::Nat(NatRule {
        inside: Net {
            base: 0x0a00_0000,
            length: 8,
        },
        outside: 0xcb00_7105,
        first: 20000,
        last: 20009,
    }))?;
    rules.push(Rule::Nat(NatRule {
        inside: Net {
            base: 0xcb00_7100,
            length: 24,
        },
        outside: 0xc000_0201,
        first: 30000,
        last: 30009,
    }))?;
    rules.push(Rule::Monitor { groups: 8 })?;
    Ok(ChainSpec::new(0, 4, rules))
}

/// Each of so many packets visits the middlebox of a server.
fn visit_all(trace: &mut Trace, server: ServerId, count: u32) -> Result<(), NoMemory> {
    for packet in 0..count {
        trace.push(Step::Visit { server, packet })?;
    }
    Ok(())
}

/// Each of so many packets visits server 0, and then each visits server 1.
fn trace_of(alloc: Global, count: u32) -> Result<Trace, NoMemory> {
    let mut trace = Items::new(alloc);
    visit_all(&mut trace, ServerId::new(0).unwrap(), count)?;
    visit_all(&mut trace, ServerId::new(1).unwrap(), count)?;
    Ok(trace)
}

/// Whether these are the lines, and that is their text.
fn are_lines(
    alloc: Global,
    lines: &PortLines,
    wanted: &[PortLine],
    text: &str,
) -> Result<bool, NoMemory> {
    let spelled = ports_text(alloc, lines)?;
    Ok(lines.as_slice() == wanted && spelled.as_slice() == text.as_bytes())
}

/// A server's table of these packets after this trace has these lines and this text.
fn has_lines(
    rt: &impl Abort,
    alloc: Global,
    packets: &Packets,
    trace: &Trace,
    server: u8,
    wanted: &[PortLine],
    text: &str,
) -> Result<(), NoMemory> {
    let server = ServerId::new(server).expect(rt, "a server");
    let spec = chain_of(alloc)?;
    match ports(alloc, &spec, packets, trace, server) {
        Ok(lines) => assert!(rt; are_lines(alloc, &lines, wanted, text)?),
        Err(_) => panic!(rt; "a table"),
    }
    Ok(())
}

/// A server's table of these packets after this trace is refused for that cause.
fn is_refused(
    rt: &impl Abort,
    alloc: Global,
    packets: &Packets,
    trace: &Trace,
    server: u8,
    cause: PortsCause,
) -> Result<(), NoMemory> {
    let server = ServerId::new(server).expect(rt, "a server");
    let spec = chain_of(alloc)?;
    let refused = ports(alloc, &spec, packets, trace, server).err();
    assert_eq!(rt; refused, Some(Refuse::Bad(cause)));
    Ok(())
}

/// A line of that port.
fn line(outside: u16, protocol: u8, address: u32, port: u16) -> PortLine {
    PortLine {
        outside,
        protocol,
        address,
        port,
    }
}

#[test]
fn the_lines_of_tcp_and_of_udp(rt: HostRuntime) {
    let packets = packets_of(rt.alloc(), &rt, &[&ARP, &SEGMENT, &FROM_FIVE]).expect(&rt, "memory");
    let trace = trace_of(rt.alloc(), 3).expect(&rt, "memory");
    let lines = [
        line(20000, 6, 0x0a00_0005, 5001),
        line(20001, 17, 0x0a00_0005, 5001),
    ];
    let text = "ftc-ports 1\nports 2\nport 20000 tcp 10.0.0.5:5001\nport 20001 udp 10.0.0.5:5001\n";
    has_lines(&rt, rt.alloc(), &packets, &trace, 0, &lines, text).expect(&rt, "memory");
}

#[test]
fn lines_rise_by_their_outside_port(rt: HostRuntime) {
    let all: [&[u8]; 4] = [&FROM_SIX, &FROM_FIVE, &FROM_SIX, &ANSWER];
    let packets = packets_of(rt.alloc(), &rt, &all).expect(&rt, "memory");
    let trace = trace_of(rt.alloc(), 4).expect(&rt, "memory");
    let inner = [
        line(20000, 17, 0x0a00_0006, 5001),
        line(20001, 17, 0x0a00_0005, 5001),
    ];
    let text = "ftc-ports 1\nports 2\nport 20000 udp 10.0.0.6:5001\nport 20001 udp 10.0.0.5:5001\n";
    has_lines(&rt, rt.alloc(), &packets, &trace, 0, &inner, text).expect(&rt, "memory");
    let outer = [
        line(30000, 17, 0xcb00_7105, 20000),
        line(30001, 17, 0xcb00_7105, 20001),
    ];
    let text =
        "ftc-ports 1\nports 2\nport 30000 udp 203.0.113.5:20000\nport 30001 udp 203.0.113.5:20001\n";
    has_lines(&rt, rt.alloc(), &packets, &trace, 1, &outer, text).expect(&rt, "memory");
}

#[test]
fn no_translator_or_no_run(rt: HostRuntime) {
    let packets = packets_of(rt.alloc(), &rt, &[&FROM_FIVE]).expect(&rt, "memory");
    let mut trace = Items::new(rt.alloc());
    let empty = "ftc-ports 1\nports 0\n";
    has_lines(&rt, rt.alloc(), &packets, &trace, 0, &[], empty).expect(&rt, "memory");
    let first = ServerId::new(0).unwrap();
    visit_all(&mut trace, first, 1).expect(&rt, "memory");
    visit_all(&mut trace, first, 1).expect(&rt, "memory");
    are_refused(&rt, rt.alloc(), &packets, &trace).expect(&rt, "memory");
}

/// A step that is not legal the second time, and servers without a translator.
fn are_refused(
    rt: &impl Abort,
    alloc: Global,
    packets: &Packets,
    trace: &Trace,
) -> Result<(), NoMemory> {
    let twice = PortsCause::BadStep { place: 1 };
    is_refused(rt, alloc, packets, trace, 0, twice)?;
    is_refused(rt, alloc, packets, trace, 2, PortsCause::NotNat)?;
    is_refused(rt, alloc, packets, trace, 3, PortsCause::NotNat)
}
