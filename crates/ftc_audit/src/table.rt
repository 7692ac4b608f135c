//! The port table of a translator.

ghost use Rattle.std.specs.Prelude.{◌≡◌, IfOk, slice_get};
ghost use Rattle.std.specs.List.{filter_map};
ghost use Rattle.std.specs.List.Sorted.{IsPermutation, IsNonDecreasingBy};
ghost use Rattle.ftc_base.specs.Refused.{IfBad};
ghost use Rattle.ftc_serial.specs.Packets.{bytes_of_packets};
ghost use Rattle.ftc_audit.specs.Stored.{line_in, is_nat};
ghost use Rattle.ftc_audit.specs.Table.{IsTableOf, IsCause, AreApart, AreNamed};

use crate::captured::are_of_bytes;
use crate::cause::PortsCause;
use crate::line::{PortLine, PortLines};
use ftc_base::{Items, NoMemory, Refuse, ServerId};
use ftc_mbox::{ChainSpec, Rule, Rules};
use ftc_pcap::Packets;
use ftc_serial::{BadStep, Serial, Trace};
use ftc_store::Pair;
use std::alloc::{AllocError, Global};

/// Whether the middlebox of that server is a translator.
fn is_nat(rules: &Rules, server: ServerId) -> bool
    ensures { result ≡ is_nat (slice_get rules.now server) }
{
    match rules.as_slice().get(usize::from(server.number())) {
        Some(Rule::Nat(_)) => true,
        _ => false,
    }
}

/// The line of an inside endpoint's pair, None where it is another pair.
fn line_in(pair: &Pair) -> Option<PortLine>
    ensures { result ≡ line_in pair.now }
{
    let [kind, protocol, a, b, c, d, high, low] = pair.key.as_slice() else {
        return None;
    };
    let [outside_high, outside_low] = pair.value.as_slice() else {
        return None;
    };
    if *kind != b'f' {
        return None;
    }
    Some(PortLine {
        outside: u16::from_be_bytes([*outside_high, *outside_low]),
        protocol: *protocol,
        address: u32::from_be_bytes([*a, *b, *c, *d]),
        port: u16::from_be_bytes([*high, *low]),
    })
}

/// The lines of some pairs, in the order of the pairs.
fn lines_in(alloc: Global, pairs: &[Pair]) -> Result<Vec<PortLine>, AllocError>
    ensures { IfOk result (λ lines. lines.items ≡ filter_map line_in pairs.now) }
{
    pairs.iter().filter_map(|pair| line_in(pair)).collect(alloc)
}

/// The lines of some pairs, by rising outside port.
fn table_of(alloc: Global, pairs: &[Pair]) -> Result<PortLines, NoMemory>
    ensures moved { IfOk result (IsPermutation (filter_map line_in pairs.now)) }
    ensures sorted { IfOk result (IsNonDecreasingBy (λ line. line.outside)) }
{
    let mut lines = lines_in(alloc, pairs)?;
    lines.sort_by_key(|line| line.outside)?;
    Ok(Items::from_vec(lines))
}

/// The outside ports that a translator gave in the serial run of a trace, and to whom. The cause of a
/// refusal is that the middlebox of the server is no translator, or else that the trace is no run.
pub fn ports(
    alloc: Global,
    spec: &ChainSpec,
    packets: &Packets,
    trace: &Trace,
    server: ServerId,
) -> Result<PortLines, Refuse<PortsCause>>
    ensures table { IfOk result
        (λ lines. IsTableOf spec.now.rules (bytes_of_packets packets.now) trace.now server lines) }
    ensures apart { IfOk result AreApart }
    ensures named { IfOk result AreNamed }
    ensures bad { IfBad result (IsCause spec.now.rules (bytes_of_packets packets.now) trace.now server) }
{
    if !is_nat(spec.rules(), server) {
        return Err(Refuse::Bad(PortsCause::NotNat));
    }
    are_of_bytes(packets);
    let serial = match Serial::run(alloc, spec, packets, trace) {
        Ok(serial) => serial,
        Err(Refuse::Bad(BadStep { place })) => {
            return Err(Refuse::Bad(PortsCause::BadStep { place }));
        }
        Err(Refuse::NoMemory) => return Err(Refuse::NoMemory),
    };
    let pairs = serial.store(server).list(alloc)?;
    let lines = table_of(alloc, pairs.as_slice())?;
    Ok(lines)
}
