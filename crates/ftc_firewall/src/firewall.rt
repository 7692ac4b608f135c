//! What a firewall asks.

ghost use Rattle.std.specs.Prelude.{◌≡◌};
ghost use Rattle.ftc_firewall.specs.Firewall.{source_is_smaller, connection_key, is_of_protocol, matches, is_allowed};
ghost use Rattle.ftc_firewall.specs.Firewall.{first_packet, firewall_ask};

use crate::rule::{FireLine, FirewallRule};
use ftc_base::{Answers, Ask, Change, Finish, Key, Value, Verdict, Write, Writes};
use ftc_packet::Flow;

/// Whether the source is the smaller end, by address and then port.
fn source_is_smaller(flow: &Flow) -> bool
    ensures { result ≡ source_is_smaller flow.now }
{
    flow.source < flow.destination
        || (flow.source == flow.destination && flow.source_port <= flow.destination_port)
}

/// The key of a flow's connection. Both directions have the same.
fn connection_key(flow: &Flow) -> Key
    ensures { result ≡ connection_key flow.now }
{
    let [a, b, c, d] = flow.source.to_be_bytes();
    let [e, f] = flow.source_port.to_be_bytes();
    let [g, h, i, j] = flow.destination.to_be_bytes();
    let [k, l] = flow.destination_port.to_be_bytes();
    let protocol = flow.protocol;
    let bytes = if source_is_smaller(flow) {
        [b'w', protocol, a, b, c, d, e, f, g, h, i, j, k, l]
    } else {
        [b'w', protocol, g, h, i, j, k, l, a, b, c, d, e, f]
    };
    Key::new(&bytes).unwrap()
}

fn is_of_protocol(wanted: Option<u8>, protocol: u8) -> bool
    ensures { result ≡ is_of_protocol wanted protocol }
{
    match wanted {
        None => true,
        Some(wanted) => wanted == protocol,
    }
}

fn matches(line: &FireLine, flow: &Flow) -> bool
    ensures { result ≡ matches line.now flow.now }
{
    is_of_protocol(line.protocol, flow.protocol)
        && line.source.contains(flow.source)
        && line.destination.contains(flow.destination)
        && line.low <= flow.destination_port
        && flow.destination_port <= line.high
}

/// Whether the first line that matches allows the flow.
fn is_allowed(lines: &[FireLine], flow: &Flow) -> bool
    ensures { result ≡ is_allowed lines.now flow.now }
{
    for line in lines {
        if matches(line, flow) {
            return line.allow;
        }
    }
    false
}

/// The first packet of a connection.
fn first_packet(rule: &FirewallRule, flow: &Flow) -> Ask
    ensures { result ≡ first_packet rule.now flow.now }
{
    if !is_allowed(rule.lines.as_slice(), flow) {
        return Ask::filter();
    }
    let mut writes = Writes::new();
    writes.push(Write::put(connection_key(flow), Value::empty()));
    Ask::Finish(Finish {
        writes,
        verdict: Verdict::Forward(Change::Keep),
    })
}

/// What the firewall asks next of a packet of this flow, after these answers. It reads one key, that of
/// the flow's connection.
pub fn ask(rule: &FirewallRule, flow: &Flow, answers: &Answers) -> Ask
    ensures { result ≡ firewall_ask rule.now flow.now answers.now.items }
{
    match answers.as_slice() {
        [] => Ask::Read {
            key: connection_key(flow),
            change: true,
        },
        [connection, ..] => match connection.value {
            Some(_) => Ask::keep(),
            None => first_packet(rule, flow),
        },
    }
}
