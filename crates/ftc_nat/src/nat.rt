//! What a translator asks.

ghost use Rattle.std.specs.Prelude.{◌≡◌, ◌≤◌};
ghost use Rattle.ftc_nat.specs.Nat.{nat_ask, outgoing, incoming, unknown, drawing, to_inside};

use crate::keys::{endpoint, inside_key, next_port_key, outside_port_key};
use crate::rule::NatRule;
use ftc_base::{Answer, Answers, Ask, Change, Finish, Value, Verdict, Write, Writes};
use ftc_packet::Flow;

/// A port that is drawn for the flow's inside endpoint.
fn drawing(rule: &NatRule, flow: &Flow, port: u16, answers: &[Answer]) -> Ask
    ensures { result ≡ drawing rule.now flow.now port answers.now }
{
    let reverse = inside_key(flow.protocol, port);
    if answers.is_empty() {
        return Ask::Read {
            key: reverse,
            change: true,
        };
    }
    let own = outside_port_key(flow.protocol, flow.source, flow.source_port);
    let mut writes = Writes::new();
    writes.push(Write::put(own, Value::from_u16(port)));
    writes.push(Write::put(next_port_key(), Value::from_u32(u32::from(port) + 1)));
    writes.push(Write::put(reverse, endpoint(flow.source, flow.source_port)));
    Ask::Finish(Finish {
        writes,
        verdict: Verdict::Forward(Change::Source {
            address: rule.outside,
            port,
        }),
    })
}

/// An endpoint without an outside port.
fn unknown(rule: &NatRule, flow: &Flow, answers: &[Answer]) -> Ask
    ensures { result ≡ unknown rule.now flow.now answers.now }
{
    match answers {
        [] => Ask::Read {
            key: next_port_key(),
            change: true,
        },
        [next, answers @ ..] => {
            let port = next.as_u32().unwrap_or(u32::from(rule.first));
            if port > u32::from(rule.last) {
                return Ask::filter();
            }
            drawing(rule, flow, port as u16, answers)
        }
    }
}

/// A packet from inside to outside.
fn outgoing(rule: &NatRule, flow: &Flow, answers: &[Answer]) -> Ask
    ensures { result ≡ outgoing rule.now flow.now answers.now }
{
    match answers {
        [] => Ask::Read {
            key: outside_port_key(flow.protocol, flow.source, flow.source_port),
            change: true,
        },
        [known, answers @ ..] => match known.as_u16() {
            Some(port) => Ask::rewrite(Change::Source {
                address: rule.outside,
                port,
            }),
            None => unknown(rule, flow, answers),
        },
    }
}

/// A packet to the inside endpoint that an answer says.
fn to_inside(inside: &Answer) -> Ask
    ensures { result ≡ to_inside inside.now.value }
{
    let Some(value) = inside.value else {
        return Ask::filter();
    };
    match value.as_slice() {
        [a, b, c, d, high, low] => Ask::rewrite(Change::Destination {
            address: u32::from_be_bytes([*a, *b, *c, *d]),
            port: u16::from_be_bytes([*high, *low]),
        }),
        _ => Ask::filter(),
    }
}

/// A packet to an outside port.
fn incoming(flow: &Flow, answers: &[Answer]) -> Ask
    ensures { result ≡ incoming flow.now answers.now }
{
    match answers {
        [] => Ask::Read {
            key: inside_key(flow.protocol, flow.destination_port),
            change: false,
        },
        [inside, ..] => to_inside(inside),
    }
}

/// What the translator asks next of a packet of this flow, after these answers. It reads at most three
/// keys: those of the flow's inside endpoint, of the next port and of the port that is drawn.
pub fn ask(rule: &NatRule, flow: &Flow, answers: &Answers) -> Ask
    ensures { result ≡ nat_ask rule.now flow.now answers.now.items }
{
    let answers = answers.as_slice();
    if rule.inside.contains(flow.source) && !rule.inside.contains(flow.destination) {
        outgoing(rule, flow, answers)
    } else if flow.destination == rule.outside {
        incoming(flow, answers)
    } else {
        Ask::keep()
    }
}
