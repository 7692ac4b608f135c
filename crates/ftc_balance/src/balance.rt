//! What a balancer asks.

ghost use Rattle.std.specs.Prelude.{◌≡◌, ◌+◌, ◌^◌, ◌<◌, ◌%◌, slice_index, length, ◌==◌};
ghost use Rattle.std.specs.Int.{to_be_bytes, w32};
ghost use Rattle.std.specs.List.{list_any};
ghost use Rattle.ftc_balance.specs.Balance.{client_key, turn_key, turn_in, new_client, from_client, from_backend};
ghost use Rattle.ftc_balance.specs.Balance.{replied, balance_ask};

use crate::rule::BalanceRule;
use ftc_base::{Answer, Answers, Ask, Change, Finish, Key, Value, Verdict, Write, Writes};
use ftc_packet::Flow;

/// The key at which the address of a client's backend stands.
fn client_key(protocol: u8, address: u32, port: u16) -> Key
    ensures { result ≡ client_key protocol address port }
{
    let [a, b, c, d] = address.to_be_bytes();
    let [high, low] = port.to_be_bytes();
    Key::new(&[b'c', protocol, a, b, c, d, high, low]).unwrap()
}

/// The key at which the index of the backend whose turn it is stands.
fn turn_key() -> Key
    ensures { result ≡ turn_key }
{
    Key::new(b"t").unwrap()
}

/// The index of the backend whose turn it is, of so many.
fn turn_in(count: usize, turn: &Answer) -> usize
    ensures same { result ≡ turn_in count turn.now.value }
    ensures within { result < 2 ^ 32 }
{
    let index = turn.as_u32().unwrap_or(0) as usize;
    if index < count { index } else { 0 }
}

/// The backend at an index, and 0 where there is none.
fn backend_at(backends: &[u32], index: usize) -> u32
    ensures { result ≡ slice_index backends.now index }
{
    if index < backends.len() {
        backends[index]
    } else {
        0
    }
}

/// The index behind this one, from the start again behind the last. Without a backend there is no last.
fn index_after(index: usize, count: usize) -> u64
    requires { index < 2 ^ 32 }
    ensures { result ≡ (index + 1) % count }
{
    if count == 0 {
        return (index + 1) as u64;
    }
    ((index + 1) % count) as u64
}

/// An index in 32 bits, the high byte first.
fn index_value(index: u64) -> Value
    ensures { result ≡ to_be_bytes w32 index }
{
    let [_, _, _, _, a, b, c, d] = index.to_be_bytes();
    Value::new(&[a, b, c, d]).unwrap()
}

/// A client without a backend.
fn new_client(rule: &BalanceRule, flow: &Flow, answers: &[Answer]) -> Ask
    ensures { result ≡ new_client rule.now flow.now answers.now }
{
    match answers {
        [] => Ask::Read {
            key: turn_key(),
            change: true,
        },
        [turn, ..] => {
            let backends = rule.backends.as_slice();
            let index = turn_in(backends.len(), turn);
            let backend = backend_at(backends, index);
            let own = client_key(flow.protocol, flow.source, flow.source_port);
            let next = index_after(index, backends.len());
            let mut writes = Writes::new();
            writes.push(Write::put(own, Value::from_u32(backend)));
            writes.push(Write::put(turn_key(), index_value(next)));
            Ask::Finish(Finish {
                writes,
                verdict: Verdict::Forward(Change::Destination {
                    address: backend,
                    port: flow.destination_port,
                }),
            })
        }
    }
}

/// A packet of a client.
fn from_client(rule: &BalanceRule, flow: &Flow, answers: &[Answer]) -> Ask
    ensures { result ≡ from_client rule.now flow.now answers.now }
{
    match answers {
        [] => Ask::Read {
            key: client_key(flow.protocol, flow.source, flow.source_port),
            change: true,
        },
        [known, answers @ ..] => match known.as_u32() {
            Some(backend) => Ask::rewrite(Change::Destination {
                address: backend,
                port: flow.destination_port,
            }),
            None => new_client(rule, flow, answers),
        },
    }
}

/// A packet from a backend's address and the balanced port.
fn from_backend(rule: &BalanceRule, flow: &Flow, answers: &[Answer]) -> Ask
    ensures { result ≡ from_backend rule.now flow.now answers.now }
{
    match answers {
        [] => Ask::Read {
            key: client_key(flow.protocol, flow.destination, flow.destination_port),
            change: false,
        },
        [known, ..] => match known.as_u32() {
            Some(backend) if backend == flow.source => Ask::rewrite(Change::Source {
                address: rule.address,
                port: rule.port,
            }),
            _ => Ask::keep(),
        },
    }
}

fn is_backend(backends: &[u32], address: u32) -> bool
    ensures { result ≡ list_any (λ backend. backend == address) backends.now }
{
    backends.iter().any(|backend| *backend == address)
}

/// What the balancer asks next of a packet of this flow, after these answers. It reads at most two keys:
/// that of the client, and that of the turn.
pub fn ask(rule: &BalanceRule, flow: &Flow, answers: &Answers) -> Ask
    ensures { result ≡ balance_ask rule.now flow.now answers.now.items }
{
    let answers = answers.as_slice();
    if flow.destination == rule.address && flow.destination_port == rule.port {
        from_client(rule, flow, answers)
    } else if is_backend(rule.backends.as_slice(), flow.source) && flow.source_port == rule.port {
        from_backend(rule, flow, answers)
    } else {
        Ask::keep()
    }
}
