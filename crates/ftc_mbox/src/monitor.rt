//! What a monitor asks.

ghost use Rattle.std.specs.Prelude.{◌≡◌};
ghost use Rattle.ftc_mbox.specs.Monitor.{group_of, group_key, next_count, monitor_ask};

use ftc_base::{Answer, Ask, Change, Finish, Key, Value, Verdict, Write, Writes};
use ftc_packet::Flow;

/// The group of a flow, of so many. Without groups it is the sum itself.
fn group_of(groups: u16, flow: &Flow) -> u16
    ensures { result ≡ group_of groups flow.now }
{
    let [a, b, c, d] = flow.source.to_be_bytes();
    let sum = u16::from(a) + u16::from(b) + u16::from(c) + u16::from(d);
    if groups == 0 { sum } else { sum % groups }
}

/// The key of a group.
fn group_key(group: u16) -> Key
    ensures { result ≡ group_key group }
{
    let [high, low] = group.to_be_bytes();
    Key::new(&[b'm', high, low]).unwrap()
}

/// What a monitor asks next of a flow's packet, after these answers.
pub fn ask(groups: u16, flow: &Flow, answers: &[Answer]) -> Ask
    ensures { result ≡ monitor_ask groups flow.now answers.now }
{
    let key = group_key(group_of(groups, flow));
    match answers {
        [] => Ask::Read { key, change: true },
        [answer, ..] => {
            let count = answer.as_u64().unwrap_or(0);
            let mut writes = Writes::new();
            writes.push(Write::put(key, Value::from_u64(count.saturating_add(1))));
            Ask::Finish(Finish {
                writes,
                verdict: Verdict::Forward(Change::Keep),
            })
        }
    }
}
