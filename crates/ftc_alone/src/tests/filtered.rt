//! What rides on with the message of a packet that a firewall filters.

use crate::tests::calls::{Call, Came, assert_ran, call_each};
use crate::tests::given::{Frame, monitor_and_firewall};
use std::test::Fail;

/// Server 0 has the monitor, and server 1 the firewall.
const FILTERED: [(Call, Came); 18] = [
    (Call::Enter(0), Came::Is(true)),
    (Call::Visit(63, 0, 0), Came::Is(true)),
    (Call::LookUp(0, 0, Frame::A), Came::Count(Some(1))),
    (Call::LookUp(1, 0, Frame::A), Came::Count(None)),
    // It belongs to no such group, since the ring has no third server.
    (Call::LookUp(0, 2, Frame::A), Came::Nothing),
    (Call::Pass(0, 0), Came::Is(true)),
    (
        Call::See(0),
        Came::Message {
            packet: Some(Frame::A),
            group: Some(0),
            needs: 1,
        },
    ),
    (Call::Take(0, 0), Came::Is(true)),
    (Call::See(0), Came::Nothing),
    (Call::Apply(1, 0, 0, 0), Came::Is(true)),
    (Call::LookUp(1, 0, Frame::A), Came::Count(Some(1))),
    (Call::Visit(63, 1, 0), Came::Is(true)),
    (Call::Pass(1, 0), Came::Is(true)),
    (
        Call::See(1),
        Came::Message {
            packet: None,
            group: Some(1),
            needs: 0,
        },
    ),
    (Call::Take(1, 0), Came::Is(true)),
    (Call::Carry(0), Came::Is(true)),
    (Call::Next, Came::NextNone),
    (Call::LookUp(1, 1, Frame::A), Came::Count(None)),
];

/// The message goes on without the packet and its needs. Behind the last member of the monitor's group it has no log of
/// that any more, and both members have what the packet changed. What the firewall read rides on as a log.
#[test]
fn a_filtered_packet_leaves_its_message(rt: HostRuntime) -> Result<(), Fail> {
    let alloc = rt.alloc();
    let ran = call_each(
        alloc,
        monitor_and_firewall(alloc)?,
        &[Frame::A],
        b"",
        &FILTERED,
    )?;
    let lines =
        b"enter 0\nvisit 0 0 63\npass 0 0\ntake 0 0\napply 1 0 0 0\nvisit 1 0 63\npass 1 0\n\
        take 1 0\ncarry 0\n";
    assert_ran(&rt, &ran, lines);
    Ok(())
}
