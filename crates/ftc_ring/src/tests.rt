ghost use Rattle.std.specs.Prelude.{◌≡◌};

use crate::Ring;
use ftc_base::{ServerId, ServerSet};
use std::process::Abort;
use std::test::Fail;

/// The server of that number, which is below 16.
fn server(rt: &impl Abort, number: u8) -> ServerId
    ensures { result ≡ number }
{
    ServerId::new(number).expect(rt, "a server")
}

fn ring(rt: &impl Abort, servers: u8, failures: u8) -> Ring
    ensures { result ≡ record { servers = servers; failures = failures } }
{
    Ring::new(servers, failures).expect(rt, "a ring")
}

#[test]
fn a_ring_has_more_servers_than_failures(rt: HostRuntime) {
    let made = [(1, 0), (16, 15), (0, 0), (17, 0), (4, 4)].map(|(servers, failures)| Ring::new(
        servers, failures,
    ).is_some());
    assert_eq!(rt; made, [true, true, false, false, false]);
    let four = ring(&rt, 4, 2);
    assert_eq!(rt; [four.servers(), four.failures()], [4, 2]);
}

#[test]
fn groups_go_round_the_ring(rt: HostRuntime) {
    let four = ring(&rt, 4, 2);
    let (zero, one, three) = (server(&rt, 0), server(&rt, 1), server(&rt, 3));
    assert_eq!(rt;
        [
            four.tail(three),
            four.tail(zero),
            four.next(three),
            four.previous(zero)
        ],
        [one, server(&rt, 2), zero, three]
    );
    assert_eq!(rt;
        [four.belongs(one, three), four.belongs(three, zero)],
        [true, false]
    );
}

#[test]
fn the_smallest_group_without_a_live_member_is_gone(rt: HostRuntime) {
    let three = ring(&rt, 3, 1);
    let (zero, one, two) = (server(&rt, 0), server(&rt, 1), server(&rt, 2));
    let down = ServerSet::new().with(1);
    let both = down.with(2);
    assert_eq!(rt;
        [three.gone(down), three.gone(both), three.gone(both.with(0))],
        [None, Some(one), Some(zero)]
    );
    assert_eq!(rt;
        [three.first_live(one, down), three.first_live(one, both)],
        [Some(two), None]
    );
}

#[test]
fn the_nearest_live_servers_give_the_lists(rt: HostRuntime) {
    let four = ring(&rt, 4, 2);
    let (zero, two, three) = (server(&rt, 0), server(&rt, 2), server(&rt, 3));
    let down = ServerSet::new().with(1).with(2);
    assert_eq!(rt;
        [
            four.live_before(two, down),
            four.live_after(two, down),
            four.live_after(three, down.with(0)),
        ],
        [Some(zero), Some(three), None]
    );
    assert!(rt; four.gone(down).is_none() && down.has(2));
    assert_eq!(rt;
        [four.source(two, zero, down), four.source(two, two, down)],
        [zero, three]
    );
}
