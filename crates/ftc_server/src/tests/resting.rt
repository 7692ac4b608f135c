use super::change;
use crate::{HeldMessage, HeldMessages};
use ftc_base::{NoMemory, PacketNo};
use ftc_message::{Logs, Message, Needs};
use ftc_replica::Replica;
use ftc_vector::Commits;
use std::alloc::Global;
use std::test::Fail;

/// A message of that origin is held, where none is: one that lacks a log, or one that is to be sent on.
fn hold(
    held: &mut HeldMessages,
    alloc: Global,
    origin: PacketNo,
    lacks_log: bool,
) -> Result<bool, NoMemory> {
    if held.get(origin).is_some() {
        return Ok(false);
    }
    let mut logs = Logs::new(alloc);
    if lacks_log {
        logs.push(change(6, 1, 1))?;
    }
    let message = Message {
        origin,
        packet: None,
        logs,
        needs: Needs::new(alloc),
        commits: Commits::new(alloc)?,
    };
    held.reserve(1)?;
    held.hold(HeldMessage {
        visited: true,
        by_ring: false,
        message,
    });
    Ok(true)
}

/// The origin of the message at a place.
fn origin_at(held: &HeldMessages, place: usize) -> Option<PacketNo> {
    let held = held.iter().nth(place)?;
    Some(held.message.origin)
}

/// The origin of the first message with work that doesn't rest.
fn first(held: &mut HeldMessages, replicas: &[Option<Replica>]) -> Option<PacketNo> {
    // What is noted of a message has to hold of these replicas.
    held.forget_all();
    let held = held.first_with_work(replicas)?;
    Some(held.message.origin)
}

/// The origin of the message that is taken out.
fn take_out(held: &mut HeldMessages, origin: PacketNo) -> Option<PacketNo> {
    let held = held.take_out(origin)?;
    Some(held.message.origin)
}

#[test]
fn messages_that_rest(rt: HostRuntime) -> Result<(), Fail> {
    let replicas = [Some(Replica::new(rt.alloc(), 4))];
    let mut held = HeldMessages::new(rt.alloc());
    assert_eq!(rt; first(&mut held, &replicas), None);
    for origin in [5, 3, 9] {
        assert!(rt; hold(&mut held, rt.alloc(), origin, false)?);
    }
    assert!(rt; hold(&mut held, rt.alloc(), 7, true)?);
    assert!(rt; !hold(&mut held, rt.alloc(), 3, false)?);
    assert_eq!(rt; first(&mut held, &replicas), Some(5));
    held.rest(5);
    assert_eq!(rt; first(&mut held, &replicas), Some(3));
    for origin in [3, 3, 11] {
        held.rest(origin);
    }
    assert_eq!(rt; first(&mut held, &replicas), Some(9));
    held.rest(9);
    assert_eq!(rt; first(&mut held, &replicas), None);
    for origin in [9, 3, 9, 11, 7] {
        held.rouse(origin);
    }
    assert_eq!(rt; first(&mut held, &replicas), Some(3));
    held.rouse(5);
    assert_eq!(rt; first(&mut held, &replicas), Some(5));
    Ok(())
}

#[test]
fn messages_out_of_the_middle(rt: HostRuntime) -> Result<(), Fail> {
    let replicas = [Some(Replica::new(rt.alloc(), 4))];
    let mut held = HeldMessages::new(rt.alloc());
    for origin in [5, 3, 7, 9, 4] {
        assert!(rt; hold(&mut held, rt.alloc(), origin, origin == 7)?);
    }
    held.rest(5);
    held.rest(9);
    assert_eq!(rt; take_out(&mut held, 3), Some(3));
    assert_eq!(rt; take_out(&mut held, 3), None);
    assert_eq!(rt; first(&mut held, &replicas), Some(4));
    assert!(rt; hold(&mut held, rt.alloc(), 3, false)?);
    held.drop_unready(&replicas);
    assert!(rt; held.len() == 4 && held.get(7).is_none());
    for (place, origin) in [5, 9, 4, 3].into_iter().enumerate() {
        assert_eq!(rt; origin_at(&held, place), Some(origin));
        assert!(rt; held.get(origin).is_some());
    }
    assert_eq!(rt; first(&mut held, &replicas), Some(4));
    held.rouse(9);
    assert_eq!(rt; first(&mut held, &replicas), Some(9));
    assert_eq!(rt; take_out(&mut held, 9), Some(9));
    assert_eq!(rt; first(&mut held, &replicas), Some(4));
    Ok(())
}
