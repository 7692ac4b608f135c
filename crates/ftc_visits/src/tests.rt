ghost use Rattle.std.specs.Prelude.{◌≡◌, ◌<◌};

use crate::{MadeVisit, MadeVisits, made};
use ftc_base::limits::{MOST_PARTITIONS, MOST_SERVERS};
use ftc_base::{Answer, Answers, Key, NoMemory, PacketNo, ServerId, Value};
use ftc_journal::{VisitName, VisitNames};
use ftc_mbox::Rule;
use ftc_ring::Ring;
use ftc_server::Server;
use ftc_vector::Vector;
use std::alloc::Global;
use std::test::Fail;

/// The server of that number.
fn id(number: u8) -> ServerId
    requires { number < MOST_SERVERS }
    ensures { result ≡ number }
{
    ServerId::new(number).unwrap()
}

/// The key with that one byte.
fn key(byte: u8) -> Key {
    Key::new(&[byte]).unwrap()
}

/// The answers to reads of keys with one byte each, where the store has these values.
fn answers(found: &[(u8, Option<Value>)]) -> Answers {
    let mut answers = Answers::new();
    for (byte, value) in found {
        let _ = answers.try_push(Answer {
            key: key(*byte),
            value: *value,
        });
    }
    answers
}

/// The vector that has a number in one partition.
fn vector(partition: u8, number: u64) -> Vector
    requires { partition < MOST_PARTITIONS }
{
    let mut vector = Vector::zero();
    vector.set(partition, number);
    vector
}

/// The visit of a packet that read nothing.
fn plain(server: u8, packet: PacketNo) -> MadeVisit
    requires { server < MOST_SERVERS }
{
    made(&Answers::new(), 4, id(server), packet, &Vector::zero())
}

/// The visit of a packet that read partition 1, whose number was 1 behind it.
fn reader(server: u8, packet: PacketNo) -> MadeVisit
    requires { server < MOST_SERVERS }
{
    made(&answers(&[(1, None)]), 4, id(server), packet, &vector(1, 1))
}

fn add(visits: &mut MadeVisits, visit: MadeVisit) -> Result<(), NoMemory> {
    visits.reserve(1)?;
    visits.add(visit);
    Ok(())
}

/// Packet 5 read at server 1 and then visited server 2, packet 6 read at server 0 alone, and packet 7 read nothing at
/// server 1.
fn some_visits(alloc: Global) -> Result<MadeVisits, NoMemory> {
    let mut visits = MadeVisits::new(alloc);
    add(&mut visits, reader(1, 5))?;
    add(&mut visits, reader(0, 6))?;
    add(&mut visits, plain(1, 7))?;
    add(&mut visits, plain(2, 5))?;
    Ok(visits)
}

fn name(server: u8, packet: PacketNo) -> VisitName
    requires { server < MOST_SERVERS }
{
    VisitName {
        server: id(server),
        packet,
    }
}

/// The names of the undone visits where servers 0 and 2 of three are next to the one that is replaced, and server 2 has
/// no visit of another's.
fn undone(alloc: Global, visits: &MadeVisits) -> Result<VisitNames, NoMemory> {
    let ring = Ring::new(3, 1).unwrap();
    let following = Server::new(alloc, &ring, id(2), &Rule::Pass, 4)?;
    visits.undone(alloc, id(0), &following)
}

#[test]
fn each_key_has_a_mark(rt: HostRuntime) {
    let visit = made(
        &answers(&[(1, None), (6, None)]),
        4,
        id(3),
        9,
        &vector(2, 8),
    );
    let marks = visit
        .needed
        .as_slice()
        .iter()
        .map(|mark| (mark.partition, mark.number));
    assert!(rt; marks.eq([(1, 0), (2, 8)]));
}

#[test]
fn what_is_lacked_is_undone_with_what_is_behind_it(rt: HostRuntime) -> Result<(), Fail> {
    let visits = some_visits(rt.alloc())?;
    let names = undone(rt.alloc(), &visits)?;
    assert_eq!(rt; names.as_slice(), [name(1, 5), name(2, 5)].as_slice());
    Ok(())
}

#[test]
fn the_others_stay_in_their_order(rt: HostRuntime) -> Result<(), Fail> {
    let mut visits = some_visits(rt.alloc())?;
    let names = undone(rt.alloc(), &visits)?;
    visits.drop_undone(&names);
    assert!(rt; visits.len() == 2 && visits.at(0).packet == 6 && visits.at(1).packet == 7);
    Ok(())
}
