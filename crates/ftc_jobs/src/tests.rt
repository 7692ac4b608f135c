ghost use Rattle.std.specs.Prelude.{◌≡◌, ◌<◌, ℕ, None, [], IfOk};
ghost use Rattle.ftc_txn.specs.Slots.{slot_at};

use crate::{all_jobs, first_job, free_visit, is_legal, other_job};
use ftc_base::{Bytes, NoMemory, PacketNo, ServerId, WorkerId};
use ftc_journal::Job;
use ftc_link::Link;
use ftc_mbox::Rule;
use ftc_message::{Logs, Message, Needs};
use ftc_network::Network;
use ftc_ring::Ring;
use ftc_script::{Script, read_script};
use ftc_server::{Server, Work};
use ftc_vector::Commits;
use ftc_visits::MadeVisits;
use std::alloc::Global;
use std::process::Abort;
use std::test::Fail;

/// A message with nothing but that packet.
fn message(alloc: Global, origin: PacketNo, packet: Option<Bytes>) -> Result<Message, NoMemory>
    ensures logs { IfOk result (λ message. message.logs ≡ []) }
    ensures needs { IfOk result (λ message. message.needs ≡ []) }
{
    let commits = Commits::new(alloc)?;
    Ok(Message {
        origin,
        packet,
        logs: Logs::new(alloc),
        needs: Needs::new(alloc),
        commits,
    })
}

/// The first of two servers, which holds that packet, if any. Its slots are idle.
fn first_of_two(alloc: Global, ring: &Ring, packet: Option<Bytes>) -> Result<Server, NoMemory>
    requires { 0 < ring.now.servers }
    ensures { IfOk result (λ server. (worker : ℕ) → slot_at server.head.slots worker ≡ None) }
{
    let mut first = Server::new(alloc, ring, ServerId::new(0).unwrap(), &Rule::Pass, 1)?;
    if packet.is_some() {
        first.make_room(0)?;
        first.take(message(alloc, 0, packet)?, false);
    }
    Ok(first)
}

/// A slot of a server whose slots are idle begins the visit of a packet, where that may be visited.
fn begin(server: &mut Server, packet: PacketNo)
    requires { (worker : ℕ) → slot_at server.old.head.slots worker ≡ None }
{
    if server.work_of(packet) == Some(Work::Visit) {
        server.begin(WorkerId::new(0).unwrap(), packet);
    }
}

/// Two servers, the first of which is that one, and whose link may have a gap.
fn network_with(alloc: Global, first: Server, gap: bool) -> Result<Network, NoMemory> {
    let ring = Ring::new(2, 1).unwrap();
    let (one, two) = (ServerId::new(0).unwrap(), ServerId::new(1).unwrap());
    let second = Server::new(alloc, &ring, two, &Rule::Pass, 1)?;
    let mut servers = Vec::new(alloc);
    servers.push(Some(first))?;
    servers.push(Some(second))?;
    let mut onward = Link::new(alloc, one);
    onward.set_gap(gap);
    let mut links = Vec::new(alloc);
    links.push(onward)?;
    links.push(Link::new(alloc, two))?;
    Ok(Network {
        ring,
        partitions: 1,
        servers,
        links,
        entered: 0,
        done: 0,
        propagates: 0,
        visits: MadeVisits::new(alloc),
    })
}

/// Two servers, the first of which holds that packet, if any, and whose link may have a gap.
fn pair(alloc: Global, packet: Option<Bytes>, gap: bool) -> Result<Network, NoMemory> {
    let ring = Ring::new(2, 1).unwrap();
    let first = first_of_two(alloc, &ring, packet)?;
    network_with(alloc, first, gap)
}

/// The same where a slot of the first server runs the packet, which it holds.
fn running_pair(alloc: Global, packet: Bytes) -> Result<Network, NoMemory> {
    let ring = Ring::new(2, 1).unwrap();
    let mut first = first_of_two(alloc, &ring, Some(packet))?;
    begin(&mut first, 0);
    network_with(alloc, first, false)
}

/// The script of a text, for two servers and so many packets.
fn script_of(alloc: Global, text: &[u8], packets: u32) -> Result<Script, Fail> {
    let ring = Ring::new(2, 1).unwrap();
    match read_script(alloc, text, &ring, packets) {
        Ok(script) => Ok(script),
        Err(_) => Err(Fail::new("refused")),
    }
}

/// A network, a script, and how many packets there are.
#[derive(Clone, Copy)]
struct Given<'a> {
    network: &'a Network,
    script: &'a Script,
    packets: u32,
}

/// That is the first job.
fn is_first(rt: &impl Abort, given: Given<'_>, job: Option<Job>) {
    let first = first_job(given.network, given.script, given.packets);
    assert_eq!(rt; first, job);
}

/// These are the first visit that no slot runs, and the first job that is no visit.
fn are_beside(rt: &impl Abort, given: Given<'_>, visit: Option<Job>, other: Option<Job>) {
    let free = free_visit(given.network, given.script);
    let found = (free, other_job(given.network, given.script, given.packets));
    assert_eq!(rt; found, (visit, other));
}

/// Each of the jobs is legal, or isn't.
fn are_legal(rt: &impl Abort, given: Given<'_>, jobs: &[(Job, bool)]) {
    for (job, legal) in jobs {
        let found = is_legal(given.network, given.script, given.packets, job);
        assert_eq!(rt; found, *legal, "{job:?}");
    }
}

/// These are all the jobs that no slot runs.
fn are_all(
    rt: &impl Abort,
    alloc: Global,
    given: Given<'_>,
    expected: &[Job],
) -> Result<(), NoMemory> {
    let jobs = all_jobs(alloc, given.network, given.script, given.packets)?;
    assert!(rt; jobs.as_slice() == expected);
    Ok(())
}

/// The visit of packet 0 at server 0.
fn first_visit() -> Job {
    let server = ServerId::new(0).unwrap();
    Job::Visit { server, packet: 0 }
}

/// The entry of a packet.
fn enter(packet: PacketNo) -> Job {
    Job::Enter { packet }
}

#[test]
fn a_packet_enters_and_then_nothing_is_left(rt: HostRuntime) -> Result<(), Fail> {
    let mut network = pair(rt.alloc(), None, false)?;
    let script = script_of(rt.alloc(), b"", 1)?;
    let given = Given {
        network: &network,
        script: &script,
        packets: 1,
    };
    is_first(&rt, given, Some(enter(0)));
    are_beside(&rt, given, None, Some(enter(0)));
    are_legal(&rt, given, &[(enter(0), true), (enter(1), false)]);
    network.entered = 1;
    let given = Given {
        network: &network,
        script: &script,
        packets: 1,
    };
    is_first(&rt, given, None);
    Ok(())
}

#[test]
fn a_held_packet_is_visited_before_others_enter(rt: HostRuntime) -> Result<(), Fail> {
    let mut network = pair(rt.alloc(), Some(Bytes::new(rt.alloc())), false)?;
    network.entered = 1;
    let script = script_of(rt.alloc(), b"lose 0 0", 2)?;
    let given = Given {
        network: &network,
        script: &script,
        packets: 2,
    };
    let server = ServerId::new(0).unwrap();
    let lose = Job::Lose { server, origin: 0 };
    is_first(&rt, given, Some(first_visit()));
    are_beside(&rt, given, Some(first_visit()), Some(enter(1)));
    let jobs = [(first_visit(), true), (lose, false), (enter(1), true)];
    are_legal(&rt, given, &jobs);
    Ok(())
}

/// The script that has server 1 crash and recover.
fn crash_script(alloc: Global) -> Result<Script, Fail> {
    script_of(alloc, b"at 0 crash 1\nat 0 recover 1\n", 1)
}

#[test]
fn a_line_of_the_script_comes_first(rt: HostRuntime) -> Result<(), Fail> {
    let network = pair(rt.alloc(), None, false)?;
    let script = crash_script(rt.alloc())?;
    let given = Given {
        network: &network,
        script: &script,
        packets: 1,
    };
    let server = ServerId::new(1).unwrap();
    is_first(&rt, given, Some(Job::Crash { server }));
    are_legal(&rt, given, &[(Job::Recover { server }, false)]);
    Ok(())
}

#[test]
fn pulls_come_before_lines_of_the_script(rt: HostRuntime) -> Result<(), Fail> {
    let torn = pair(rt.alloc(), None, true)?;
    let script = crash_script(rt.alloc())?;
    let given = Given {
        network: &torn,
        script: &script,
        packets: 1,
    };
    let (link, server) = (ServerId::new(0).unwrap(), ServerId::new(1).unwrap());
    is_first(&rt, given, Some(Job::Pull { link }));
    are_legal(&rt, given, &[(Job::Crash { server }, true)]);
    Ok(())
}

#[test]
fn a_visit_that_no_slot_runs_is_listed(rt: HostRuntime) -> Result<(), Fail> {
    let mut idle = pair(rt.alloc(), Some(Bytes::new(rt.alloc())), false)?;
    idle.entered = 1;
    let script = script_of(rt.alloc(), b"", 1)?;
    let given = Given {
        network: &idle,
        script: &script,
        packets: 1,
    };
    are_all(&rt, rt.alloc(), given, &[first_visit()])?;
    Ok(())
}

#[test]
fn a_visit_that_a_slot_runs_is_left_out(rt: HostRuntime) -> Result<(), Fail> {
    let mut running = running_pair(rt.alloc(), Bytes::new(rt.alloc()))?;
    running.entered = 1;
    let script = script_of(rt.alloc(), b"", 1)?;
    let given = Given {
        network: &running,
        script: &script,
        packets: 1,
    };
    are_all(&rt, rt.alloc(), given, &[])?;
    are_beside(&rt, given, None, None);
    are_legal(&rt, given, &[(first_visit(), true)]);
    Ok(())
}
