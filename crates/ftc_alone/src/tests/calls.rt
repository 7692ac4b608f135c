//! Calls on a chain as a table, each beside what has to come of it. So a test is data, and its proof carries no chain
//! along from call to call.

use crate::tests::doing::{
    begin, commit, foreign_plan, frame, lines, lists, look, plan_for_c, plan_of, quit, read, reads,
    step, take_seen, told, visit,
};
use crate::tests::given::{Frame, Parts, Wrong};
use ftc_base::{Bytes, Key, NoMemory, PacketNo, Refuse, ServerId, Value, WorkerId};
use ftc_chain::Chain;
use ftc_journal::Job;
use ftc_mbox::{ChainSpec, Plan};
use ftc_message::{Message, Seen};
use ftc_server::{CommitAnswer, ReadAnswer};
use std::alloc::Global;
use std::process::Abort;

/// A plan by which a slot commits.
#[derive(Clone, Copy, Debug)]
pub enum By {
    /// That of the slot.
    Own,
    /// That of a middlebox that passes a packet without bytes.
    Pass,
    /// That for packet C, as if its key had been read.
    OtherPacket,
}

/// A call on a chain. Servers, slots and packets are told by their numbers.
#[derive(Clone, Copy, Debug)]
pub enum Call {
    /// Steps of jobs, with the numbers of their lines in a journal.
    Enter(u32),
    Pass(u8, u32),
    Take(u8, u32),
    Apply(u8, u32, u8, u32),
    Carry(u32),
    Crash(u8),
    Recover(u8),
    /// A slot makes the whole visit at a server of a packet.
    Visit(u8, u8, u32),
    /// A slot begins the visit at a server of a packet.
    Begin(u8, u8, u32),
    /// What a slot runs reads the key of that packet.
    Read(u8, Frame),
    /// A slot commits.
    Commit(u8, By),
    /// A slot gives up what it runs.
    Quit(u8),
    /// The count of a slot's reads is asked for.
    Reads(u8),
    /// The packet that a slot runs is looked at.
    Look(u8),
    /// The oldest message of a link is read from its frame, and taken as it was seen.
    TakeSeen(u8, u32),
    /// Whether the visit at a server of a packet is among the jobs that no slot runs.
    IsListed(u8, u32),
    /// Whether a slot runs that visit.
    IsRunning(u8, u32),
    /// Whether that visit is legal.
    IsLegal(u8, u32),
    /// The first job.
    Next,
    /// Whether an age is left at a server.
    AgesLeft(u8),
    /// The oldest released packet is taken out.
    Drain,
    /// The oldest frame of a link is read.
    See(u8),
    /// The key of that packet is looked up in what a server's store has of a group.
    LookUp(u8, u8, Frame),
}

/// What came of a call.
#[derive(Clone, Copy, Debug, PartialEq, Eq)]
pub enum Came {
    /// Whether it was so, or was made.
    Is(bool),
    Age(Option<u64>),
    /// The last byte of what a read found, which is the count.
    Count(Option<u8>),
    /// An older slot, of that number, is in the way of a read.
    Blocked(u8),
    /// An older slot, of that number, took a partition before a read or a commit.
    Wounded(u8),
    /// The slot runs nothing.
    Idle,
    /// The rule doesn't ask for the key.
    NotAsked,
    /// The visit is made.
    Done,
    /// The rule asks for the key of that packet before a commit.
    Unfinished(Option<Frame>),
    /// There was no memory for a commit.
    NoMemory,
    Reads(Option<usize>),
    /// A packet by its bytes, where there is one.
    Packet(Option<Frame>),
    /// The first job is the visit at a server of a packet, another one, or none.
    NextVisit(u8, u32),
    NextOther,
    NextNone,
    /// A message by the packet in it, the group of its one log, if it has one alone, and how many needs it has.
    Message {
        packet: Option<Frame>,
        group: Option<u8>,
        needs: usize,
    },
    /// There is no such server, slot, key, plan, frame or store.
    Nothing,
    /// The call was refused for want of memory, and yet an event was told.
    ToldBefore,
}

/// Reads the oldest frame of a link, and takes its message as it was seen. False where there is none.
fn see_and_take(
    alloc: Global,
    chain: &mut Chain<'_>,
    link: ServerId,
    origin: PacketNo,
) -> Result<bool, NoMemory> {
    let Some(bytes) = frame(chain, link)? else {
        return Ok(false);
    };
    match Seen::make(alloc, bytes.as_slice()) {
        Ok(seen) => take_seen(chain, link, origin, seen),
        Err(Refuse::NoMemory) => Err(NoMemory),
        Err(Refuse::Bad(_)) => Ok(false),
    }
}

/// The plan by which a slot is to commit.
fn planned(
    alloc: Global,
    chain: &Chain<'_>,
    worker: WorkerId,
    by: By,
) -> Result<Option<Plan>, NoMemory> {
    match by {
        By::Own => plan_of(alloc, chain, worker),
        By::Pass => foreign_plan(alloc),
        By::OtherPacket => plan_for_c(alloc),
    }
}

/// The packet whose key that is.
fn frame_with(key: &Key) -> Option<Frame> {
    if Frame::A.key() == Some(*key) {
        Some(Frame::A)
    } else if Frame::C.key() == Some(*key) {
        Some(Frame::C)
    } else {
        None
    }
}

/// What a commit answers.
fn came_of_commit(answer: &CommitAnswer) -> Came {
    match *answer {
        CommitAnswer::Done => Came::Done,
        CommitAnswer::Wounded { by } => Came::Wounded(by.number()),
        CommitAnswer::Idle => Came::Idle,
        CommitAnswer::Unfinished { key } => Came::Unfinished(frame_with(&key)),
        CommitAnswer::NoMemory => Came::NoMemory,
    }
}

/// A slot commits.
fn commit_by(
    alloc: Global,
    chain: &mut Chain<'_>,
    worker: WorkerId,
    by: By,
) -> Result<Came, NoMemory> {
    match planned(alloc, chain, worker, by)? {
        Some(plan) => Ok(came_of_commit(&commit(chain, worker, &plan))),
        None => Ok(Came::Nothing),
    }
}

/// The count that a store has at a key.
fn count_of(value: &Option<Value>) -> Option<u8> {
    let value = value.as_ref()?;
    value.as_slice().last().copied()
}

/// What a read answers.
fn came_of(answer: &ReadAnswer) -> Came {
    match *answer {
        ReadAnswer::Value(value) => Came::Count(count_of(&value)),
        ReadAnswer::Blocked { holder } => Came::Blocked(holder.number()),
        ReadAnswer::Wounded { by } => Came::Wounded(by.number()),
        ReadAnswer::Idle => Came::Idle,
        ReadAnswer::NotAsked => Came::NotAsked,
    }
}

/// What a slot runs reads a key.
fn read_at(chain: &mut Chain<'_>, worker: WorkerId, key: Option<Key>) -> Came {
    match key {
        Some(key) => came_of(&read(chain, worker, &key)),
        None => Came::Nothing,
    }
}

/// A packet by its bytes.
fn frame_of(bytes: &Option<Bytes>) -> Came {
    match bytes {
        Some(bytes) => Came::Packet(Frame::of(bytes.as_slice())),
        None => Came::Packet(None),
    }
}

/// Takes the oldest released packet out.
fn drain(chain: &mut Chain<'_>) -> Came {
    match chain.drain() {
        Some(released) => Came::Packet(Frame::of(released.bytes.as_slice())),
        None => Came::Packet(None),
    }
}

/// The group of the one log of a message. None where it has none, or several.
fn group_of(message: &Message) -> Option<u8> {
    match message.logs.as_slice() {
        [log] => Some(log.group().number()),
        _ => None,
    }
}

/// What a message has.
fn came_of_message(message: &Message) -> Came {
    let packet = match &message.packet {
        Some(bytes) => Frame::of(bytes.as_slice()),
        None => None,
    };
    Came::Message {
        packet,
        group: group_of(message),
        needs: message.needs.len(),
    }
}

/// Reads the oldest frame of a link.
fn see(alloc: Global, chain: &Chain<'_>, link: ServerId) -> Result<Came, NoMemory> {
    let Some(bytes) = frame(chain, link)? else {
        return Ok(Came::Nothing);
    };
    match Seen::make(alloc, bytes.as_slice()) {
        Ok(seen) => Ok(came_of_message(&seen.message)),
        Err(Refuse::NoMemory) => Err(NoMemory),
        Err(Refuse::Bad(_)) => Ok(Came::Nothing),
    }
}

/// Looks the key of a packet up in what a server has of a group.
fn look_up(chain: &Chain<'_>, server: ServerId, group: u8, of: Frame) -> Came {
    let Some(group) = ServerId::new(group) else {
        return Came::Nothing;
    };
    match (chain.store_of(server, group), of.key()) {
        (Some(store), Some(key)) => Came::Count(count_of(&store.get(&key))),
        _ => Came::Nothing,
    }
}

/// What a job is.
fn came_of_job(job: &Job) -> Came {
    match *job {
        Job::Visit { server, packet } => Came::NextVisit(server.number(), packet),
        _ => Came::NextOther,
    }
}

/// The first job.
fn next(chain: &Chain<'_>) -> Came {
    match chain.next() {
        Some(job) => came_of_job(&job),
        None => Came::NextNone,
    }
}

/// The job whose step a call is.
fn job_of(call: &Call) -> Option<Job> {
    Some(match *call {
        Call::Enter(packet) => Job::Enter { packet },
        Call::Pass(server, origin) => Job::Pass {
            server: ServerId::new(server)?,
            origin,
        },
        Call::Take(link, origin) => Job::Take {
            link: ServerId::new(link)?,
            origin,
        },
        Call::Apply(server, origin, group, packet) => Job::Apply {
            server: ServerId::new(server)?,
            origin,
            group: ServerId::new(group)?,
            packet,
        },
        Call::Carry(origin) => Job::Carry { origin },
        Call::Crash(server) => Job::Crash {
            server: ServerId::new(server)?,
        },
        Call::Recover(server) => Job::Recover {
            server: ServerId::new(server)?,
        },
        _ => return None,
    })
}

/// The slot that a call names.
fn slot_of(call: &Call) -> Option<WorkerId> {
    match *call {
        Call::Visit(slot, _, _) | Call::Begin(slot, _, _) => WorkerId::new(slot),
        Call::Read(slot, _) | Call::Commit(slot, _) => WorkerId::new(slot),
        Call::Quit(slot) | Call::Reads(slot) | Call::Look(slot) => WorkerId::new(slot),
        _ => None,
    }
}

/// The server that a call names, or the link behind it.
fn server_of(call: &Call) -> Option<ServerId> {
    match *call {
        Call::Visit(_, server, _) | Call::Begin(_, server, _) => ServerId::new(server),
        Call::TakeSeen(server, _) | Call::LookUp(server, _, _) => ServerId::new(server),
        Call::IsListed(server, _) | Call::IsRunning(server, _) => ServerId::new(server),
        Call::IsLegal(server, _) => ServerId::new(server),
        Call::AgesLeft(server) | Call::See(server) => ServerId::new(server),
        _ => None,
    }
}

/// Makes or begins a visit.
fn make_visit(
    chain: &mut Chain<'_>,
    slot: WorkerId,
    server: ServerId,
    call: &Call,
) -> Result<Came, NoMemory> {
    match *call {
        Call::Visit(_, _, packet) => Ok(Came::Is(visit(chain, slot, server, packet)?)),
        Call::Begin(_, _, packet) => Ok(Came::Age(begin(chain, slot, server, packet)?)),
        _ => Ok(Came::Nothing),
    }
}

/// Makes a call about what a slot runs.
fn make_in_slot(
    alloc: Global,
    chain: &mut Chain<'_>,
    slot: WorkerId,
    call: &Call,
) -> Result<Came, NoMemory> {
    match *call {
        Call::Read(_, of) => Ok(read_at(chain, slot, of.key())),
        Call::Commit(_, by) => commit_by(alloc, chain, slot, by),
        Call::Quit(_) => {
            quit(chain, slot);
            Ok(Came::Is(true))
        }
        Call::Reads(_) => Ok(Came::Reads(reads(chain, slot))),
        Call::Look(_) => Ok(frame_of(&look(chain, slot)?)),
        _ => Ok(Came::Nothing),
    }
}

/// Makes a call about a server or the link behind it.
fn make_at_server(
    alloc: Global,
    chain: &mut Chain<'_>,
    server: ServerId,
    call: &Call,
) -> Result<Came, NoMemory> {
    match *call {
        Call::TakeSeen(_, origin) => Ok(Came::Is(see_and_take(alloc, chain, server, origin)?)),
        Call::IsListed(_, packet) => Ok(Came::Is(lists(chain, server, packet)?)),
        Call::IsRunning(_, packet) => Ok(Came::Is(chain.is_running(server, packet))),
        Call::IsLegal(_, packet) => Ok(Came::Is(chain.legal(&Job::Visit { server, packet }))),
        Call::AgesLeft(_) => Ok(Came::Is(chain.ages_left(server))),
        Call::See(_) => see(alloc, chain, server),
        Call::LookUp(_, group, of) => Ok(look_up(chain, server, group, of)),
        _ => Ok(Came::Nothing),
    }
}

/// Makes a call about the whole chain.
fn make_beside(chain: &mut Chain<'_>, call: &Call) -> Came {
    match *call {
        Call::Next => next(chain),
        Call::Drain => drain(chain),
        _ => Came::Nothing,
    }
}

/// Makes a call, where what it requires is so.
fn make(alloc: Global, chain: &mut Chain<'_>, call: &Call) -> Result<Came, NoMemory> {
    if let Some(job) = job_of(call) {
        return Ok(Came::Is(step(chain, &job)?));
    }
    match (slot_of(call), server_of(call)) {
        (Some(slot), Some(server)) => make_visit(chain, slot, server, call),
        (Some(slot), None) => make_in_slot(alloc, chain, slot, call),
        (None, Some(server)) => make_at_server(alloc, chain, server, call),
        (None, None) => Ok(make_beside(chain, call)),
    }
}

/// Whether memory was refused.
fn is_refused(came: &Result<Came, NoMemory>) -> bool {
    match came {
        Err(NoMemory) => true,
        Ok(Came::NoMemory) => true,
        Ok(_) => false,
    }
}

/// Makes a call, once more where memory is refused.
fn make_again(alloc: Global, chain: &mut Chain<'_>, call: &Call) -> Result<Came, NoMemory> {
    let before = told(chain);
    let first = make(alloc, chain, call);
    if !is_refused(&first) {
        return first;
    }
    if told(chain) != before {
        return Ok(Came::ToldBefore);
    }
    make(alloc, chain, call)
}

/// Makes calls one after another, up to the first of which something else comes. The answer is its place with what
/// came, and None where each came as it has to.
fn first_other(
    alloc: Global,
    chain: &mut Chain<'_>,
    table: &[(Call, Came)],
) -> Result<Option<(usize, Came)>, NoMemory> {
    let mut place = 0usize;
    for (call, wanted) in table {
        let came = make_again(alloc, chain, call)?;
        if came != *wanted {
            return Ok(Some((place, came)));
        }
        place = place.saturating_add(1);
    }
    Ok(None)
}

/// What came of a table of calls.
#[derive(Drop)]
pub struct Ran {
    /// The first call of which something else came, by its place, with what came.
    pub other: Option<(usize, Came)>,
    /// The events then, behind their first line.
    pub lines: Bytes,
}

/// Makes the calls of a table on a chain of these middleboxes, packets and script before its first event.
pub fn call_each(
    alloc: Global,
    spec: ChainSpec,
    frames: &[Frame],
    script: &[u8],
    table: &[(Call, Came)],
) -> Result<Ran, Refuse<Wrong>> {
    let parts = Parts::new(alloc, spec, frames, script)?;
    let mut chain = parts.chain(alloc)?;
    let other = first_other(alloc, &mut chain, table)?;
    Ok(Ran {
        other,
        lines: lines(alloc, &chain)?,
    })
}

/// Compares what came of a table of calls, and the events.
pub fn assert_ran(rt: &impl Abort, ran: &Ran, lines: &[u8]) {
    assert_eq!(rt; ran.other, None);
    assert_eq!(rt; ran.lines.as_slice(), lines);
}
