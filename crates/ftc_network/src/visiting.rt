//! Visits, each made whole as the only one that runs.

ghost use Rattle.std.specs.Prelude.{◌≡◌, ◌≢◌, ◌<◌, ◌+◌, ℕ, Bool, true, Some, None, IfOk, OnErr};
ghost use Rattle.ftc_base.specs.declared.ask.Ask.TheVariants.{Read, Finish as Ends};
ghost use Rattle.ftc_base.specs.declared.limits.TheConstants.{MOST_SLOTS};
ghost use Rattle.ftc_server.specs.declared.server.Server.{Server as AServer};
ghost use Rattle.ftc_server.specs.declared.work.Work.TheVariants.{Visit};
ghost use Rattle.ftc_server.specs.Looks.{work_in, ask_in};
ghost use Rattle.ftc_server.specs.Replicas.{may_rise};
ghost use Rattle.ftc_server.specs.State.{fields_of};
ghost use Rattle.ftc_txn.specs.Slots.{Running, slot_at, wounded_at};
ghost use Rattle.ftc_network.specs.Stand.{AreIdle};
ghost use Rattle.ftc_network.specs.Visiting.{StandsFor, IsUnderWay, VisitsWhole};

use ftc_base::limits::{MOST_READS, MOST_SLOTS};
use ftc_base::{Answers, Ask, Finish, Key, NoMemory, PacketNo, WorkerId};
use ftc_refinement::what_stays;
use ftc_server::{CommitAnswer, Server};

/// The same answers once more.
pub fn copy_answers(answers: &Answers) -> Answers
    ensures { result ≡ answers.now }
{
    Answers::try_from(answers.as_slice()).unwrap()
}

/// A slot begins a visit at a server whose slots are idle. The answer is whether it runs then, as it does.
fn start(server: &mut Server, worker: WorkerId, packet: PacketNo) -> bool
    requires idle { AreIdle server.old }
    requires work { work_in server.old packet ≡ Some Visit }
    requires rise { may_rise server.old.head.vector ≡ true }
    ensures runs { result ≡ true → IsUnderWay server.old server.new worker packet 0 }
    ensures stands { StandsFor server.old server.new }
    ensures others { (other : ℕ) → other ≢ worker → slot_at server.new.head.slots other ≡ None }
{
    what_stays();
    server.begin(worker, packet);
    server.packet_of(worker).is_some()
}

/// The only visit that runs at a server reads the key that its rule asks for.
fn read_asked(server: &mut Server, worker: WorkerId, key: &Key, change: bool)
    requires { ask_in server.old worker ≡ Some (Read key.now change) }
    ensures { (first : AServer) (packet count : ℕ) → IsUnderWay first server.old worker packet count →
        IsUnderWay first server.new worker packet (count + 1) }
{
    what_stays();
    // The contract of this call tells what holds of slots and locks.
    let _ = server.head.store();
    let _ = server.read_asked(worker, key, change);
}

/// A slot gives up what it runs, as the only one that runs something, if it does.
fn give_up(server: &mut Server, worker: WorkerId) -> NoMemory
    ensures stands { StandsFor server.old server.new }
    ensures idle { ((other : ℕ) → other ≢ worker → slot_at server.old.head.slots other ≡ None) → AreIdle server.new }
{
    what_stays();
    server.quit(worker);
    NoMemory
}

/// The only visit that runs at a server is made with this end, which is what its rule asks. The answer is what it read.
fn end(server: &mut Server, worker: WorkerId, finish: &Finish) -> Result<Answers, NoMemory>
    requires asked { ask_in server.old worker ≡ Some (Ends finish.now) }
    requires unwounded { wounded_at server.old.head.slots worker ≡ None }
    requires rise { may_rise server.old.head.vector ≡ true }
    ensures ok { IfOk result (λ answers. (first : AServer) (packet count : ℕ) →
        IsUnderWay first server.old worker packet count → VisitsWhole first server.new worker packet answers.items) }
    ensures stands { OnErr result (StandsFor server.old server.new) }
    ensures idle { OnErr result (((other : ℕ) → other ≢ worker → slot_at server.old.head.slots other ≡ None) →
        AreIdle server.new) }
{
    what_stays();
    let Some(answers) = server.answers(worker) else {
        unreachable!()
    };
    let answers = copy_answers(answers);
    match server.end_visit(worker, finish) {
        CommitAnswer::Done => Ok(answers),
        _ => Err(give_up(server, worker)),
    }
}

/// A slot gives up what it runs, if it runs anything.
fn quit_one(server: &mut Server, worker: WorkerId)
    ensures stands { StandsFor server.old server.new }
    ensures withheld { server.new.buffer.items ≡ server.old.buffer.items }
    ensures gone { slot_at server.new.head.slots worker ≡ None }
    ensures others { (other : ℕ) → other ≢ worker →
        slot_at server.new.head.slots other ≡ slot_at server.old.head.slots other }
    ensures fields { fields_of server.new ≡ record (fields_of server.old) { head = server.new.head } }
    ensures vector { server.new.head.vector ≡ server.old.head.vector }
{
    what_stays();
    // Most slots are idle, and to look is cheaper than to clear.
    if server.answers(worker).is_some() {
        server.quit(worker);
    }
}

/// All slots give up what they run. Only workers' slots run something.
pub fn quit_all(server: &mut Server)
    requires { (worker : ℕ) (running : Running) → slot_at server.old.head.slots worker ≡ Some running →
        worker < MOST_SLOTS }
    ensures stands { StandsFor server.old server.new }
    ensures withheld { server.new.buffer.items ≡ server.old.buffer.items }
    ensures idle { AreIdle server.new }
    ensures fields { fields_of server.new ≡ record (fields_of server.old) { head = server.new.head } }
    ensures vector { server.new.head.vector ≡ server.old.head.vector }
{
    for number in 0..MOST_SLOTS {
        let worker = WorkerId::new(number).unwrap();
        quit_one(server, worker);
    }
}

/// The visit of a packet is made whole. The answer is what it read.
pub fn visit_whole(
    server: &mut Server,
    worker: WorkerId,
    packet: PacketNo,
) -> Result<Answers, NoMemory>
    requires idle { AreIdle server.old }
    requires work { work_in server.old packet ≡ Some Visit }
    requires rise { may_rise server.old.head.vector ≡ true }
    ensures ok { IfOk result (λ answers. VisitsWhole server.old server.new worker packet answers.items) }
    ensures stands { OnErr result (StandsFor server.old server.new) }
    ensures idle { OnErr result (AreIdle server.new) }
{
    what_stays();
    if !start(server, worker, packet) {
        return Err(give_up(server, worker));
    }
    for _ in 0..=MOST_READS {
        let asked = server.asked(worker);
        match &asked {
            Some(Ask::Read { key, change }) => read_asked(server, worker, key, *change),
            Some(Ask::Finish(finish)) => return end(server, worker, finish),
            None => unreachable!(),
        }
    }
    Err(give_up(server, worker))
}
