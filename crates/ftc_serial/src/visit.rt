//! What one visit reads, writes and decides.

ghost use Rattle.std.specs.Prelude.{◌≡◌, ◌≤◌, ◌<◌, length};
ghost use Rattle.ftc_mbox.specs.Change.{CanEnd, CanFollow, packet_after};
ghost use Rattle.ftc_store.specs.Store.{written};
ghost use Rattle.ftc_serial.specs.Take.{asked, taken, stopped};
ghost use Rattle.ftc_serial.specs.Told.{outcome_of};

use ftc_base::limits::{MOST_READS, MOST_WRITES};
use ftc_base::{Answer, Answers, Ask, Bytes, Finish, Verdict, Writes};
use ftc_mbox::{Rule, ask, change_packet};
use ftc_store::Store;

/// The answers that a rule was given, and how it ended.
#[derive(Debug, Drop)]
pub struct Asked {
    pub answers: Answers,
    pub end: Finish,
}

/// What a visit read, what it writes, and the packet after it, None where it is dropped.
#[derive(Debug, Drop)]
pub struct Told {
    pub answers: Answers,
    pub writes: Writes,
    pub packet: Option<Bytes>,
}

/// How a rule ends that has read as often as it may: a further read drops the packet.
fn stopped(answers: Answers, asked: Ask) -> Asked
    ensures { result ≡ stopped answers.items asked }
{
    match asked {
        Ask::Finish(end) => Asked { answers, end },
        Ask::Read { .. } => Asked {
            answers,
            end: Finish {
                writes: Writes::new(),
                verdict: Verdict::Filter,
            },
        },
    }
}

/// Asks a rule in turn, and answers each read from the store.
fn ask_in_turn(rule: &Rule, packet: &[u8], store: &Store) -> Asked
    ensures same { result ≡ asked rule.now packet.now store.now.content }
    ensures rewrites { CanEnd packet.now result.end.verdict }
{
    let mut answers = Answers::new();
    for _ in 0..MOST_READS {
        match ask(rule, packet, &answers) {
            Ask::Read { key, .. } => {
                let value = store.get(&key);
                answers.push(Answer { key, value });
            }
            Ask::Finish(end) => return Asked { answers, end },
        }
    }
    let last = ask(rule, packet, &answers);
    stopped(answers, last)
}

/// The packet after a verdict, None where it is dropped.
fn packet_after(packet: Bytes, verdict: &Verdict) -> Option<Bytes>
    requires { CanEnd packet verdict.now }
    ensures { result ≡ packet_after packet verdict.now }
{
    match verdict {
        Verdict::Forward(change) => {
            let mut buffer = packet.into_vec();
            change_packet(buffer.as_mut_slice(), change);
            Some(Bytes::from_vec(buffer))
        }
        Verdict::Filter => None,
    }
}

/// What the visit of a packet at a middlebox of this rule does, over a store that it leaves as it is.
pub fn take(rule: &Rule, packet: Bytes, store: &Store) -> Told
    ensures { outcome_of result ≡ taken rule.now packet store.now.content }
{
    let asked = ask_in_turn(rule, packet.as_slice(), store);
    let after = packet_after(packet, &asked.end.verdict);
    Told {
        answers: asked.answers,
        writes: asked.end.writes,
        packet: after,
    }
}

/// A packet goes through a middlebox: what it writes is in the store, and the answer is the packet after
/// it, None where it is dropped.
pub fn visit(rule: &Rule, packet: Bytes, store: &mut Store) -> Option<Bytes>
    requires { MOST_WRITES ≤ store.old.spare }
    ensures packet { result ≡ (taken rule.now packet store.old.content).packet }
    ensures content { store.new.content ≡ written (taken rule.now packet store.old.content).writes store.old.content }
    ensures partitions { store.new.partitions ≡ store.old.partitions }
{
    let told = take(rule, packet, store);
    store.apply(&told.writes);
    told.packet
}
