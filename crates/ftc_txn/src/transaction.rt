//! One packet transaction.

ghost use Rattle.std.specs.Prelude.{◌≡◌, ◌<◌, Some, length};
ghost use Rattle.ftc_txn.specs.Slots.{begun, restarted, answered, IsTurn};

use crate::turn::Turn;
use ftc_base::limits::MOST_READS;
use ftc_base::{Answer, Answers, Key, PacketNo, Value, WorkerId};
use std::marker::Model;

/// A transaction that runs for a packet. It has read these answers, in order. Where an older one took
/// a partition from it, that one's worker wounded it, and it has to begin again.
#[derive(Debug, Drop)]
pub(crate) struct Transaction {
    packet: PacketNo,
    age: u64,
    answers: Answers,
    wounded: Option<WorkerId>,
}

impl Model for Transaction {
    ghost use Rattle.ftc_txn.specs.Slots.{Running, running_code};

    ghost Value = { Running };

    ghost coded = { running_code };

    ghost view = { λ transaction. record {
      packet = transaction.packet;
      age = transaction.age;
      answers = transaction.answers.items;
      wounded = transaction.wounded;
    } };
}

impl Transaction {
    /// A transaction without answers.
    pub(crate) fn new(packet: PacketNo, age: u64) -> Transaction
        ensures { result ≡ begun packet age }
    {
        Transaction {
            packet,
            age,
            answers: Answers::new(),
            wounded: None,
        }
    }

    pub(crate) fn packet(&self) -> PacketNo
        ensures { result ≡ self.now.packet }
    {
        self.packet
    }

    pub(crate) fn age(&self) -> u64
        ensures { result ≡ self.now.age }
    {
        self.age
    }

    pub(crate) fn answers(&self) -> &Answers
        ensures { result.now.items ≡ self.now.answers }
    {
        &self.answers
    }

    pub(crate) fn wounded(&self) -> Option<WorkerId>
        ensures { result ≡ self.now.wounded }
    {
        self.wounded
    }

    /// How its slot stands.
    pub(crate) fn turn(&self) -> Turn
        ensures { IsTurn (Some self.now) result }
    {
        match self.wounded {
            Some(by) => Turn::Wounded { by },
            None => Turn::Unwounded { age: self.age },
        }
    }

    /// It begins again with its age.
    pub(crate) fn restart(&mut self)
        ensures { self.new ≡ restarted self.old }
    {
        self.answers.clear();
        self.wounded = None;
    }

    /// It has one more answer.
    pub(crate) fn add(&mut self, key: &Key, value: &Option<Value>)
        requires { length self.old.answers < MOST_READS }
        ensures { self.new ≡ answered self.old (record { key = key.now; value = value.now }) }
    {
        self.answers.push(Answer {
            key: *key,
            value: *value,
        });
    }

    /// That worker took a partition from it.
    pub(crate) fn wound(&mut self, by: WorkerId)
        ensures { self.new ≡ record self.old { wounded = Some by } }
    {
        self.wounded = Some(by);
    }
}
