//! A visit worked out beforehand: how a rule ends it, kept beside what it was asked with.

ghost use Rattle.std.specs.Prelude.{◌≡◌, ◌↔◌, IsTrue, IsNone, IfSome, IfOk};

use crate::asking::ask;
use crate::rule::Rule;
use ftc_balance::BalanceRule;
use ftc_base::{Answers, Ask, Bytes, Finish, NoMemory};
use ftc_firewall::FirewallRule;
use std::alloc::Global;
use std::marker::Model;

/// How a rule ends the visit of a packet, kept with the rule, the packet and the answers of its reads.
#[derive(Debug, Drop)]
pub struct Plan {
    rule: Rule,
    packet: Bytes,
    answers: Answers,
    finish: Finish,
}

impl Model for Plan {
    ghost use Rattle.ftc_mbox.specs.Plan.{Planned, IsPlan};

    ghost Value = { Planned };

    ghost view = { λ plan. record {
      rule = plan.rule;
      packet = plan.packet;
      answers = plan.answers.items;
      finish = plan.finish;
    } };

    ghost invariant = { λ plan. IsPlan (record {
      rule = plan.rule;
      packet = plan.packet;
      answers = plan.answers.items;
      finish = plan.finish;
    }) };
}

/// Whether two rules of a firewall are the same.
fn same_firewall(one: &FirewallRule, other: &FirewallRule) -> bool
    ensures { IsTrue result ↔ (one.now ≡ other.now) }
{
    one.lines.as_slice() == other.lines.as_slice()
}

/// Whether two rules of a balancer are the same.
fn same_balance(one: &BalanceRule, other: &BalanceRule) -> bool
    ensures { IsTrue result ↔ (one.now ≡ other.now) }
{
    one.address == other.address
        && one.port == other.port
        && one.backends.as_slice() == other.backends.as_slice()
}

/// Whether two rules are the same.
fn same_rule(one: &Rule, other: &Rule) -> bool
    ensures { IsTrue result ↔ (one.now ≡ other.now) }
{
    match (one, other) {
        (Rule::Pass, Rule::Pass) => true,
        (Rule::Monitor { groups }, Rule::Monitor { groups: others }) => *groups == *others,
        (Rule::Nat(rule), Rule::Nat(other)) => *rule == *other,
        (Rule::Firewall(rule), Rule::Firewall(other)) => same_firewall(rule, other),
        (Rule::Balance(rule), Rule::Balance(other)) => same_balance(rule, other),
        _ => false,
    }
}

/// Whether two packets have the same bytes.
fn same_packet(one: &[u8], other: &[u8]) -> bool
    ensures { IsTrue result ↔ (one.now ≡ other.now) }
{
    one == other
}

/// Whether two visits read the same.
fn same_answers(one: &Answers, other: &Answers) -> bool
    ensures { IsTrue result ↔ (one.now.items ≡ other.now.items) }
{
    one.as_slice() == other.as_slice()
}

impl Plan {
    ghost use Rattle.ftc_base.specs.declared.ask.Ask.TheVariants.{Finish as Ends};
    ghost use Rattle.ftc_mbox.specs.Ask.{ask};
    ghost use Rattle.ftc_mbox.specs.Plan.{IsPlan, IsPlanOf, IsRead};

    /// How the rule ends the visit of this packet after these answers. There is no plan where the rule
    /// asks for one read more.
    pub fn make(
        alloc: Global,
        rule: &Rule,
        packet: &[u8],
        answers: &Answers,
    ) -> Result<Option<Plan>, NoMemory>
        ensures none { IfOk result (λ made. IsNone made ↔ IsRead (ask rule.now packet.now answers.now.items)) }
        ensures some { IfOk result (λ made. IfSome made (λ plan. IsPlanOf rule.now packet.now answers.now.items plan)) }
        ensures ends { IfOk result (λ made. IfSome made IsPlan) }
    {
        match ask(rule, packet, answers) {
            Ask::Read { .. } => Ok(None),
            Ask::Finish(finish) => {
                let mut bytes = Bytes::new(alloc);
                bytes.append(packet)?;
                Ok(Some(Plan {
                    rule: rule.copy(alloc)?,
                    packet: bytes,
                    answers: answers.clone()?,
                    finish,
                }))
            }
        }
    }

    /// How the visit ends.
    pub fn finish(&self) -> &Finish
        ensures same { result.now ≡ self.now.finish }
        ensures asked { ask self.now.rule self.now.packet self.now.answers ≡ Ends result.now }
    {
        &self.finish
    }

    /// Whether this is the plan of that rule, that packet and those answers.
    pub fn is_of(&self, rule: &Rule, packet: &[u8], answers: &Answers) -> bool
        ensures { IsTrue result ↔ IsPlanOf rule.now packet.now answers.now.items self.now }
    {
        same_packet(self.packet.as_slice(), packet)
            && same_answers(&self.answers, answers)
            && same_rule(&self.rule, rule)
    }
}
