//! What the rule of a middlebox asks.

ghost use Rattle.std.specs.Prelude.{◌≡◌};
ghost use Rattle.ftc_mbox.specs.Ask.{ask, ask_of_flow};
ghost use Rattle.ftc_mbox.specs.Change.{CanFollow};

use crate::monitor;
use crate::rule::Rule;
use ftc_base::{Answers, Ask};
use ftc_packet::{Flow, flow_of};

/// What a rule asks next of a flow's packet.
fn ask_of_flow(rule: &Rule, flow: &Flow, answers: &Answers) -> Ask
    ensures { result ≡ ask_of_flow rule.now flow.now answers.now.items }
{
    match rule {
        Rule::Pass => Ask::keep(),
        Rule::Monitor { groups } => monitor::ask(*groups, flow, answers.as_slice()),
        Rule::Nat(rule) => ftc_nat::ask(rule, flow, answers),
        Rule::Firewall(rule) => ftc_firewall::ask(rule, flow, answers),
        Rule::Balance(rule) => ftc_balance::ask(rule, flow, answers),
    }
}

/// What a rule asks next of a packet, after these answers. A packet of no flow goes on unread.
#[tactic(auto, unfolding(crate::specs::Ask::ask))]
pub fn ask(rule: &Rule, packet: &[u8], answers: &Answers) -> Ask
    ensures asked { result ≡ ask rule.now packet.now answers.now.items }
    // Only a flow packet is rewritten.
    ensures rewrites { CanFollow packet.now result }
{
    match flow_of(packet) {
        Some(flow) => ask_of_flow(rule, &flow, answers),
        None => Ask::keep(),
    }
}
