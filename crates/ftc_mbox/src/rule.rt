//! The rule of one middlebox.

ghost use Rattle.std.specs.Prelude.{◌≡◌, IfOk};

use ftc_balance::BalanceRule;
use ftc_base::{Items, NoMemory};
use ftc_firewall::FirewallRule;
use ftc_nat::NatRule;
use std::alloc::Global;

/// What a middlebox does with packets.
#[derive(Debug, Drop)]
pub enum Rule {
    /// It lets every packet pass, and keeps nothing.
    Pass,
    /// It counts packets by groups of source addresses.
    Monitor { groups: u16 },
    /// It translates addresses.
    Nat(NatRule),
    /// It lets flows pass or not.
    Firewall(FirewallRule),
    /// It spreads flows over servers.
    Balance(BalanceRule),
}

/// The rules of a chain, in chain order.
pub type Rules = Items<Rule>;

impl Rule {
    /// The same rule once more.
    pub fn copy(&self, alloc: Global) -> Result<Rule, NoMemory>
        ensures { IfOk result (λ copy. copy ≡ self.now) }
    {
        match self {
            Rule::Pass => Ok(Rule::Pass),
            Rule::Monitor { groups } => Ok(Rule::Monitor { groups: *groups }),
            Rule::Nat(rule) => Ok(Rule::Nat(*rule)),
            Rule::Firewall(rule) => {
                let lines = rule.lines.copy(alloc)?;
                Ok(Rule::Firewall(FirewallRule { lines }))
            }
            Rule::Balance(rule) => {
                let backends = rule.backends.copy(alloc)?;
                Ok(Rule::Balance(BalanceRule {
                    address: rule.address,
                    port: rule.port,
                    backends,
                }))
            }
        }
    }
}

/// The same rules once more.
pub fn copy_rules(alloc: Global, rules: &Rules) -> Result<Rules, NoMemory>
    ensures { IfOk result (λ copy. copy ≡ rules.now) }
{
    let mut copies = Items::new(alloc);
    for rule in rules.as_slice() {
        copies.push(rule.copy(alloc)?)?;
    }
    Ok(copies)
}
