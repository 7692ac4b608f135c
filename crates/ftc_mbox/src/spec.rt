//! A chain, as its text says.

ghost use Rattle.std.specs.Prelude.{◌≡◌, ◌≤◌, ◌<◌, length};
ghost use Rattle.ftc_mbox.specs.Chain.{IsChain};

use crate::rule::Rules;
use ftc_base::limits::MOST_PARTITIONS;
use std::marker::Model;

/// The middleboxes of a chain, one on each server, how many servers may be down at once, and in how
/// many partitions the keys of a middlebox lie. All its numbers and rules are in their bounds.
#[derive(Debug, Drop)]
pub struct ChainSpec {
    failures: u8,
    partitions: u8,
    rules: Rules,
}

impl Model for ChainSpec {
    ghost use Rattle.ftc_mbox.specs.Chain.{Chain, IsChain};

    ghost Value = { Chain };

    ghost view = { λ spec. record { failures = spec.failures; partitions = spec.partitions; rules = spec.rules } };

    ghost invariant = { λ spec. IsChain (record {
      failures = spec.failures;
      partitions = spec.partitions;
      rules = spec.rules;
    }) };
}

impl ChainSpec {
    /// The chain of these parts.
    pub fn new(failures: u8, partitions: u8, rules: Rules) -> ChainSpec
        requires { IsChain (record { failures = failures; partitions = partitions; rules = rules }) }
        ensures { result ≡ record { failures = failures; partitions = partitions; rules = rules } }
    {
        ChainSpec {
            failures,
            partitions,
            rules,
        }
    }

    /// How many servers may be down at once.
    pub fn failures(&self) -> u8
        ensures same { result ≡ self.now.failures }
        ensures fewer { result < length self.now.rules }
    {
        self.failures
    }

    /// In how many partitions the keys of a middlebox lie.
    pub fn partitions(&self) -> u8
        ensures same { result ≡ self.now.partitions }
        ensures some { 1 ≤ result }
        ensures within { result ≤ MOST_PARTITIONS }
    {
        self.partitions
    }

    /// The rules, in chain order.
    pub fn rules(&self) -> &Rules
        ensures same { result.now ≡ self.now.rules }
        ensures bounds { IsChain self.now }
    {
        &self.rules
    }
}
