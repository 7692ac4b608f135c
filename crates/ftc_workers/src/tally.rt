//! How many commits a worker made, beside its share of the ledger.

ghost use Rattle.std.specs.Prelude.{◌≡◌, ◌+◌, ◌<◌, ℕ, []};
ghost use Rattle.ftc_workers.specs.Given.{Given as WasGiven};

use std::marker::Brand;
use std::sync::ledger::{Ledger, Share};

/// The ledger of one run of workers.
pub trait Run: Ledger {
    /// The visits in the journal of the chain that was handed in.
    ghost start: { ℕ };

    /// What that chain was given.
    ghost given: { WasGiven };
}

impl Run for Brand {
    ghost start = { 0 };

    ghost given = { record {
      chain = record { failures = 0; partitions = 1; rules = [] };
      packets = [];
      script = record { ring = record { servers = 1; failures = 0 }; packets = 0; steps = []; loses = [] };
    } };
}

/// A count of commits, which is the amount of a share.
#[derive(Drop)]
pub struct Tally<L: Run> {
    pub share: Share<L>,
    pub count: u64,
    pub ghost same: { share.amount ≡ count },
}

impl<L: Run> Tally<L> {
    /// A tally without commits, of one part of the share.
    pub fn split(&mut self) -> Tally<L>
        requires { 1 < self.old.share.parts }
        ensures one { result.share.parts ≡ 1 }
        ensures rest { self.new.share.parts + 1 ≡ self.old.share.parts }
    {
        let share = self.share.split_off(1, 0);
        Tally { share, count: 0 }
    }
}
