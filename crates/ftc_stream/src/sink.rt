//! Where a writer's items go.

ghost use Rattle.std.specs.Prelude.{◌≡◌, ◌+◌, ℕ, IfOk, IfErr};
ghost use Rattle.ftc_stream.specs.declared.fault.PutFault.{PutFault};

use crate::fault::PutFault;

/// It writes what there is. Calls on it add up: what is true from one value of it to the next is true
/// from the first to the last.
pub trait Sink {
    /// What stays the same in every call.
    ghost kept: { Self → Self → Type 0 };

    /// From the one to the other by calls that answered Ok.
    ghost went: { Self → Self → Type 0 };

    /// The same, and then by one that was refused.
    ghost broke: { Self → Self → PutFault → Type 0 };

    /// How many items it may still write.
    ghost room: { Self → ℕ };

    /// Writes some items, and answers how many.
    fn write_some(&mut self) -> Result<u32, PutFault>
        ensures kept { kept self.old self.new }
        ensures went { IfOk result (λ count. went self.old self.new) }
        ensures room { IfOk result (λ count. room self.new + count ≡ room self.old) }
        ensures broke { IfErr result (λ fault. broke self.old self.new fault) };

    ghost same: { (sink : Self) → kept sink sink };

    ghost on: { (first between last : Self) → kept first between → kept between last → kept first last };

    ghost stays: { (sink : Self) → went sink sink };

    ghost goes_on: { (first between last : Self) → went first between → went between last → went first last };

    ghost breaks: { (first between last : Self) (fault : PutFault) → went first between → broke between last fault →
        broke first last fault };
}
