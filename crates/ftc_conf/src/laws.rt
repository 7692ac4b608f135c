//! What holds of accepted chains, and what a bound on the servers that may be down at once refuses.

ghost use Rattle.std.specs.Prelude.{ℕ, List, ◌≡◌, ◌≤◌, ◌<◌, length, Ok};
ghost use Rattle.ftc_base.specs.declared.limits.TheConstants.{MOST_SERVERS};
ghost use Rattle.ftc_mbox.specs.Chain.{Chain};
ghost use Rattle.ftc_conf.specs.declared.limits.TheConstants.{MOST_FAILURES};
ghost use Rattle.ftc_conf.specs.Grammar.{chain_within, chain_of};

/// An accepted chain has no more servers than a chain may have, and more than may be down at once.
pub fn fits()
    ensures servers { (most : ℕ) (text : List ℕ) (chain : Chain) → chain_within most text ≡ Ok chain →
        length chain.rules ≤ MOST_SERVERS }
    ensures failures { (most : ℕ) (text : List ℕ) (chain : Chain) → chain_within most text ≡ Ok chain →
        chain.failures < length chain.rules }
{}

/// An accepted chain keeps the bound.
pub fn bounded()
    ensures { (most : ℕ) (text : List ℕ) (chain : Chain) → chain_within most text ≡ Ok chain →
        chain.failures ≤ most }
{}

/// What one bound accepts, a wider one accepts as the same chain, and so does each bound that the
/// chain keeps.
pub fn wider()
    ensures wider { (most more : ℕ) (text : List ℕ) (chain : Chain) → most ≤ more →
        chain_within most text ≡ Ok chain → chain_within more text ≡ Ok chain }
    ensures kept { (most more : ℕ) (text : List ℕ) (chain : Chain) → chain.failures ≤ most →
        chain_within more text ≡ Ok chain → chain_within most text ≡ Ok chain }
{}

/// The grammar without a bound is that of each bound that no line `f F` can exceed.
pub fn unbounded()
    ensures { (most : ℕ) (text : List ℕ) → MOST_FAILURES ≤ most → chain_within most text ≡ chain_of text }
{}
