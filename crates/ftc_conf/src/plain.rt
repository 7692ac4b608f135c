//! A chain can be written down.

ghost use Rattle.std.specs.Prelude.{ℕ, ◌≡◌, ◌≤◌, Ok};
ghost use Rattle.ftc_mbox.specs.Chain.{Chain, IsChain};
ghost use Rattle.ftc_conf.specs.Grammar.{chain_within, chain_of};
ghost use Rattle.ftc_conf.specs.Plain.{plain_text};

/// Every chain has a plain text, in which each rule has a line and a firewall's lines stand below it,
/// and this text reads as exactly that chain, within each bound that the chain keeps.
pub fn reads_back()
    ensures within { (most : ℕ) (chain : Chain) → IsChain chain → chain.failures ≤ most →
        chain_within most (plain_text chain) ≡ Ok chain }
    ensures whole { (chain : Chain) → IsChain chain → chain_of (plain_text chain) ≡ Ok chain }
{}
