//! What holds of every rule, as the contract of a function that does nothing.

ghost use Rattle.std.specs.Prelude.{ℕ, List};
ghost use Rattle.ftc_base.specs.declared.ask.Answer.{Answer};
ghost use Rattle.ftc_mbox.specs.Ask.{ask};
ghost use Rattle.ftc_mbox.specs.Visit.{RulesAreBounded};
ghost use Rattle.ftc_mbox.specs.InTurn.{InTurn, ComesNext};

use crate::rule::Rule;

/// Asked in turn, whatever the answers are, a rule asks for few enough keys that a visit can read them
/// all, for none twice, and writes only at keys that it read with leave to write there.
pub fn law_of_visits()
    ensures { RulesAreBounded }
{}

/// After answers to what a rule asked in turn, fewer than a visit may have, it asks for a new key, or
/// ends with writes by rising key, each at a key that it asked for with leave to write there.
pub fn law_of_turns()
    ensures { (rule : Rule) (packet : List ℕ) (answers : List Answer) → InTurn rule packet answers →
        ComesNext (ask rule packet) answers (ask rule packet answers) }
{}
