//! A journal and its text.

ghost use Rattle.std.specs.Prelude.{◌≡◌, ◌⊎◌, ℕ, List};
ghost use Rattle.std.specs.List.{AllByRecursion};
ghost use Rattle.ftc_journal.specs.declared.event.Event.{Event};
ghost use Rattle.ftc_journal.specs.declared.fault.JournalFault.{JournalFault};
ghost use Rattle.ftc_journal.specs.declared.form.Version.TheVariants as version;
ghost use Rattle.ftc_journal.specs.Text.{spelling};
ghost use Rattle.ftc_journal.specs.Spelling.{IsEvent, IsSpelling};
ghost use Rattle.ftc_journal.specs.Faulty.{IsFirstFault};

/// A text is a spelling of one journal at most, and what is printed is a spelling of its journal.
pub fn spellings()
    ensures one { (text : List ℕ) (one other : List Event) → IsSpelling one text → IsSpelling other text →
        one ≡ other }
    ensures printed { (events : List Event) → AllByRecursion (IsEvent version.Second) events →
        IsSpelling events (spelling events) }
{}

/// Each text is a spelling of a journal or has a first fault, and never both. It has at most one first fault.
pub fn faults()
    ensures each { (text : List ℕ) → ((events : List Event) × IsSpelling events text)
        ⊎ ((fault : JournalFault) × IsFirstFault text fault) }
    ensures one { (text : List ℕ) (one other : JournalFault) → IsFirstFault text one → IsFirstFault text other →
        one ≡ other }
    ensures none { (text : List ℕ) (events : List Event) (fault : JournalFault) → IsSpelling events text →
        ¬ IsFirstFault text fault }
{}
