//! Laws about serial runs, on which the replicated chain's promises rest.

ghost use Rattle.std.specs.Prelude.{◌≡◌, ℕ, List, Some};
ghost use Rattle.std.specs.List.{AllByRecursion};
ghost use Rattle.std.specs.FinMap.{get};
ghost use Rattle.ftc_base.specs.declared.ask.Answer.{Answer as AnAnswer};
ghost use Rattle.ftc_base.specs.declared.ask.Ask.TheVariants.{Finish};
ghost use Rattle.ftc_base.specs.declared.ask.Finish.{Finish as AnEnd};
ghost use Rattle.ftc_base.specs.declared.ask.Write.{Write as AWrite};
ghost use Rattle.ftc_store.specs.Store.{Content};
ghost use Rattle.ftc_serial.specs.Reads.{IsRead};
ghost use Rattle.ftc_mbox.specs.Change.{packet_after};
ghost use Rattle.ftc_serial.specs.Take.{taken};
ghost use Rattle.ftc_mbox.specs.declared.rule.Rule.{Rule as ARule};
ghost use Rattle.ftc_mbox.specs.Ask.{ask};
ghost use Rattle.ftc_mbox.specs.InTurn.{InTurn};
ghost use Rattle.ftc_serial.specs.declared.step.Step.{Step as AStep};
ghost use Rattle.ftc_serial.specs.Serial.{State, Entry, serial_run};
ghost use Rattle.ftc_serial.specs.Entries.{entries};
ghost use Rattle.ftc_serial.specs.Removal.{Taken, IsClosedRun, IsRemoval};
ghost use Rattle.ftc_serial.specs.History.{IsHistory, IsClosedHistory, IsRemovedHistory};

/// Visits that are taken out of a serial run, with all that rests on them, leave a serial run, in which
/// the visits that are left do what they did.
pub fn removal()
    ensures { (rules : List ARule) (partitions : ℕ) (out : Taken) (start : State) (steps : List AStep) (end : State) →
        serial_run rules start steps ≡ Some end → IsClosedRun partitions out (entries rules start steps) →
        IsRemoval rules partitions out start steps end }
{}

/// The same of a run as a history, whose last entry is first.
pub fn removal_from_history()
    ensures { (rules : List ARule) (partitions : ℕ) (out : Taken) (start : State) (history : List Entry) →
        IsHistory rules start history → IsClosedHistory partitions out history →
        IsRemovedHistory rules partitions out start history }
{}

/// Whatever the store has, a visit writes only at keys that it read.
pub fn what_it_reads()
    ensures { (rule : ARule) (packet : List ℕ) (content : Content) →
        AllByRecursion (λ (write : AWrite). IsRead (taken rule packet content).answers write.key)
        (taken rule packet content).writes }
{}

/// Answers to what the rule asked in turn, each of which is what the store has, and after which the rule
/// finishes, make the outcome of the visit over this store.
pub fn what_is_taken_in_turn()
    ensures { (rule : ARule) (packet : List ℕ) (content : Content) (end : AnEnd) (answers : List AnAnswer) →
        InTurn rule packet answers →
        AllByRecursion (λ answer. get content answer.key ≡ answer.value) answers →
        ask rule packet answers ≡ Finish end →
        taken rule packet content
        ≡ record { answers = answers; writes = end.writes.items; packet = packet_after packet end.verdict } }
{}
