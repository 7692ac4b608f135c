//! What the journal of a run tells: its trace, its serial run and its licence.

ghost use Rattle.std.specs.Prelude.{◌≡◌, ◌++◌, ℕ, true, List, ◌∷◌};
ghost use Rattle.ftc_journal.specs.declared.event.Event.{Event as AnEvent};
ghost use Rattle.ftc_serial.specs.Trace.{trace_of};
ghost use Rattle.ftc_protocol.specs.Setting.{Setting, IsSetting};
ghost use Rattle.ftc_protocol.specs.State.{ChainState, opening};
ghost use Rattle.ftc_protocol.specs.Counts.{AreFew};
ghost use Rattle.ftc_protocol.specs.Run.{AreLegal, IsRun, IsRunState, state_after};
ghost use Rattle.ftc_protocol.specs.Legal.{IsLegal};
ghost use Rattle.ftc_protocol.specs.Next.{next};
ghost use Rattle.ftc_journal.specs.declared.event.Event.TheVariants as event;
ghost use Rattle.ftc_protocol.specs.Moment.{steps_in};
ghost use Rattle.ftc_protocol.specs.Orderly.{lines_done};
ghost use Rattle.ftc_protocol.specs.Whole.{HasSerialRun};

/// Runs as lists: a front of a run is a run, what follows it goes on from its state, and what goes on from the state
/// of a run is a run with it. So a legal event leads from the state of a run to that of another.
pub fn runs()
    ensures front { (setting : Setting) (before after : List AnEvent) →
        IsRun setting (before ++ after) → IsRun setting before }
    ensures rest { (setting : Setting) (before after : List AnEvent) → IsRun setting (before ++ after) →
        AreLegal setting (state_after setting (opening setting) before) after }
    ensures joined { (setting : Setting) (before after : List AnEvent) → IsRun setting before →
        AreLegal setting (state_after setting (opening setting) before) after → IsRun setting (before ++ after) }
    ensures state { (setting : Setting) (state : ChainState) (before after : List AnEvent) →
        state_after setting state (before ++ after) ≡ state_after setting (state_after setting state before) after }
    ensures opens { (setting : Setting) → IsSetting setting → IsRunState setting (opening setting) }
    ensures next { (setting : Setting) (state : ChainState) (event : AnEvent) → IsRunState setting state →
        IsLegal setting state event → IsRunState setting (next setting state event) }
{}

/// The trace that the machine has is that of its journal: the visits and releases in order, without the
/// visits that a recovery of the journal lists.
pub fn trace_of_a_run()
    ensures { (setting : Setting) → IsSetting setting → (journal : List AnEvent) → IsRun setting journal →
        steps_in (state_after setting (opening setting) journal).trace ≡ trace_of journal }
{}

/// The whole trace of a run is a serial run, also with the visits in it that have fallen and that no recovery
/// has undone as yet.
pub fn serial_of_a_run()
    ensures { (setting : Setting) → IsSetting setting → (journal : List AnEvent) → IsRun setting journal →
        HasSerialRun setting journal }
{}

/// The crashes and recoveries of a run are the first of the script's `at` lines, in order, each made after as many
/// packets had entered as it names. Each message that a link loses has a `lose` line of its link and origin.
pub fn licence()
    ensures lines { (setting : Setting) (journal : List AnEvent) → IsRun setting journal →
        setting.lines ≡ lines_done 0 journal ++ (state_after setting (opening setting) journal).lines }
    ensures loses { (setting : Setting) (before after : List AnEvent) (link origin : ℕ) →
        IsRun setting (before ++ event.Lose link origin ∷ after) → setting.loses link origin ≡ true }
{}

/// Messages without a packet are few: at most one for each packet and one for each crash and recovery, and
/// one more. So the numbers of all messages fit 32 bits.
pub fn few_propagates()
    ensures { (setting : Setting) → IsSetting setting → (journal : List AnEvent) → IsRun setting journal →
        AreFew setting journal }
{}
