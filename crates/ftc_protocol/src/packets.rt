//! What becomes of packets.

ghost use Rattle.std.specs.Prelude.{◌↔◌, ◌∷◌, ◌≡◌, ◌⊎◌, ◌++◌, ℕ, List, length, Some};
ghost use Rattle.ftc_journal.specs.declared.event.Event.{Event as AnEvent};
ghost use Rattle.ftc_serial.specs.declared.position.Position.TheVariants as position;
ghost use Rattle.ftc_serial.specs.Drive.{IsDriven};
ghost use Rattle.ftc_serial.specs.Serial.{State as SerialState, Given, serial_run, serial_opening};
ghost use Rattle.ftc_serial.specs.Words.{AnyOf};
ghost use Rattle.ftc_serial.specs.Trace.{trace_of};
ghost use Rattle.ftc_protocol.specs.Setting.{Setting, IsSetting, servers};
ghost use Rattle.ftc_protocol.specs.Whole.{ReleasedVisited};
ghost use Rattle.ftc_journal.specs.declared.event.Event.TheVariants as event;
ghost use Rattle.ftc_protocol.specs.Trace.{IsSomeVisit};
ghost use Rattle.ftc_protocol.specs.State.{ChainState, opening};
ghost use Rattle.ftc_protocol.specs.Next.{next};
ghost use Rattle.ftc_protocol.specs.declared.fate.Fate.TheVariants as became;
ghost use Rattle.ftc_protocol.specs.Fates.{AreFates, MayLose};
ghost use Rattle.ftc_protocol.specs.Quiet.{IsQuiet};
ghost use Rattle.ftc_protocol.specs.Run.{IsRun, state_after};
ghost use Rattle.ftc_protocol.specs.Moment.{released_in};
ghost use Rattle.ftc_protocol.specs.Orderly.{IsLostAt};

/// What was released stays released, and no later event undoes a visit of it. For each release of a run all visits
/// of its packet are in the run's trace.
pub fn released_for_good()
    ensures stays { (setting : Setting) → IsSetting setting → (before after : List AnEvent) →
        IsRun setting (before ++ after) → (packet : ℕ) (bytes : List ℕ) →
        AnyOf (λ entry. entry ≡ Given packet bytes) (state_after setting (opening setting) before).trace →
        AnyOf (λ entry. entry ≡ Given packet bytes) (state_after setting (opening setting) (before ++ after)).trace
        × ((server : ℕ) → IsSomeVisit (state_after setting (opening setting) before).trace server packet →
        IsSomeVisit (state_after setting (opening setting) (before ++ after)).trace server packet) }
    ensures visited { (setting : Setting) → IsSetting setting → (journal : List AnEvent) → IsRun setting journal →
        ReleasedVisited (servers setting) journal }
{}

/// A packet's fate is released where the trace has its release, filtered where a visit of the trace dropped
/// it, and inside where it is still to come, or a message carries it, or the buffer withholds it. It gets
/// lost only by an event that may lose something, whose number its fate then has.
pub fn fates()
    ensures says { (setting : Setting) → IsSetting setting → (journal : List AnEvent) → IsRun setting journal →
        AreFates (state_after setting (opening setting) journal) }
    ensures lost { (setting : Setting) (state : ChainState) (event : AnEvent) (packet number : ℕ) →
        (next setting state event).fate packet ≡ became.Lost number →
        (state.fate packet ≡ became.Lost number) ⊎ ((number ≡ state.events) × MayLose setting state event) }
{}

/// A packet that is lost stays so, with the number of the event that lost it. That number is the place of an event
/// of the journal, counted from 0, which may lose something where it stands.
pub fn losses()
    ensures stay { (setting : Setting) → IsSetting setting → (before after : List AnEvent) →
        IsRun setting (before ++ after) → (packet number : ℕ) →
        (state_after setting (opening setting) before).fate packet ≡ became.Lost number →
        (state_after setting (opening setting) (before ++ after)).fate packet ≡ became.Lost number }
    ensures place { (setting : Setting) (journal : List AnEvent) (packet number : ℕ) →
        (state_after setting (opening setting) journal).fate packet ≡ became.Lost number →
        IsLostAt setting journal number }
    ensures counted { (setting : Setting) (journal : List AnEvent) →
        (state_after setting (opening setting) journal).events ≡ length journal }
{}

/// What the serial run of a run's whole trace released is what the run released, and a packet's fate is released or
/// filtered exactly where that serial run ends with the packet released or filtered there.
pub fn what_a_run_released()
    ensures records { (setting : Setting) → IsSetting setting → (journal : List AnEvent) → IsRun setting journal →
        (end : SerialState) → serial_run setting.rules (serial_opening setting.packets) (trace_of journal) ≡ Some end →
        end.released ≡ released_in (state_after setting (opening setting) journal).trace }
    ensures released { (setting : Setting) → IsSetting setting → (journal : List AnEvent) → IsRun setting journal →
        (end : SerialState) → serial_run setting.rules (serial_opening setting.packets) (trace_of journal) ≡ Some end →
        (packet : ℕ) → (state_after setting (opening setting) journal).fate packet ≡ became.Released
        ↔ (end.place packet ≡ Some position.Released) }
    ensures filtered { (setting : Setting) → IsSetting setting → (journal : List AnEvent) → IsRun setting journal →
        (end : SerialState) → serial_run setting.rules (serial_opening setting.packets) (trace_of journal) ≡ Some end →
        (server packet : ℕ) → (state_after setting (opening setting) journal).fate packet ≡ became.Filtered server
        ↔ (end.place packet ≡ Some (position.Filtered server)) }
{}

/// A packet is visited by each middlebox once at most, also where a recovery undoes the visit.
pub fn each_visit_once()
    ensures { (setting : Setting) → IsSetting setting → (before middle after : List AnEvent)
        (server packet worker other : ℕ) →
        IsRun setting (before ++ event.Visit server packet worker
        ∷ (middle ++ event.Visit server packet other ∷ after)) → ⊥ }
{}

/// What becomes of each packet in that run is what the serial run's end says.
pub fn plain_fates()
    ensures released { (setting : Setting) → IsSetting setting → IsQuiet setting → setting.failures ≡ 0 →
        (journal : List AnEvent) (end : SerialState) → IsDriven setting.rules setting.packets journal end →
        (packet : ℕ) → end.place packet ≡ Some position.Released →
        (state_after setting (opening setting) journal).fate packet ≡ became.Released }
    ensures filtered { (setting : Setting) → IsSetting setting → IsQuiet setting → setting.failures ≡ 0 →
        (journal : List AnEvent) (end : SerialState) → IsDriven setting.rules setting.packets journal end →
        (packet server : ℕ) → end.place packet ≡ Some (position.Filtered server) →
        (state_after setting (opening setting) journal).fate packet ≡ became.Filtered server }
{}
