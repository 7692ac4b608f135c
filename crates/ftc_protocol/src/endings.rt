//! That runs end, and what is so at the end of a run.

ghost use Rattle.std.specs.Prelude.{◌≡◌, ◌<◌, ◌≤◌, ◌+◌, ◌++◌, List, [], ◌∷◌, length};
ghost use Rattle.std.specs.List.{AllByRecursion};
ghost use Rattle.ftc_journal.specs.declared.event.Event.{Event as AnEvent};
ghost use Rattle.ftc_serial.specs.Drive.{IsDriven};
ghost use Rattle.ftc_serial.specs.Serial.{State as SerialState};
ghost use Rattle.ftc_protocol.specs.Setting.{Setting, IsSetting};
ghost use Rattle.ftc_protocol.specs.State.{opening};
ghost use Rattle.ftc_protocol.specs.Finish.{IsComplete};
ghost use Rattle.ftc_protocol.specs.Measure.{measure, IsBelow, work_left};
ghost use Rattle.ftc_protocol.specs.Quiet.{IsQuiet, IsQuietEvent, AreDone};
ghost use Rattle.ftc_protocol.specs.Run.{IsRun, IsFinished, state_after};

/// Every event takes a run nearer to its end: of the numbers that measure what is still to do, it lowers one
/// and leaves those before it as they are. So every run ends, whatever is done in which order.
pub fn every_event_goes_on()
    ensures { (setting : Setting) → IsSetting setting → (before : List AnEvent) (event : AnEvent) →
        IsRun setting (before ++ event ∷ []) →
        IsBelow (measure setting (state_after setting (opening setting) (before ++ event ∷ [])))
        (measure setting (state_after setting (opening setting) before)) }
{}

/// What is still to do is one number, which every event lowers. So no run is longer than that number is at the
/// opening.
pub fn every_run_ends()
    ensures falls { (setting : Setting) → IsSetting setting → (before : List AnEvent) (event : AnEvent) →
        IsRun setting (before ++ event ∷ []) →
        work_left setting (state_after setting (opening setting) (before ++ event ∷ []))
        < work_left setting (state_after setting (opening setting) before) }
    ensures bounded { (setting : Setting) → IsSetting setting → (journal : List AnEvent) → IsRun setting journal →
        length journal + work_left setting (state_after setting (opening setting) journal)
        ≤ work_left setting (opening setting) }
{}

/// When no event is legal any more, nothing is left to do: the script is done, all packets have entered, no
/// message and no log is under way, the buffer is empty, all members of a group have the same list and so
/// the same store, that of the serial run, and each packet was released, filtered or lost.
pub fn finished_run()
    ensures { (setting : Setting) → IsSetting setting → (journal : List AnEvent) → IsRun setting journal →
        IsFinished setting (state_after setting (opening setting) journal) →
        IsComplete setting (state_after setting (opening setting) journal) }
{}

/// Where the script has no line, no message is lost on a link and nothing is ever pulled, and in the end each
/// packet was released or dropped by a middlebox: the logs that ride on messages alone bring all changes to
/// all members.
pub fn quiet_links()
    ensures events { (setting : Setting) → IsSetting setting → IsQuiet setting → (journal : List AnEvent) →
        IsRun setting journal → AllByRecursion IsQuietEvent journal }
    ensures done { (setting : Setting) → IsSetting setting → IsQuiet setting → (journal : List AnEvent) →
        IsRun setting journal → IsFinished setting (state_after setting (opening setting) journal) →
        AreDone setting (state_after setting (opening setting) journal) }
{}

/// Where the script is empty, the packets of a chain without replicas, driven through it one after another, are
/// a run of the protocol, and nothing is left to do after it.
pub fn plain_run()
    ensures run { (setting : Setting) → IsSetting setting → IsQuiet setting → setting.failures ≡ 0 →
        (journal : List AnEvent) (end : SerialState) → IsDriven setting.rules setting.packets journal end →
        IsRun setting journal }
    ensures finished { (setting : Setting) → IsSetting setting → IsQuiet setting → setting.failures ≡ 0 →
        (journal : List AnEvent) (end : SerialState) → IsDriven setting.rules setting.packets journal end →
        IsFinished setting (state_after setting (opening setting) journal) }
{}
