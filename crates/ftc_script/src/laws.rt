//! What an accepted script is, and that each script can be written down.

ghost use Rattle.std.specs.Prelude.{◌≡◌, ◌≤◌, ◌<◌, ◌+◌, ℕ, Bool, List, length, take, slice_get, Some, Ok};
ghost use Rattle.std.specs.List.{AllByRecursion};
ghost use Rattle.ftc_base.specs.declared.limits.TheConstants.{MOST_SCRIPT_BYTES, MOST_NUMBER};
ghost use Rattle.ftc_ring.specs.Ring.{RingShape, IsRing};
ghost use Rattle.ftc_ring.specs.Live.{IsLive, IsAdmissible};
ghost use Rattle.ftc_script.specs.declared.line.ScriptLine.{ScriptLine};
ghost use Rattle.ftc_script.specs.declared.statement.Statement.{Statement};
ghost use Rattle.ftc_script.specs.Steps.{at_of, all_live, live_after, live_after_all, last_of, IsStep, AreSteps};
ghost use Rattle.ftc_script.specs.Script.{ScriptShape, IsScript, IsLose};
ghost use Rattle.ftc_script.specs.Grammar.{script_of};
ghost use Rattle.ftc_script.specs.Plain.{plain_text, steps_in, loses_in};

/// A text that is accepted spells a script for its ring and its packets: each step may be made in its
/// turn, each group has a live member behind each step, and behind the last all servers are live.
pub fn accepted()
    ensures parts { (ring : RingShape) (packets : ℕ) (text : List ℕ) (script : ScriptShape) → IsRing ring →
        script_of ring packets text ≡ Ok script →
        IsScript script × (script.ring ≡ ring) × (script.packets ≡ packets) }
    ensures admissible { (script : ScriptShape) (count : ℕ) → IsScript script →
        IsAdmissible script.ring (live_after_all all_live (take count script.steps)) }
    ensures ends { (script : ScriptShape) (server : ℕ) → IsScript script → server < script.ring.servers →
        IsLive (live_after_all all_live script.steps) server }
{}

/// Steps one after the other.
pub fn turns()
    ensures step { (script : ScriptShape) (place : ℕ) (step : ScriptLine) → IsScript script →
        slice_get script.steps place ≡ Some step →
        IsStep script.ring script.packets (last_of 0 (take place script.steps))
        (live_after_all all_live (take place script.steps)) step }
    ensures behind { (live : ℕ → Bool) (steps : List ScriptLine) (place : ℕ) (step : ScriptLine) →
        slice_get steps place ≡ Some step →
        live_after_all live (take (place + 1) steps) ≡ live_after (live_after_all live (take place steps)) step }
    ensures last { (last : ℕ) (steps : List ScriptLine) (place : ℕ) (step : ScriptLine) →
        slice_get steps place ≡ Some step → last_of last (take (place + 1) steps) ≡ at_of step }
    ensures keeps { (ring : RingShape) (packets last : ℕ) (live : ℕ → Bool) (step : ScriptLine) →
        IsAdmissible ring live → IsStep ring packets last live step → IsAdmissible ring (live_after live step) }
{}

/// Each list of lines that makes a script has a plain text, and this text reads as exactly that script.
pub fn reads_back()
    ensures { (ring : RingShape) (packets : ℕ) (lines : List Statement) →
        IsScript (record { ring = ring; packets = packets; steps = steps_in lines; loses = loses_in 1 lines }) →
        packets ≤ MOST_NUMBER →
        length (plain_text lines) ≤ MOST_SCRIPT_BYTES →
        script_of ring packets (plain_text lines)
        ≡ Ok (record { ring = ring; packets = packets; steps = steps_in lines; loses = loses_in 1 lines }) }
{}
