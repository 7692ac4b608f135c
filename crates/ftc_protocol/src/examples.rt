//! Runs of which the laws speak.

ghost use Rattle.std.specs.Prelude.{◌≡◌, []};
ghost use Rattle.ftc_protocol.specs.declared.fate.Fate.TheVariants as became;
ghost use Rattle.ftc_protocol.specs.Setting.{IsSetting};
ghost use Rattle.ftc_protocol.specs.State.{opening};
ghost use Rattle.ftc_protocol.specs.Example.{two_monitors, undoing, monitor_and_pass, saving};
ghost use Rattle.ftc_protocol.specs.Run.{IsRun, IsFinished, state_after};

/// The laws speak of something: in this run a server crashes behind a visit that no other server has, and
/// the server that takes its place undoes it, so that nothing is left of it.
pub fn a_visit_undone()
    ensures setting { IsSetting two_monitors }
    ensures run { IsRun two_monitors undoing }
    ensures left { (state_after two_monitors (opening two_monitors) undoing).trace ≡ [] }
{}

/// In this run a server crashes behind a visit that another has applied: the server that takes its place has it
/// again, the packet is released, and the run is finished.
pub fn a_release_after_a_crash()
    ensures setting { IsSetting monitor_and_pass }
    ensures run { IsRun monitor_and_pass saving }
    ensures finished { IsFinished monitor_and_pass (state_after monitor_and_pass (opening monitor_and_pass) saving) }
    ensures fate { (state_after monitor_and_pass (opening monitor_and_pass) saving).fate 0 ≡ became.Released }
{}
