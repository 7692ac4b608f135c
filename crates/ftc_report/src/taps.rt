//! The line of each tap.

ghost use Rattle.std.specs.Prelude.{◌≡◌, ◌++◌, OnOk};
ghost use Rattle.std.specs.List.{flat_map};
ghost use Rattle.ftc_report.specs.Text.{tap_line};

use ftc_base::{Bytes, Lines, NoMemory};

/// Adds the line of a tap.
#[tactic(auto, unfolding(crate::specs::Text::tap_line))]
fn append_tap(line: &Bytes, out: &mut Bytes) -> Result<(), NoMemory>
    ensures { OnOk result (out.new ≡ out.old ++ tap_line line.now) }
{
    out.append(b"tap ")?;
    out.append(line.as_slice())?;
    out.append(b"\n")
}

/// Adds the line of each tap.
pub fn append_taps(taps: &Lines, out: &mut Bytes) -> Result<(), NoMemory>
    ensures { OnOk result (out.new ≡ out.old ++ flat_map tap_line taps.now) }
{
    for line in taps.as_slice() {
        append_tap(line, out)?;
    }
    Ok(())
}
