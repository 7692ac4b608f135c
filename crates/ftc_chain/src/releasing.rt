//! Releases that are due.

ghost use Rattle.std.specs.Prelude.{◌≤◌};
ghost use Rattle.ftc_protocol.specs.Setting.{Setting};
ghost use Rattle.ftc_network.specs.Parts.{withheld_in};
ghost use Rattle.ftc_network.specs.Slots.{AreSameHeads};
ghost use Rattle.ftc_chain.specs.Course.{IsCourse, HasReleased};

use crate::course::Course;
use ftc_base::Released;
use ftc_journal::Event;

/// Makes the releases that are due, one after another. The journal and the outlet have room for as many as packets are
/// withheld.
pub fn release_due(course: &mut Course)
    requires journal { withheld_in course.old.network ≤ course.old.journal.spare }
    requires outlet { withheld_in course.old.network ≤ course.old.outlet.spare }
    ensures released { (setting : Setting) → IsCourse setting course.old → HasReleased setting course.old course.new }
    ensures heads { AreSameHeads course.old.network course.new.network }
{
    while let Some(freed) = course.network.release() {
        let packet = freed.packet;
        let _ = course.journal.push(Event::Release { packet });
        course.outlet.add(Released {
            packet,
            bytes: freed.bytes,
        });
    }
}
