//! All slots give up what they run.

ghost use Rattle.std.specs.Prelude.{◌≡◌};
ghost use Rattle.ftc_chain.specs.Slots.{AreIdle, IsButHeads};

use ftc_base::WorkerId;
use ftc_base::limits::MOST_SLOTS;
use ftc_chain::Chain;

/// Each slot gives up what it runs, so that the rest of the run has no other visit under way.
pub fn quit_all(chain: &mut Chain<'_>)
    ensures idle { AreIdle chain.new }
    ensures rest { IsButHeads chain.old chain.new }
{
    for slot in 0..MOST_SLOTS {
        chain.quit(WorkerId::new(slot).unwrap());
    }
}
