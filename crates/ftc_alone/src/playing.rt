//! A schedule is played.

ghost use Rattle.std.specs.Prelude.{◌≡◌, ◌∷◌, [], OnOk, OnErr};
ghost use Rattle.ftc_chain.specs.ChainRun.{setting_in};
ghost use Rattle.ftc_chain.specs.Slots.{AreIdle, IsButHeads};
ghost use Rattle.ftc_protocol.specs.Drive.{IsDrive};
ghost use Rattle.ftc_protocol.specs.Jobs.{slot_of};
ghost use Rattle.ftc_alone.specs.Alone.{IsSameGiven, IsInDrive, HasPlayed, HasPlayedSome};

use crate::finishing::{finish_idle, make};
use crate::quitting::quit_all;
use ftc_base::limits::FINISHING_SLOT;
use ftc_base::{NoMemory, WorkerId};
use ftc_chain::Chain;
use ftc_journal::{Event, Journal, job_of};
use ftc_protocol::drive;

/// The slot in which an event has its visit.
fn slot_of(event: &Event) -> WorkerId
    ensures { result ≡ slot_of event.now }
{
    match event {
        Event::Visit { worker, .. } => *worker,
        _ => WorkerId::new(FINISHING_SLOT).unwrap(),
    }
}

/// Makes an event of a schedule where its job is legal, and passes over it otherwise.
fn play_one(chain: &mut Chain<'_>, event: &Event) -> Result<(), NoMemory>
    ensures ok { OnOk result (∥ HasPlayed (event.now ∷ []) chain.old chain.new ∥₁) }
    ensures err { OnErr result (IsButHeads chain.old chain.new) }
    ensures idle { AreIdle chain.old → AreIdle chain.new }
{
    match job_of(event) {
        Some(job) => {
            if chain.legal(&job) {
                return make(chain, slot_of(event), &job);
            }
            Ok(())
        }
        None => Ok(()),
    }
}

/// Makes each event of a schedule whose job is legal where it is met, and passes over the others.
fn play_idle(chain: &mut Chain<'_>, schedule: &Journal) -> Result<(), NoMemory>
    requires { AreIdle chain.old }
    ensures ok { OnOk result (∥ HasPlayed schedule.now.items chain.old chain.new ∥₁) }
    ensures err { OnErr result (∥ HasPlayedSome schedule.now.items chain.old chain.new ∥₁) }
    ensures idle { AreIdle chain.new }
{
    for event in schedule.as_slice() {
        play_one(chain, event)?;
    }
    Ok(())
}

/// All slots give up what they run. Then each event of a schedule whose job is legal where it is met is made, and the
/// others are passed over. After an error a front of the schedule was played.
pub fn play(chain: &mut Chain<'_>, schedule: &Journal) -> Result<(), NoMemory>
    ensures ok { OnOk result (∥ HasPlayed schedule.now.items chain.old chain.new ∥₁) }
    ensures err { OnErr result (∥ HasPlayedSome schedule.now.items chain.old chain.new ∥₁) }
    ensures idle { AreIdle chain.new }
{
    quit_all(chain);
    play_idle(chain, schedule)
}

/// Plays a schedule from the opening, and then does what is left in order: the drive of the schedule. First all slots
/// give up what they run. After an error the events so far are a front of the drive.
pub fn run(chain: &mut Chain<'_>, schedule: &Journal) -> Result<(), NoMemory>
    requires { chain.old.journal ≡ [] }
    ensures ok { OnOk result (∥ IsDrive (setting_in chain.old) schedule.now.items chain.new.journal ∥₁) }
    ensures err { OnErr result (∥ IsInDrive (setting_in chain.old) schedule.now.items chain.new.journal ∥₁) }
    ensures given { IsSameGiven chain.old chain.new }
    ensures idle { AreIdle chain.new }
{
    drive();
    let _ = chain.journal();
    play(chain, schedule)?;
    finish_idle(chain)
}
