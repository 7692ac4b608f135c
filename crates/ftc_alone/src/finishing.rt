//! What is left is done in order.

ghost use Rattle.std.specs.Prelude.{◌≡◌, OnOk, OnErr};
ghost use Rattle.ftc_chain.specs.ChainRun.{setting_in, chain_state};
ghost use Rattle.ftc_protocol.specs.Drive.{IsFinish};
ghost use Rattle.ftc_protocol.specs.Jobs.{IsLegalJob};
ghost use Rattle.ftc_chain.specs.Course.{HasMade};
ghost use Rattle.ftc_chain.specs.Slots.{AreIdle, IsButHeads};
ghost use Rattle.ftc_alone.specs.Alone.{IsSameGiven, IsInFinish};

use crate::quitting::quit_all;
use ftc_base::limits::FINISHING_SLOT;
use ftc_base::{NoMemory, WorkerId};
use ftc_chain::Chain;
use ftc_journal::Job;
use ftc_protocol::{every_run_ends, runs};

/// Makes the event of a job, a visit in a worker's slot, and the releases that are due after it. A refused call leaves
/// the run as it was, but for what slots ran.
pub fn make(chain: &mut Chain<'_>, worker: WorkerId, job: &Job) -> Result<(), NoMemory>
    requires { ∥ IsLegalJob (setting_in chain.old) (chain_state chain.old) job.now ∥₁ }
    ensures ok { OnOk result (∥ HasMade worker job.now chain.old chain.new ∥₁) }
    ensures err { OnErr result (IsButHeads chain.old chain.new) }
    ensures idle { AreIdle chain.old → AreIdle chain.new }
{
    if let Job::Visit { server, packet } = *job {
        return chain.visit(worker, server, packet);
    }
    chain.step(job)
}

/// Makes the first job again and again until there is none, visits in the last slot.
pub fn finish_idle(chain: &mut Chain<'_>) -> Result<(), NoMemory>
    requires { AreIdle chain.old }
    ensures ok { OnOk result (∥ IsFinish (setting_in chain.old) chain.old.journal chain.new.journal ∥₁) }
    ensures err { OnErr result (∥ IsInFinish (setting_in chain.old) chain.old.journal chain.new.journal ∥₁) }
    ensures given { IsSameGiven chain.old chain.new }
    ensures idle { AreIdle chain.new }
{
    ftc_protocol::finish();
    every_run_ends();
    runs();
    let _ = chain.journal();
    let worker = WorkerId::new(FINISHING_SLOT).unwrap();
    while let Some(job) = chain.next() {
        make(chain, worker, &job)?;
        let _ = chain.journal();
    }
    Ok(())
}

/// All slots give up what they run. Then the first job is made again and again until there is none, visits in the last
/// slot: the finish of the run. After an error the events so far are a front of it.
pub fn finish(chain: &mut Chain<'_>) -> Result<(), NoMemory>
    ensures ok { OnOk result (∥ IsFinish (setting_in chain.old) chain.old.journal chain.new.journal ∥₁) }
    ensures err { OnErr result (∥ IsInFinish (setting_in chain.old) chain.old.journal chain.new.journal ∥₁) }
    ensures given { IsSameGiven chain.old chain.new }
    ensures idle { AreIdle chain.new }
{
    quit_all(chain);
    finish_idle(chain)
}
