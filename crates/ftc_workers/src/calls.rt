//! Calls on a chain, by what the latch has to know of them.

ghost use Rattle.std.specs.Prelude.{◌≡◌, ◌<◌, ◌^◌, ℕ, true, false};
ghost use Rattle.ftc_journal.specs.declared.job.Job.TheVariants as job;
ghost use Rattle.ftc_protocol.specs.Jobs.{IsLegalJob};
ghost use Rattle.ftc_chain.specs.ChainRun.{setting_in, chain_state};
ghost use Rattle.ftc_chain.specs.Doing.{is_visit};
ghost use Rattle.ftc_chain.specs.Slots.{IsIdle, is_running_at, ages_left_at};
ghost use Rattle.ftc_workers.specs.Given.{HasGone, made_by};
ghost use Rattle.ftc_workers.specs.Visits.{visits};

use ftc_base::{Key, NoMemory, PacketNo, ServerId, WorkerId};
use ftc_chain::Chain;
use ftc_journal::Job;
use ftc_mbox::Plan;
use ftc_message::Seen;
use ftc_server::CommitAnswer;
use ftc_txn::ReadAnswer;

/// Makes the event of a job other than a visit.
pub fn step(chain: &mut Chain<'_>, job: &Job) -> Result<(), NoMemory>
    requires other { is_visit job.now ≡ false }
    requires legal { ∥ IsLegalJob (setting_in chain.old) (chain_state chain.old) job.now ∥₁ }
    ensures { HasGone 0 chain.old chain.new }
{
    chain.step(job)
}

/// Takes the oldest message of a link, by its frame that was read where nobody waits for it.
pub fn take_seen(chain: &mut Chain<'_>, link: ServerId, seen: Seen) -> Result<(), NoMemory>
    requires { ∥ ((origin : ℕ) × IsLegalJob (setting_in chain.old) (chain_state chain.old) (job.Take link origin)) ∥₁ }
    ensures { HasGone 0 chain.old chain.new }
{
    chain.take_seen(link, seen)
}

/// A slot that is idle begins a visit that no slot runs.
pub fn begin(chain: &mut Chain<'_>, worker: WorkerId, server: ServerId, packet: PacketNo)
    requires idle { IsIdle chain.old worker }
    requires legal { ∥ IsLegalJob (setting_in chain.old) (chain_state chain.old) (job.Visit server packet) ∥₁ }
    requires once { is_running_at chain.old server packet ≡ false }
    requires age { ages_left_at chain.old server ≡ true }
    ensures { HasGone 0 chain.old chain.new }
{
    chain.begin(worker, server, packet);
}

/// What a slot runs reads a key.
pub fn read(chain: &mut Chain<'_>, worker: WorkerId, key: &Key) -> ReadAnswer
    ensures { HasGone 0 chain.old chain.new }
{
    chain.read(worker, key)
}

/// A slot commits what it runs. Done makes one visit, and every other answer none.
pub fn commit(chain: &mut Chain<'_>, worker: WorkerId, plan: &Plan) -> CommitAnswer
    ensures { HasGone (made_by result) chain.old chain.new }
{
    chain.commit(worker, plan)
}

/// A slot gives up what it runs.
pub fn quit(chain: &mut Chain<'_>, worker: WorkerId)
    ensures gone { HasGone 0 chain.old chain.new }
    ensures idle { IsIdle chain.new worker }
    ensures others { (other : ℕ) → IsIdle chain.old other → IsIdle chain.new other }
{
    chain.quit(worker);
}

/// A journal has fewer visits than a number of 64 bits can tell.
pub fn few(chain: &Chain<'_>)
    ensures { visits chain.now.journal < 2 ^ 64 }
{
    let _ = chain.journal().len();
}
