//! What is so of runs in which nobody chooses: of the first job, the releases that are due, the finish of a
//! run and the drive of a schedule.

ghost use Rattle.std.specs.Prelude.{◌≡◌, ◌++◌, ◌⊎◌, ◌↔◌, ℕ, List, [], ◌∷◌, Some};
ghost use Rattle.ftc_base.specs.declared.limits.TheConstants.{FINISHING_SLOT};
ghost use Rattle.ftc_journal.specs.declared.event.Event.{Event as AnEvent};
ghost use Rattle.ftc_journal.specs.declared.job.Job.{Job as AJob};
ghost use Rattle.ftc_journal.specs.declared.job.Job.TheVariants as job;
ghost use Rattle.ftc_journal.specs.Job.{job_of};
ghost use Rattle.ftc_serial.specs.Drive.{IsDriven};
ghost use Rattle.ftc_serial.specs.Serial.{State as SerialState};
ghost use Rattle.ftc_protocol.specs.Setting.{Setting, IsSetting};
ghost use Rattle.ftc_protocol.specs.State.{ChainState, Message, Withheld, opening};
ghost use Rattle.ftc_protocol.specs.Legal.{IsLegal};
ghost use Rattle.ftc_protocol.specs.Next.{next};
ghost use Rattle.ftc_protocol.specs.Quiet.{IsQuiet};
ghost use Rattle.ftc_protocol.specs.Run.{AreLegal, IsRun, IsFinished, state_after};
ghost use Rattle.ftc_protocol.specs.Jobs.{event_of, slot_of, IsLegalJob, IsEarlier, IsFirstJob, IsWork, IsNoWork};
ghost use Rattle.ftc_protocol.specs.Jobs.{IsNoPull, AreIdle, IsNoTake, IsNoLine, IsNoEnter, IsInTurn, IsWithin};
ghost use Rattle.ftc_protocol.specs.Drive.{event_after, IsNoneDue, AreReleases, AreFinish, IsFinish, IsPassedOver};
ghost use Rattle.ftc_protocol.specs.Drive.{IsPlay, IsDrive};

/// A job is legal where its event is, in whatever slot, and each event but a release does a job. The numbers
/// of a legal job are those of servers, messages and packets.
pub fn jobs_of_events()
    ensures slots { (setting : Setting) (state : ChainState) (slot : ℕ) (job : AJob) →
        IsLegal setting state (event_of setting state slot job) ↔ IsLegalJob setting state job }
    ensures jobs { (setting : Setting) (state : ChainState) (event : AnEvent) (job : AJob) →
        IsLegal setting state event → job_of event ≡ Some job →
        (event ≡ event_of setting state (slot_of event) job) × IsLegalJob setting state job }
    ensures within { (setting : Setting) → IsSetting setting → (journal : List AnEvent) → IsRun setting journal →
        (job : AJob) → IsLegalJob setting (state_after setting (opening setting) journal) job → IsWithin setting job }
    ensures back { (setting : Setting) (state : ChainState) (slot : ℕ) (job : AJob) →
        job_of (event_of setting state slot job) ≡ Some job }
{}

/// Of two jobs one is earlier, so that there is one first job at most; and where no release is due there is
/// one exactly where the run isn't finished.
pub fn first_job()
    ensures order { (state : ChainState) (one other : AJob) →
        IsEarlier state one other ⊎ ((one ≡ other) ⊎ IsEarlier state other one) }
    ensures strict { (state : ChainState) (one : AJob) → IsEarlier state one one → ⊥ }
    ensures through { (state : ChainState) (one other another : AJob) →
        IsEarlier state one other → IsEarlier state other another → IsEarlier state one another }
    ensures single { (setting : Setting) (state : ChainState) (one other : AJob) →
        IsFirstJob setting state one → IsFirstJob setting state other → one ≡ other }
    ensures exists { (setting : Setting) → IsSetting setting → (journal : List AnEvent) → IsRun setting journal →
        IsNoneDue setting (state_after setting (opening setting) journal) →
        ((job : AJob) × IsFirstJob setting (state_after setting (opening setting) journal) job)
        ⊎ IsFinished setting (state_after setting (opening setting) journal) }
    ensures turn { (setting : Setting) (journal : List AnEvent) (job : AJob) →
        IsFirstJob setting (state_after setting (opening setting) journal) job
        ↔ IsInTurn setting (state_after setting (opening setting) journal) job }
    ensures stages { (setting : Setting) (state : ChainState) → IsNoPull setting state → AreIdle setting state →
        IsNoTake setting state → IsNoLine setting state → IsNoEnter setting state →
        ((origin : ℕ) → IsLegalJob setting state (job.Propagate origin) → ⊥) →
        (job : AJob) → IsLegalJob setting state job → ⊥ }
    ensures unfinished { (setting : Setting) (state : ChainState) (job : AJob) →
        IsFirstJob setting state job → IsFinished setting state → ⊥ }
    ensures none { (setting : Setting) → IsSetting setting → (journal : List AnEvent) → IsRun setting journal →
        IsNoneDue setting (state_after setting (opening setting) journal) →
        ((job : AJob) → IsLegalJob setting (state_after setting (opening setting) journal) job → ⊥) →
        IsFinished setting (state_after setting (opening setting) journal) }
{}

/// A message at a server has one work at most, and none exactly where none of its jobs there is legal. A legal
/// visit, pass, lose or carry is its message's work: no apply of the message is legal besides.
pub fn work()
    ensures single { (setting : Setting) (state : ChainState) (server origin : ℕ) (one other : AJob) →
        IsWork setting state server origin one → IsWork setting state server origin other → one ≡ other }
    ensures exists { (setting : Setting) → IsSetting setting → (journal : List AnEvent) → IsRun setting journal →
        (server origin : ℕ) →
        ((job : AJob) × IsWork setting (state_after setting (opening setting) journal) server origin job)
        ⊎ IsNoWork setting (state_after setting (opening setting) journal) server origin }
    ensures visit { (setting : Setting) (state : ChainState) (server packet : ℕ) →
        IsLegalJob setting state (job.Visit server packet) →
        IsWork setting state server packet (job.Visit server packet) }
    ensures pass { (setting : Setting) (state : ChainState) (server origin : ℕ) →
        IsLegalJob setting state (job.Pass server origin) →
        IsWork setting state server origin (job.Pass server origin) }
    ensures lose { (setting : Setting) (state : ChainState) (server origin : ℕ) →
        IsLegalJob setting state (job.Lose server origin) →
        IsWork setting state server origin (job.Lose server origin) }
    ensures carry { (setting : Setting) → IsSetting setting → (journal : List AnEvent) → IsRun setting journal →
        (origin : ℕ) →
        IsLegalJob setting (state_after setting (opening setting) journal) (job.Carry origin) →
        IsWork setting (state_after setting (opening setting) journal) 0 origin (job.Carry origin) }
{}

/// No two messages came by one event to where they are, and no two packets to the buffer: so the order of
/// taking and the order of the buffer are orders.
pub fn times_apart()
    ensures messages { (setting : Setting) (journal : List AnEvent) (one other : ℕ) (message another : Message) →
        (state_after setting (opening setting) journal).message one ≡ Some message →
        (state_after setting (opening setting) journal).message other ≡ Some another →
        message.since ≡ another.since → one ≡ other }
    ensures withheld { (setting : Setting) (journal : List AnEvent) (one other : ℕ) (withheld another : Withheld) →
        (state_after setting (opening setting) journal).withheld one ≡ Some withheld →
        (state_after setting (opening setting) journal).withheld other ≡ Some another →
        withheld.since ≡ another.since → one ≡ other }
{}

/// The releases that are due after a run are one list. After them none is due, and they are a run with it.
pub fn releases()
    ensures exist { (setting : Setting) → IsSetting setting → (journal : List AnEvent) → IsRun setting journal →
        (events : List AnEvent) × AreReleases setting (state_after setting (opening setting) journal) events }
    ensures single { (setting : Setting) (journal one other : List AnEvent) →
        AreReleases setting (state_after setting (opening setting) journal) one →
        AreReleases setting (state_after setting (opening setting) journal) other → one ≡ other }
    ensures run { (setting : Setting) (journal events : List AnEvent) → IsRun setting journal →
        AreReleases setting (state_after setting (opening setting) journal) events → IsRun setting (journal ++ events) }
    ensures end { (setting : Setting) (state : ChainState) (events : List AnEvent) →
        AreReleases setting state events → IsNoneDue setting (state_after setting state events) }
{}

/// A run has one finish, which is a finished run. It is a first job, the releases that are due after it, and
/// the finish of what is then; and where the run is finished it is nothing.
pub fn finish()
    ensures exists { (setting : Setting) → IsSetting setting → (journal : List AnEvent) → IsRun setting journal →
        (whole : List AnEvent) × IsFinish setting journal whole }
    ensures single { (setting : Setting) (journal one other : List AnEvent) →
        IsFinish setting journal one → IsFinish setting journal other → one ≡ other }
    ensures run { (setting : Setting) (journal whole : List AnEvent) → IsRun setting journal →
        IsFinish setting journal whole → IsRun setting whole }
    ensures finished { (setting : Setting) (journal whole : List AnEvent) → IsFinish setting journal whole →
        IsFinished setting (state_after setting (opening setting) whole) }
    ensures turn { (setting : Setting) (state : ChainState) (job : AJob) (releases rest : List AnEvent) →
        IsFirstJob setting state job →
        AreReleases setting (next setting state (event_of setting state FINISHING_SLOT job)) releases →
        AreFinish setting
        (state_after setting (next setting state (event_of setting state FINISHING_SLOT job)) releases) rest →
        AreFinish setting state (event_of setting state FINISHING_SLOT job ∷ (releases ++ rest)) }
    ensures begun { (setting : Setting) (journal whole : List AnEvent) (job : AJob) (releases : List AnEvent) →
        IsFirstJob setting (state_after setting (opening setting) journal) job →
        AreReleases setting (state_after setting (opening setting)
        (journal ++ event_after setting journal job ∷ [])) releases →
        IsFinish setting ((journal ++ event_after setting journal job ∷ []) ++ releases) whole →
        IsFinish setting journal whole }
    ensures ended { (setting : Setting) (journal : List AnEvent) →
        IsFinished setting (state_after setting (opening setting) journal) → IsFinish setting journal journal }
{}

/// A schedule is played in one way, event by event. A run after which nothing is due is the play of itself.
pub fn play()
    ensures single { (setting : Setting) (schedule one other : List AnEvent) →
        IsPlay setting (opening setting) schedule one → IsPlay setting (opening setting) schedule other → one ≡ other }
    ensures run { (setting : Setting) (schedule played : List AnEvent) →
        IsPlay setting (opening setting) schedule played → IsRun setting played }
    ensures made { (setting : Setting) (schedule played : List AnEvent) (event : AnEvent) (job : AJob)
        (releases : List AnEvent) →
        IsPlay setting (opening setting) schedule played → job_of event ≡ Some job →
        IsLegalJob setting (state_after setting (opening setting) played) job →
        AreReleases setting (next setting (state_after setting (opening setting) played)
        (event_of setting (state_after setting (opening setting) played) (slot_of event) job)) releases →
        IsPlay setting (opening setting) (schedule ++ event ∷ [])
        (played ++ event_of setting (state_after setting (opening setting) played) (slot_of event) job ∷ releases) }
    ensures joined { (setting : Setting) (schedule more played after : List AnEvent) →
        IsPlay setting (opening setting) schedule played →
        IsPlay setting (state_after setting (opening setting) played) more after →
        IsPlay setting (opening setting) (schedule ++ more) (played ++ after) }
    ensures itself { (setting : Setting) (journal : List AnEvent) → IsRun setting journal →
        IsNoneDue setting (state_after setting (opening setting) journal) →
        IsPlay setting (opening setting) journal journal }
    ensures over { (setting : Setting) (schedule played : List AnEvent) (event : AnEvent) →
        IsPlay setting (opening setting) schedule played →
        IsPassedOver setting (state_after setting (opening setting) played) event →
        IsPlay setting (opening setting) (schedule ++ event ∷ []) played }
{}

/// Each schedule has one drive, which is a finished run. A finished run is the drive of itself.
pub fn drive()
    ensures exists { (setting : Setting) → IsSetting setting → (schedule : List AnEvent) →
        (whole : List AnEvent) × IsDrive setting schedule whole }
    ensures single { (setting : Setting) (schedule one other : List AnEvent) →
        IsDrive setting schedule one → IsDrive setting schedule other → one ≡ other }
    ensures run { (setting : Setting) (schedule whole : List AnEvent) → IsDrive setting schedule whole →
        IsRun setting whole × IsFinished setting (state_after setting (opening setting) whole) }
    ensures itself { (setting : Setting) → IsSetting setting → (journal : List AnEvent) → IsRun setting journal →
        IsFinished setting (state_after setting (opening setting) journal) → IsDrive setting journal journal }
    ensures front { (setting : Setting) → IsSetting setting → (schedule more played whole : List AnEvent) →
        IsPlay setting (opening setting) schedule played → IsDrive setting (schedule ++ more) whole →
        (rest : List AnEvent) × (whole ≡ played ++ rest) }
    ensures empty { (setting : Setting) (whole : List AnEvent) →
        IsDrive setting [] whole ↔ IsFinish setting [] whole }
{}

/// Where the script is empty and there are no replicas, the packets driven through one after another are the
/// drive of the empty schedule; and so they are driven in one way.
pub fn plain_drive()
    ensures drive { (setting : Setting) → IsSetting setting → IsQuiet setting → setting.failures ≡ 0 →
        (journal : List AnEvent) (end : SerialState) → IsDriven setting.rules setting.packets journal end →
        IsDrive setting [] journal }
    ensures single { (setting : Setting) → IsSetting setting → IsQuiet setting → setting.failures ≡ 0 →
        (one other : List AnEvent) (end another : SerialState) → IsDriven setting.rules setting.packets one end →
        IsDriven setting.rules setting.packets other another → one ≡ other }
{}
