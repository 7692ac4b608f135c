//! What holds of single calls and of whole lists of calls.

ghost use Rattle.std.specs.Prelude.{◌≡◌, ◌≢◌, ◌≤◌, ℕ, Bool, true, List, [], Option};
ghost use Rattle.ftc_base.specs.declared.ask.Answer.{Answer};
ghost use Rattle.ftc_base.specs.declared.ask.Write.{Write};
ghost use Rattle.ftc_base.specs.Partition.{partition_of};
ghost use Rattle.ftc_vector.specs.Vector.{raised, need_of};
ghost use Rattle.ftc_vector.specs.Order.{IsLogReady, IsCovered};
ghost use Rattle.ftc_locks.specs.Locks.{holds_exclusively, SameHoldings};
ghost use Rattle.ftc_message.specs.Logged.{Logged};
ghost use Rattle.ftc_message.specs.Bounds.{MarksSome};
ghost use Rattle.ftc_txn.specs.Slots.{Running};
ghost use Rattle.ftc_txn.specs.Touched.{vector_after};
ghost use Rattle.ftc_txn.specs.Head.{HeadState, RunsUnwounded};
ghost use Rattle.ftc_txn.specs.Logs.{IsLogOf};
ghost use Rattle.ftc_txn.specs.Steps.{HasHeadRead, Commits, WouldLog};
ghost use Rattle.ftc_txn.specs.declared.answers.HeadCommit.TheVariants.{Done};
ghost use Rattle.ftc_txn.specs.Runs.{Call, caller, Step, Run, IsSerial, visits_of};

use ftc_base::limits::MOST_PARTITIONS;

/// What a slot that isn't wounded runs and holds stays, whatever the other slots call. A read keeps what
/// its slot holds exclusively, and holds its key's partition so where it may write there.
pub fn holdings()
    ensures runs_before { (old new : HeadState) (call : Call) (worker : ℕ) (running : Running) →
        Step old call new → worker ≢ caller call → RunsUnwounded new worker running → RunsUnwounded old worker running }
    ensures stay { (old new : HeadState) (call : Call) (worker : ℕ) (running : Running) →
        Step old call new → worker ≢ caller call → RunsUnwounded new worker running →
        SameHoldings old.locks new.locks worker }
    ensures own { (old new : HeadState) (worker partition : ℕ) (running : Running) (key : List ℕ) (change : Bool)
        (value : Option (List ℕ)) →
        HasHeadRead old new worker running key change value →
        holds_exclusively old.locks worker partition ≡ true → holds_exclusively new.locks worker partition ≡ true }
    ensures changed { (old new : HeadState) (worker : ℕ) (running : Running) (key : List ℕ) (value : Option (List ℕ)) →
        HasHeadRead old new worker running key true value →
        holds_exclusively new.locks worker (partition_of new.partitions key) ≡ true }
{}

/// Whatever calls come, the commits are a serial execution: each acts at once, on the content and the
/// vector that the earlier ones left, and all that its reads were answered is what the content has at
/// that moment. No other call changes the content or the vector.
pub fn transactions()
    ensures { (old new : HeadState) (calls : List Call) → Run old calls new →
        IsSerial old.group old.partitions old.content old.vector (visits_of old.slots) calls new.content new.vector }
{}

/// A commit's log may be applied where the vector was, and raises it as the commit did. From then on the
/// vector covers it. Where anything was read, it marks a partition.
pub fn logs()
    ensures ready { (group partitions : ℕ) (vector : List ℕ) (packet : ℕ) (answers : List Answer) (writes : List Write)
        (log : Logged) →
        IsLogOf group partitions vector packet answers writes log → IsLogReady vector log.before log.changed }
    ensures raised { (group partitions : ℕ) (vector : List ℕ) (packet : ℕ) (answers : List Answer) (writes : List Write)
        (log : Logged) →
        IsLogOf group partitions vector packet answers writes log →
        vector_after partitions writes vector ≡ raised vector log.changed }
    ensures covered { (group partitions : ℕ) (vector : List ℕ) (packet : ℕ) (answers : List Answer)
        (writes : List Write) (log : Logged) →
        IsLogOf group partitions vector packet answers writes log →
        IsCovered (vector_after partitions writes vector) (need_of log.before log.changed) }
    ensures marks { (group partitions : ℕ) (vector : List ℕ) (packet : ℕ) (answers : List Answer) (writes : List Write)
        (log : Logged) →
        IsLogOf group partitions vector packet answers writes log → 1 ≤ partitions → partitions ≤ MOST_PARTITIONS →
        answers ≢ [] → MarksSome log.before }
{}

/// A commit that comes next logs what was foreseen.
pub fn foreseen_logs()
    ensures { (old new : HeadState) (worker : ℕ) (writes : List Write) (foreseen made : Option Logged) →
        WouldLog old worker writes foreseen → Commits old new worker writes (Done made) → made ≡ foreseen }
{}
