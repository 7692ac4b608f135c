//! What holds of logs that are applied one after another.

ghost use Rattle.std.specs.Prelude.{◌≡◌, ◌≤◌, ◌++◌, ℕ, List};
ghost use Rattle.ftc_message.specs.Logged.{Logged};
ghost use Rattle.ftc_store.specs.Store.{written};
ghost use Rattle.ftc_replica.specs.Held.{Held};
ghost use Rattle.ftc_recover.specs.Pulled.{applied_all, writes_of, AreReadyInTurn};

/// The logs' writes are made in their order, and the logs are kept behind the others. A greater bound on
/// the numbers holds too.
pub fn in_turn()
    ensures content { (logs : List Logged) (held : Held) →
        (applied_all logs held).content ≡ written (writes_of logs) held.content }
    ensures kept { (logs : List Logged) (held : Held) → (applied_all logs held).kept ≡ held.kept ++ logs }
    ensures more { (most more : ℕ) (vector : List ℕ) (logs : List Logged) → most ≤ more →
        AreReadyInTurn most vector logs → AreReadyInTurn more vector logs }
{}
