//! Calls that are no events.

ghost use Rattle.std.specs.Prelude.{◌≡◌, ◌≢◌, ◌<◌, ℕ, List};
ghost use Rattle.ftc_protocol.specs.Setting.{Setting, servers, shape, rule_at};
ghost use Rattle.ftc_protocol.specs.State.{ChainState, opening};
ghost use Rattle.ftc_txn.specs.declared.answers.ReadAnswer.{ReadAnswer as AReadAnswer};
ghost use Rattle.ftc_server.specs.declared.answers.CommitAnswer.{CommitAnswer as ACommitAnswer};
ghost use Rattle.ftc_server.specs.declared.answers.CommitAnswer.TheVariants.{Done};
ghost use Rattle.ftc_server.specs.declared.server.Server.{Server};
ghost use Rattle.ftc_server.specs.State.{fields_of};
ghost use Rattle.ftc_server.specs.Steps.{HasRoomed, HasBufferRoom, HasBegun, HasQuit, Reads, EndsVisit, HasPruned};
ghost use Rattle.ftc_server.specs.Steps.{IsOpening, empty_held};
ghost use Rattle.ftc_refinement.specs.Contents.{IsServerAt};

use ftc_standing::all_stand;

/// A call that makes room, or that begins, reads for or gives up a visit, leaves the server standing for the state for
/// which it stood; so does a commit that isn't done, one that drops kept logs, and one that leaves the fields.
pub fn what_stays()
    ensures same { (setting : Setting) (state : ChainState) (server : ℕ) (old new : Server) →
        IsServerAt setting state server old → fields_of new ≡ fields_of old → IsServerAt setting state server new }
    ensures roomed { (setting : Setting) (state : ChainState) (server : ℕ) (old new : Server) →
        IsServerAt setting state server old → HasRoomed old new → IsServerAt setting state server new }
    ensures buffered { (setting : Setting) (state : ChainState) (server : ℕ) (old new : Server) →
        IsServerAt setting state server old → HasBufferRoom old new → IsServerAt setting state server new }
    ensures begun { (setting : Setting) (state : ChainState) (server worker packet : ℕ) (old new : Server) →
        IsServerAt setting state server old → HasBegun old new worker packet → IsServerAt setting state server new }
    ensures left { (setting : Setting) (state : ChainState) (server worker : ℕ) (old new : Server) →
        IsServerAt setting state server old → HasQuit old new worker → IsServerAt setting state server new }
    ensures read { (setting : Setting) (state : ChainState) (server worker : ℕ) (key : List ℕ) (answer : AReadAnswer)
        (old new : Server) → IsServerAt setting state server old → Reads old new worker key answer →
        IsServerAt setting state server new }
    ensures undone { (setting : Setting) (state : ChainState) (server worker : ℕ) (answer : ACommitAnswer)
        (old new : Server) → IsServerAt setting state server old → EndsVisit old new worker answer → answer ≢ Done →
        IsServerAt setting state server new }
    ensures pruned { (setting : Setting) (state : ChainState) (server : ℕ) (old new : Server) →
        IsServerAt setting state server old → HasPruned old new → IsServerAt setting state server new }
{}

/// A server to which nothing has happened stands for its part of the opening state.
pub fn what_new_makes()
    ensures { (setting : Setting) (server : ℕ) (new : Server) → server < servers setting →
        IsOpening (shape setting) server (rule_at setting server) setting.partitions
        (empty_held setting.partitions) new →
        IsServerAt setting (opening setting) server new }
{
    all_stand();
}
