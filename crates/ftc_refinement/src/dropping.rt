//! Messages that a server drops.

ghost use Rattle.std.specs.Prelude.{◌≢◌, ℕ, List};
ghost use Rattle.ftc_journal.specs.declared.event.Event.TheVariants as event;
ghost use Rattle.ftc_journal.specs.declared.event.VisitName.{VisitName as AVisitName};
ghost use Rattle.ftc_protocol.specs.Setting.{Setting};
ghost use Rattle.ftc_protocol.specs.State.{ChainState};
ghost use Rattle.ftc_protocol.specs.Legal.{IsLegal};
ghost use Rattle.ftc_protocol.specs.Next.{next};
ghost use Rattle.ftc_protocol.specs.Recovery.{following_live};
ghost use Rattle.ftc_protocol.specs.Run.{IsRunState};
ghost use Rattle.ftc_server.specs.declared.server.Server.{Server};
ghost use Rattle.ftc_server.specs.Steps.{HasDropped};
ghost use Rattle.ftc_refinement.specs.Contents.{IsServerAt};

use crate::ready::what_is_ready;
use ftc_protocol::what_tests_say;
use ftc_standing::a_server_is_replaced;

/// Where a server begins anew, the live server behind it drops the messages that lack a log.
pub fn what_drop_unready_does()
    ensures { (setting : Setting) (state : ChainState) (server : ℕ) (undone : List AVisitName) (old new : Server) →
        IsRunState setting state → IsLegal setting state (event.Recover server undone) →
        following_live setting state server ≢ server →
        IsServerAt setting state (following_live setting state server) old → HasDropped old new →
        IsServerAt setting (next setting state (event.Recover server undone))
        (following_live setting state server) new }
{
    what_is_ready();
    what_tests_say();
    a_server_is_replaced();
}
