//! Servers that begin anew.

ghost use Rattle.std.specs.Prelude.{◌<◌, ℕ, List};
ghost use Rattle.ftc_journal.specs.declared.event.Event.TheVariants as event;
ghost use Rattle.ftc_journal.specs.declared.event.VisitName.{VisitName as AVisitName};
ghost use Rattle.ftc_replica.specs.Held.{Held};
ghost use Rattle.ftc_vector.specs.Commits.{all_merged};
ghost use Rattle.ftc_protocol.specs.Setting.{Setting, servers, shape, rule_at};
ghost use Rattle.ftc_protocol.specs.State.{ChainState};
ghost use Rattle.ftc_protocol.specs.Legal.{IsLegal};
ghost use Rattle.ftc_protocol.specs.Next.{next};
ghost use Rattle.ftc_protocol.specs.Recovery.{previous_live, following_live};
ghost use Rattle.ftc_protocol.specs.Run.{IsRunState};
ghost use Rattle.ftc_server.specs.declared.recovering.GroupReplica.{GroupReplica as AGroupReplica};
ghost use Rattle.ftc_server.specs.declared.server.Server.{Server};
ghost use Rattle.ftc_server.specs.Steps.{IsRevived};
ghost use Rattle.ftc_refinement.specs.Contents.{IsServerAt};
ghost use Rattle.ftc_refinement.specs.Got.{AreGot};

use ftc_ring::ends;
use ftc_standing::a_server_is_replaced;

/// A server begins anew with what it gets from the two live servers next to it and with what both know.
pub fn what_revive_makes()
    ensures { (setting : Setting) (state : ChainState) (server : ℕ) (undone : List AVisitName)
        (previous following new : Server) (own : Held) (news : List AGroupReplica) → IsRunState setting state →
        IsLegal setting state (event.Recover server undone) → server < servers setting →
        IsServerAt setting state (previous_live setting state server) previous →
        IsServerAt setting state (following_live setting state server) following →
        AreGot setting state server previous following own news →
        IsRevived (shape setting) server (rule_at setting server) setting.partitions own news
        (all_merged previous.known following.known) new →
        IsServerAt setting (next setting state (event.Recover server undone)) server new }
{
    ends();
    a_server_is_replaced();
}
