//! Replicas that a server pulls.

ghost use Rattle.std.specs.Prelude.{◌≡◌, ◌<◌, ℕ, true, List};
ghost use Rattle.ftc_journal.specs.declared.event.Event.TheVariants as event;
ghost use Rattle.ftc_ring.specs.Ring.{next_of};
ghost use Rattle.ftc_protocol.specs.Setting.{Setting, servers, is_tail};
ghost use Rattle.ftc_protocol.specs.State.{ChainState};
ghost use Rattle.ftc_protocol.specs.Legal.{IsLegal};
ghost use Rattle.ftc_protocol.specs.Next.{next};
ghost use Rattle.ftc_protocol.specs.Run.{IsRunState};
ghost use Rattle.ftc_ties.specs.Servers.{is_shared};
ghost use Rattle.ftc_server.specs.declared.recovering.GroupReplica.{GroupReplica as AGroupReplica};
ghost use Rattle.ftc_server.specs.declared.server.Server.{Server};
ghost use Rattle.ftc_server.specs.Steps.{HasInstalled};
ghost use Rattle.ftc_refinement.specs.Contents.{IsServerAt};
ghost use Rattle.ftc_refinement.specs.Pulled.{ArePulled};

use ftc_protocol::order_of_a_state;
use ftc_ring::ends;
use ftc_standing::a_server_has_pulled;

/// The receiver of a link puts in place what it pulled. One of the groups that both ends share is the one whose tail
/// it is.
pub fn what_install_does()
    ensures { (setting : Setting) (state : ChainState) (link tail : ℕ) (old new sender : Server)
        (news : List AGroupReplica) → IsRunState setting state → IsLegal setting state (event.Pull link) →
        tail < servers setting → is_tail setting tail (next_of (servers setting) link) ≡ true →
        is_shared setting tail link (next_of (servers setting) link) ≡ true →
        IsServerAt setting state (next_of (servers setting) link) old → IsServerAt setting state link sender →
        ArePulled setting link old sender news → HasInstalled old new news →
        IsServerAt setting (next setting state (event.Pull link)) (next_of (servers setting) link) new }
{
    order_of_a_state();
    ends();
    a_server_has_pulled();
}
