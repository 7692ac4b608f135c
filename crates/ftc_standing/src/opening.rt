//! The opening state.

ghost use Rattle.std.specs.Prelude.{◌≡◌, ◌<◌, [], ℕ, Option, false};
ghost use Rattle.ftc_vector.specs.Vector.{by_partition};
ghost use Rattle.ftc_vector.specs.Commits.{by_group};
ghost use Rattle.ftc_protocol.specs.Setting.{Setting, servers};
ghost use Rattle.ftc_protocol.specs.State.{opening};
ghost use Rattle.ftc_standing.specs.Stand.{ServerContents, IsServer, IsLink, IsEmptyReplica, IsEmptySlot, replica_of};

/// A server with empty replicas, which knows and holds nothing, stands for its part of the opening state; and so
/// does a link on which nothing is queued.
pub fn all_stand()
    ensures server { (setting : Setting) (server : ℕ) (contents : ServerContents) →
        IsEmptyReplica setting contents.head →
        ((group : ℕ) → group < servers setting → IsEmptySlot setting server group (replica_of contents.later group)) →
        contents.known ≡ by_group (λ group. by_partition (λ partition. 0)) → contents.held ≡ [] →
        contents.withheld ≡ [] → contents.forwarded ≡ [] → IsServer setting (opening setting) server contents }
    ensures link { (setting : Setting) (link : ℕ) →
        IsLink setting (opening setting) link (record { from = link; messages = []; gap = false }) }
{}
