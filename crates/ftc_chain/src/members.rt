//! What the live members of a group have: the store and the vector of the list that the protocol's state says.

ghost use Rattle.std.specs.Prelude.{IfSome, IsNone};
ghost use Rattle.ftc_server.specs.declared.server.Server.{Server as AServer};
ghost use Rattle.ftc_chain.specs.ChainRun.{setting_in, chain_state};
ghost use Rattle.ftc_chain.specs.Members.{IsLiveMember, IsMemberIn, IsStoreAt, IsVectorAt};

use crate::chain::Chain;
use ftc_base::ServerId;
use ftc_network::Network;
use ftc_server::Server;
use ftc_store::Store;
use ftc_vector::Vector;

/// The server of that number, where it is up and belongs to the group.
fn member_at(network: &Network, server: ServerId, group: ServerId) -> Option<&Server>
    ensures some { IfSome result (λ member. IsMemberIn network.now server group member.now) }
    ensures none { IsNone result → (member : AServer) → IsMemberIn network.now server group member → ⊥ }
{
    let servers = network.ring.servers();
    if server.number() >= servers || group.number() >= servers {
        return None;
    }
    if !network.ring.belongs(server, group) {
        return None;
    }
    network.servers[usize::from(server.number())].as_ref()
}

impl<'a> Chain<'a> {
    /// The store that a server has of a group: of its own middlebox, or of one that it has a replica of. None exactly
    /// where the server is down or doesn't belong to the group.
    pub fn store_of(&self, server: ServerId, group: ServerId) -> Option<&Store>
        ensures some { IfSome result (λ store.
            ∥ IsStoreAt (setting_in self.now) (chain_state self.now) server group store.now ∥₁) }
        ensures none { IsNone result → IsLiveMember (setting_in self.now) (chain_state self.now) server group → ⊥ }
    {
        let member = member_at(&self.course.network, server, group)?;
        Some(member.store_of(group))
    }

    /// How often each partition of a group was changed, as far as a server has its visits. None exactly where the
    /// server is down or doesn't belong to the group.
    pub fn vector_of(&self, server: ServerId, group: ServerId) -> Option<&Vector>
        ensures some { IfSome result (λ vector.
            ∥ IsVectorAt (setting_in self.now) (chain_state self.now) server group vector.now ∥₁) }
        ensures none { IsNone result → IsLiveMember (setting_in self.now) (chain_state self.now) server group → ⊥ }
    {
        let member = member_at(&self.course.network, server, group)?;
        Some(member.vector_of(group))
    }
}
