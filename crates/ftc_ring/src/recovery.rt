//! From where a server that is replaced gets the lists of its groups.

ghost use Rattle.std.specs.Prelude.{◌≡◌, ◌<◌, ℕ, Some};
ghost use Rattle.ftc_ring.specs.Ring.{IsMember};
ghost use Rattle.ftc_ring.specs.Live.{is_live, IsLive, IsDown, IsAdmissible, IsLiveBefore, IsLiveAfter, source_between};
ghost use Rattle.ftc_ring.specs.Live.{is_from_before, source_of};

use crate::distance::apart;
use crate::ring::Ring;
use ftc_base::{ServerId, ServerSet};

impl Ring {
    /// Whether a server that is replaced gets the list of a group from the live server before it, and not from the one
    /// after it: where the live server before isn't farther back than the group's head.
    pub fn is_from_before(&self, before: ServerId, group: ServerId, server: ServerId) -> bool
        requires before { before < self.now.servers }
        requires group { group < self.now.servers }
        ensures { result ≡ is_from_before self.now.servers before group server }
    {
        apart(self.servers(), before, server) <= apart(self.servers(), group, server)
    }

    /// The live server from which a server that is down gets the list of a group of its own.
    pub fn source(&self, server: ServerId, group: ServerId, down: ServerSet) -> ServerId
        requires server { server < self.now.servers }
        requires group { group < self.now.servers }
        requires down { IsDown (is_live down) server }
        requires member { IsMember self.now group server }
        requires admissible { IsAdmissible self.now (is_live down) }
        ensures value { source_of self.now.servers (is_live down) group server ≡ Some result }
        ensures nearest { (before after : ℕ) → IsLiveBefore self.now.servers (is_live down) server before →
            IsLiveAfter self.now.servers (is_live down) server after →
            result ≡ source_between self.now.servers before after group server }
        ensures within { result < self.now.servers }
        ensures live { IsLive (is_live down) result }
        ensures member { IsMember self.now group result }
    {
        let nearest = (
            self.live_before(server, down),
            self.live_after(server, down),
        );
        match nearest {
            (Some(before), Some(after)) => {
                if self.is_from_before(before, group, server) {
                    before
                } else {
                    after
                }
            }
            _ => unreachable!(),
        }
    }
}
