//! The nearest live servers, and the groups that have none.

ghost use Rattle.std.specs.Prelude.{◌≡◌, ◌≤◌, ◌<◌, ◌↔◌, IfSome, IfNone, IsNone};
ghost use Rattle.std.specs.List.{find};
ghost use Rattle.ftc_ring.specs.declared.live.Way.TheVariants.{Along, Against};
ghost use Rattle.ftc_ring.specs.Ring.{along, against};
ghost use Rattle.ftc_ring.specs.Live.{is_live, IsGone, IsAdmissible, IsFirstLive, IsFirstGone, IsLiveBefore};
ghost use Rattle.ftc_ring.specs.Live.{IsLiveAfter, IsAlone, first_live_of, gone_of, live_before_of, live_after_of};

use crate::distance::server_of;
use crate::ring::Ring;
use ftc_base::{ServerId, ServerSet};

/// How servers are passed one after another: along the links, or against them.
#[derive(Clone, Copy)]
enum Way {
    Along,
    Against,
}

/// Whether a server is live.
fn is_live(server: ServerId, down: ServerSet) -> bool
    ensures { result ≡ is_live down server }
{
    !down.has(server.number())
}

impl Ring {
    /// The first live server among so many, from `start` on that way.
    fn first_on(&self, way: Way, start: ServerId, count: u8, down: ServerSet) -> Option<ServerId>
        requires { start < self.now.servers }
        ensures along { way ≡ Along → result ≡ find (is_live down) (along self.now.servers count start) }
        ensures against { way ≡ Against → result ≡ find (is_live down) (against self.now.servers count start) }
    {
        if count == 0 {
            None
        } else if is_live(start, down) {
            Some(start)
        } else {
            let beyond = match way {
                Way::Along => self.next(start),
                Way::Against => self.previous(start),
            };
            self.first_on(way, beyond, count - 1, down)
        }
    }

    /// The first member of a group that is live.
    pub fn first_live(&self, group: ServerId, down: ServerSet) -> Option<ServerId>
        requires { group < self.now.servers }
        ensures value { result ≡ first_live_of self.now (is_live down) group }
        ensures first { IfSome result (IsFirstLive self.now (is_live down) group) }
        ensures none { IsNone result ↔ IsGone self.now (is_live down) group }
    {
        self.first_on(Way::Along, group, self.failures() + 1, down)
    }

    /// The smallest group without a live member.
    pub fn gone(&self, down: ServerSet) -> Option<ServerId>
        ensures value { result ≡ gone_of self.now (is_live down) }
        ensures first { IfSome result (IsFirstGone self.now (is_live down)) }
        ensures none { IsNone result ↔ IsAdmissible self.now (is_live down) }
    {
        for number in 0..self.servers() {
            let group = server_of(number);
            if self.first_live(group, down).is_none() {
                return Some(group);
            }
        }
        None
    }

    /// The nearest other live server before a server.
    pub fn live_before(&self, server: ServerId, down: ServerSet) -> Option<ServerId>
        requires { server < self.now.servers }
        ensures value { result ≡ live_before_of self.now.servers (is_live down) server }
        ensures nearest { IfSome result (IsLiveBefore self.now.servers (is_live down) server) }
        ensures none { IsNone result ↔ IsAlone self.now.servers (is_live down) server }
    {
        let start = self.previous(server);
        self.first_on(Way::Against, start, self.servers() - 1, down)
    }

    /// The nearest other live server after a server.
    pub fn live_after(&self, server: ServerId, down: ServerSet) -> Option<ServerId>
        requires { server < self.now.servers }
        ensures value { result ≡ live_after_of self.now.servers (is_live down) server }
        ensures nearest { IfSome result (IsLiveAfter self.now.servers (is_live down) server) }
        ensures none { IsNone result ↔ IsAlone self.now.servers (is_live down) server }
    {
        let start = self.next(server);
        self.first_on(Way::Along, start, self.servers() - 1, down)
    }
}
