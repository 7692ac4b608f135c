//! The oldest frame of each link, which may be read elsewhere, and the take of what was read.

ghost use Rattle.std.specs.Prelude.{◌≡◌, ℕ, Some, IfOk, IfSome, OnOk, OnErr};
ghost use Rattle.ftc_base.specs.declared.limits.TheConstants.{FINISHING_SLOT};
ghost use Rattle.ftc_journal.specs.declared.job.Job.TheVariants as job;
ghost use Rattle.ftc_network.specs.Stand.{IsNetwork};
ghost use Rattle.ftc_protocol.specs.Jobs.{IsLegalJob};
ghost use Rattle.ftc_protocol.specs.Run.{IsRunState};
ghost use Rattle.ftc_protocol.specs.Setting.{Setting};
ghost use Rattle.ftc_protocol.specs.State.{ChainState};
ghost use Rattle.ftc_chain.specs.ChainRun.{setting_in, chain_state};
ghost use Rattle.ftc_chain.specs.Course.{HasMade};
ghost use Rattle.ftc_chain.specs.Frames.{IsFrameOf};
ghost use Rattle.ftc_chain.specs.Slots.{HeadsAfter};

use crate::chain::Chain;
use ftc_base::{Bytes, NoMemory, PacketNo, ServerId};
use ftc_jobs::oldest_at;
use ftc_journal::Job;
use ftc_message::Seen;
use ftc_network::Network;
use ftc_protocol::order_of_a_state;
use ftc_refinement::what_a_link_offers;
use std::alloc::Global;

/// A copy of the oldest frame on a link. None where nothing is queued there.
fn frame_at(network: &Network, alloc: Global, link: ServerId) -> Result<Option<Bytes>, NoMemory>
    ensures { IfOk result (λ frame. (setting : Setting) (state : ChainState) → IsRunState setting state →
        IsNetwork setting state network.now → IsFrameOf setting state link frame) }
{
    order_of_a_state();
    if link.number() >= network.ring.servers() {
        return Ok(None);
    }
    let Some(frame) = network.frame(link) else {
        return Ok(None);
    };
    let mut copy = Bytes::new(alloc);
    copy.append(frame)?;
    Ok(Some(copy))
}

impl<'a> Chain<'a> {
    /// A copy of the oldest frame on a link. None exactly where nothing is queued there, as on a link that the ring
    /// hasn't.
    pub fn frame(&self, link: ServerId) -> Result<Option<Bytes>, NoMemory>
        ensures { IfOk result (λ frame. ∥ IsFrameOf (setting_in self.now) (chain_state self.now) link frame ∥₁) }
    {
        frame_at(&self.course.network, self.given.alloc, link)
    }

    /// The origin of the message that may be taken from a link.
    fn oldest(&self, link: ServerId) -> Option<PacketNo>
        ensures some { IfSome result (λ origin.
            ∥ IsLegalJob (setting_in self.now) (chain_state self.now) (job.Take link origin) ∥₁) }
        ensures only { (origin : ℕ) → IsLegalJob (setting_in self.now) (chain_state self.now) (job.Take link origin) →
            result ≡ Some origin }
    {
        what_a_link_offers();
        let network = &self.course.network;
        if link.number() >= network.ring.servers() {
            return None;
        }
        oldest_at(network, link)
    }

    /// Takes the oldest message of a link, and makes the releases that are due after it, as the step of that job does.
    /// What was seen is of use where it is of the oldest frame there, and is passed over elsewhere. A refused call
    /// leaves the run as it was.
    pub fn take_seen(&mut self, link: ServerId, seen: Seen) -> Result<(), NoMemory>
        requires { ∥ ((origin : ℕ)
            × IsLegalJob (setting_in self.old) (chain_state self.old) (job.Take link origin)) ∥₁ }
        ensures ok { OnOk result ((origin : ℕ) →
            IsLegalJob (setting_in self.old) (chain_state self.old) (job.Take link origin) →
            ∥ HasMade FINISHING_SLOT (job.Take link origin) self.old self.new ∥₁) }
        ensures heads { OnOk result ((origin : ℕ) → HeadsAfter (job.Take link origin) self.old self.new) }
        ensures err { OnErr result (self.new ≡ self.old) }
    {
        let Some(origin) = self.oldest(link) else {
            unreachable!()
        };
        self.make(&Job::Take { link, origin }, Some(seen))
    }
}
