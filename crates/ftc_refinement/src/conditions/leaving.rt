//! Messages that may leave a server.

ghost use Rattle.std.specs.Prelude.{◌≡◌, ◌<◌, ◌≤◌, ℕ, Bool, true, length, Some, IfSome};
ghost use Rattle.ftc_base.specs.declared.limits.TheConstants.{MOST_CAPTURED};
ghost use Rattle.ftc_journal.specs.declared.event.Event.TheVariants as event;
ghost use Rattle.ftc_message.specs.declared.message.Message.{Message as SentMessage};
ghost use Rattle.ftc_message.specs.WellFormed.{IsWellFormed};
ghost use Rattle.ftc_protocol.specs.Setting.{Setting};
ghost use Rattle.ftc_protocol.specs.State.{ChainState};
ghost use Rattle.ftc_protocol.specs.Legal.{IsLegal};
ghost use Rattle.ftc_protocol.specs.Run.{IsRunState};
ghost use Rattle.ftc_server.specs.declared.server.Server.{Server};
ghost use Rattle.ftc_server.specs.declared.work.Work.TheVariants.{Send, Carry};
ghost use Rattle.ftc_server.specs.Holding.{found};
ghost use Rattle.ftc_server.specs.Looks.{work_in, sent_in, attached_in, are_apart_from, onward_apart};
ghost use Rattle.ftc_standing.specs.View.{leaving};
ghost use Rattle.ftc_refinement.specs.Contents.{IsServerAt};

use crate::ready::what_is_ready;
use crate::working::what_work_says;
use ftc_protocol::{every_moment, logs_ride_once, needs_of_packets, order_of_a_state};
use ftc_ties::every_state_tied;

/// A message that leaves is to be sent, and none of its logs that go on is the forwarder's. What is sent of it has a
/// frame, where its logs are few enough and its packet is short enough.
pub fn what_pass_wants()
    ensures work { (setting : Setting) (state : ChainState) (lost : Bool) (server origin : ℕ) (old : Server) →
        IsRunState setting state → IsLegal setting state (leaving lost server origin) →
        IsServerAt setting state server old → work_in old origin ≡ Some Send }
    ensures apart { (setting : Setting) (state : ChainState) (lost : Bool) (server origin : ℕ) (old : Server) →
        IsRunState setting state → IsLegal setting state (leaving lost server origin) →
        IsServerAt setting state server old →
        are_apart_from old (attached_in old) (found origin old.held.items) ≡ true }
    ensures formed { (setting : Setting) (state : ChainState) (lost : Bool) (server origin : ℕ) (old : Server)
        (sent : SentMessage) → IsRunState setting state → IsLegal setting state (leaving lost server origin) →
        IsServerAt setting state server old → sent_in old origin ≡ Some sent → length sent.logs < 4294967296 →
        IfSome sent.packet (λ packet. length packet ≤ MOST_CAPTURED) → IsWellFormed sent }
{
    what_work_says();
    logs_ride_once();
    needs_of_packets();
    every_state_tied();
}

/// A message that ends at server 0 is to be carried on, and none of its logs that go on is the forwarder's.
pub fn what_carry_wants()
    ensures work { (setting : Setting) (state : ChainState) (origin : ℕ) (old : Server) → IsRunState setting state →
        IsLegal setting state (event.Carry origin) → IsServerAt setting state 0 old →
        work_in old origin ≡ Some Carry }
    ensures apart { (setting : Setting) (state : ChainState) (origin : ℕ) (old : Server) → IsRunState setting state →
        IsLegal setting state (event.Carry origin) → IsServerAt setting state 0 old →
        onward_apart old old.forwarder (found origin old.held.items) ≡ true }
{
    what_is_ready();
    logs_ride_once();
}
