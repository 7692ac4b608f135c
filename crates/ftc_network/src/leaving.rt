//! A message leaves a server.

ghost use Rattle.std.specs.Prelude.{◌≡◌, ◌≤◌, ◌<◌, ◌+◌, ℕ, true, OnOk, OnErr, IfSome, length};
ghost use Rattle.std.specs.Option.{is_some};
ghost use Rattle.ftc_base.specs.declared.limits.TheConstants.{MOST_CAPTURED};
ghost use Rattle.ftc_ring.specs.Ring.{next_of};
ghost use Rattle.ftc_protocol.specs.Setting.{Setting, servers};
ghost use Rattle.ftc_protocol.specs.State.{ChainState};
ghost use Rattle.ftc_standing.specs.View.{leaving};
ghost use Rattle.ftc_network.specs.Events.{IsAllowed, IsLeaving, LeavingFollows, Follows, StandsStill, SlotStandsStill};
ghost use Rattle.ftc_network.specs.Parts.{buffer_of, withheld_in};
ghost use Rattle.ftc_network.specs.Slots.{head_of, AreSameHeads};
ghost use Rattle.ftc_network.specs.Sending.{HasFrameIfRoom, queue_after};

use crate::laws::{servers_beside, slots_stay_ready};
use crate::network::Network;
use crate::places::place_of;
use ftc_base::limits::MOST_CAPTURED;
use ftc_base::{NoMemory, PacketNo, ServerId};
use ftc_link::Link;
use ftc_message::Message;
use ftc_refinement::{what_is_sent, what_pass_does, what_pass_wants, what_stays, where_events_are};
use ftc_server::Server;
use ftc_standing::{a_message_is_sent, links_stand_still};
use ftc_visits::made_visits_stay;
use std::alloc::Global;

/// Whether a frame has room for the message: for the count of its logs and for its packet.
fn fits(message: &Message) -> bool
    ensures logs { result ≡ true → length message.now.logs < 4294967296 }
    ensures packet { result ≡ true → IfSome message.now.packet (λ packet. length packet ≤ MOST_CAPTURED) }
{
    let packet = match &message.packet {
        Some(bytes) => bytes.len() <= MOST_CAPTURED,
        None => true,
    };
    packet && message.logs.len() <= u32::MAX as usize
}

/// What is sent, if anything is, is queued on a link, or goes away with a gap.
fn send_on(
    link: &mut Link,
    alloc: Global,
    message: &Option<Message>,
    lost: Option<u32>,
    up: bool,
) -> Result<(), NoMemory>
    requires { IfSome message.now HasFrameIfRoom }
    ensures ok { OnOk result (link.new ≡ queue_after lost up message.now link.old) }
    ensures err { OnErr result (link.new ≡ link.old) }
{
    match message {
        Some(message) => {
            if !fits(message) {
                return Err(NoMemory);
            }
            link.send(alloc, message, lost, up)?;
            Ok(())
        }
        None => Ok(()),
    }
}

/// A held message is sent on, or goes away with a gap, and leaves its server. `up` says whether the receiver is up.
fn leave_at(
    slot: &mut Option<Server>,
    link: &mut Link,
    alloc: Global,
    server: ServerId,
    origin: PacketNo,
    lost: Option<u32>,
    up: bool,
) -> Result<(), NoMemory>
    requires { ∥ IsLeaving (is_some lost) server origin up link.old slot.old ∥₁ }
    ensures ok { OnOk result ((setting : Setting) (state : ChainState) →
        up ≡ state.up (next_of (servers setting) server) →
        LeavingFollows setting state (is_some lost) server origin link.old link.new slot.old slot.new) }
    ensures link { OnErr result (link.new ≡ link.old) }
    ensures slot { OnErr result ((number : ℕ) → SlotStandsStill number slot.old slot.new) }
    ensures withheld { OnOk result (length (buffer_of slot.new) ≤ length (buffer_of slot.old) + 1) }
    ensures heads { head_of slot.new ≡ head_of slot.old }
{
    what_pass_wants();
    what_pass_does();
    what_is_sent();
    a_message_is_sent();
    what_stays();
    slots_stay_ready();
    where_events_are();
    match slot {
        Some(live) => {
            let message = live.outgoing(origin)?;
            send_on(link, alloc, &message, lost, up)?;
            live.pass(origin);
            Ok(())
        }
        None => Ok(()),
    }
}

impl Network {
    /// A server sends a held message on. `lost` is the script's line by which its link loses it.
    pub fn leave(
        &mut self,
        alloc: Global,
        server: ServerId,
        origin: PacketNo,
        lost: Option<u32>,
    ) -> Result<(), NoMemory>
        requires { ∥ IsAllowed (leaving (is_some lost) server origin) self.old ∥₁ }
        ensures ok { OnOk result (Follows (leaving (is_some lost) server origin) self.old self.new) }
        ensures err { OnErr result (StandsStill self.old self.new) }
        ensures withheld { OnOk result (withheld_in self.new ≤ withheld_in self.old + 1) }
        ensures heads { AreSameHeads self.old self.new }
    {
        where_events_are();
        servers_beside();
        links_stand_still();
        made_visits_stay();
        let receiver = self.ring.next(server);
        let up = self.servers[place_of(receiver)].is_some();
        leave_at(
            &mut self.servers[place_of(server)],
            &mut self.links[place_of(server)],
            alloc,
            server,
            origin,
            lost,
            up,
        )
    }
}
