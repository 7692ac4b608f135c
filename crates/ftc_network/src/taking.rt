//! The receiver of a link takes a message.

ghost use Rattle.std.specs.Prelude.{◌≡◌, ◌<◌, ◌+◌, ◌==◌, ℕ, [], Ok, IsOk, IfOk, OnOk, OnErr};
ghost use Rattle.std.specs.Option.{option_map};
ghost use Rattle.ftc_journal.specs.declared.event.Event.TheVariants as event;
ghost use Rattle.ftc_link.specs.Queue.{oldest_of};
ghost use Rattle.ftc_link.specs.Taking.{TakesIfAny};
ghost use Rattle.ftc_message.specs.Reading.{message_of};
ghost use Rattle.ftc_protocol.specs.Setting.{Setting, servers};
ghost use Rattle.ftc_protocol.specs.State.{ChainState};
ghost use Rattle.ftc_network.specs.Events.{IsAllowed, IsTaking, EndsFollow, Follows, StandsStill, SlotStandsStill};
ghost use Rattle.ftc_network.specs.Parts.{buffer_of, link_in, withheld_in};
ghost use Rattle.ftc_network.specs.Slots.{head_of, AreSameHeads};

use crate::laws::{servers_beside, slots_stay_ready};
use crate::network::Network;
use crate::places::place_of;
use ftc_base::{NoMemory, PacketNo, ServerId};
use ftc_link::Link;
use ftc_message::{Message, Seen};
use ftc_refinement::{what_stays, what_take_does, what_take_wants, where_events_are};
use ftc_server::Server;
use ftc_standing::{a_message_is_taken, links_stand_still};
use ftc_visits::made_visits_stay;
use std::alloc::Global;

/// Takes the oldest message of a link out, with what was seen of its frames.
fn take_from(
    link: &mut Link,
    alloc: Global,
    seen: Option<Seen>,
) -> Result<Option<Message>, NoMemory>
    ensures taken { IfOk result (TakesIfAny link.old link.new) }
    ensures refused { OnErr result (link.new ≡ link.old) }
    ensures empty { link.old.messages ≡ [] → IsOk result }
{
    match seen {
        Some(seen) => link.take_seen(alloc, seen),
        None => link.take(alloc),
    }
}

/// The receiver of a link holds its oldest message, and drops the kept logs that it knows to be at the tails then.
fn take_at(
    link: &mut Link,
    slot: &mut Option<Server>,
    alloc: Global,
    sender: ServerId,
    origin: PacketNo,
    by_ring: bool,
    seen: Option<Seen>,
) -> Result<(), NoMemory>
    requires { ∥ IsTaking sender origin by_ring link.old slot.old ∥₁ }
    ensures ok { OnOk result ((setting : Setting) (state : ChainState) → by_ring ≡ (sender + 1 == servers setting) →
        EndsFollow setting state sender origin link.old link.new slot.old slot.new) }
    ensures link { OnErr result (link.new ≡ link.old) }
    ensures slot { OnErr result ((number : ℕ) → SlotStandsStill number slot.old slot.new) }
    ensures buffer { OnOk result (buffer_of slot.new ≡ buffer_of slot.old) }
    ensures heads { head_of slot.new ≡ head_of slot.old }
{
    what_take_wants();
    what_take_does();
    a_message_is_taken();
    where_events_are();
    what_stays();
    slots_stay_ready();
    match slot {
        Some(server) => {
            let logs = link.logs().unwrap_or(0);
            server.make_room(logs)?;
            if let Some(message) = take_from(link, alloc, seen)? {
                server.take(message, by_ring);
                // What the sender knew may be news here.
                server.prune();
            }
            Ok(())
        }
        None => Ok(()),
    }
}

impl Network {
    /// The oldest frame of a link, which spells its oldest message. None exactly where nothing is queued there.
    pub fn frame(&self, link: ServerId) -> Option<&[u8]>
        requires { link < self.now.ring.servers }
        ensures { option_map (λ frame. message_of frame.now) result
            ≡ option_map Ok (oldest_of (link_in self.now.links.items link).messages) }
    {
        self.links[place_of(link)].frame()
    }

    /// The receiver of a link takes its oldest message. What was seen of the link's frames is of use only where it is
    /// of the oldest.
    pub fn take(
        &mut self,
        alloc: Global,
        link: ServerId,
        origin: PacketNo,
        seen: Option<Seen>,
    ) -> Result<(), NoMemory>
        requires { ∥ IsAllowed (event.Take link origin) self.old ∥₁ }
        ensures ok { OnOk result (Follows (event.Take link origin) self.old self.new) }
        ensures err { OnErr result (StandsStill self.old self.new) }
        ensures withheld { OnOk result (withheld_in self.new ≡ withheld_in self.old) }
        ensures heads { AreSameHeads self.old self.new }
    {
        where_events_are();
        servers_beside();
        links_stand_still();
        made_visits_stay();
        let receiver = self.ring.next(link);
        let by_ring = link.number() + 1 == self.ring.servers();
        take_at(
            &mut self.links[place_of(link)],
            &mut self.servers[place_of(receiver)],
            alloc,
            link,
            origin,
            by_ring,
            seen,
        )
    }
}
