//! Which messages go with a recovery.

ghost use Rattle.std.specs.Prelude.{ℕ, ◌≡◌, ◌<◌, ◌≤◌, length, option_map};
ghost use Rattle.ftc_machine.specs.LostPackets.{drop_kept, loses_kept, fate_lost};
ghost use Rattle.ftc_machine.specs.RecoveryEffect.{is_dropped_kept};
ghost use Rattle.ftc_machine.specs.Slots.{slot_at, has_such};

use crate::effects::losses::lose;
use crate::state::MachineState;
use crate::state::message::{Message, Place};
use crate::state::slots::Slots;
use ftc_base::ServerId;
use ftc_protocol::Fate;
use ftc_ring::next_of;

impl MachineState {
    /// Whether a message goes, where this is the live server after the new one.
    fn is_dropped(&self, following: ServerId, message: &Message) -> bool
        requires { following < self.now.ring.servers }
        ensures { result ≡ is_dropped_kept self.now following message.now }
    {
        match &message.place {
            Place::Held { server, .. } => {
                server.number() == following.number() && !self.is_ready(following, message)
            }
            Place::Queued { link, .. } => {
                next_of(self.ring.servers(), *link) == following.number()
            }
        }
    }

    /// Whether there is a message that goes.
    fn is_any_dropped(&self, following: ServerId, message: Option<&Message>) -> bool
        requires { following < self.now.ring.servers }
        ensures { result ≡ has_such (is_dropped_kept self.now following) (option_map (λ each. each.now) message.entry) }
    {
        match message {
            Some(message) => self.is_dropped(following, message),
            None => false,
        }
    }

    /// Takes away those of these messages that go. Their packets are lost by that event.
    pub fn drop_messages(
        &self,
        following: ServerId,
        messages: &mut Slots<Message>,
        fates: &mut Slots<Fate>,
        event: u64,
    )
        requires within { following < self.now.ring.servers }
        requires wide { length messages.old ≤ length fates.old }
        ensures messages { (origin : ℕ) → slot_at messages.new origin ≡ drop_kept (is_dropped_kept self.now following)
            (slot_at messages.old origin) }
        ensures fates { (packet : ℕ) → slot_at fates.new packet ≡
            fate_lost (loses_kept (is_dropped_kept self.now following) (slot_at messages.old packet)) event
            (slot_at fates.old packet) }
    {
        for place in 0..messages.len() {
            if self.is_any_dropped(following, messages.get(place)) {
                lose(messages, fates, place, event);
            }
        }
    }
}
