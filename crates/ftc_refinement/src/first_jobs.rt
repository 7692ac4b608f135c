//! Which jobs are legal, and in which order they come, by what servers and links have.

ghost use Rattle.std.specs.Prelude.{◌≡◌, ◌<◌, ◌≤◌, ◌++◌, ◌∷◌, ◌↔◌, [], ℕ, true, List, Option, Some};
ghost use Rattle.ftc_journal.specs.declared.event.Event.TheVariants as event;
ghost use Rattle.ftc_journal.specs.declared.job.Job.TheVariants as job;
ghost use Rattle.ftc_link.specs.Queue.{Queue as AQueue};
ghost use Rattle.ftc_message.specs.declared.message.Message.{Message as SentMessage};
ghost use Rattle.ftc_ring.specs.Ring.{next_of};
ghost use Rattle.ftc_serial.specs.Words.{AnyOf};
ghost use Rattle.ftc_protocol.specs.Setting.{Setting, servers};
ghost use Rattle.ftc_protocol.specs.State.{ChainState, Message as AMessage};
ghost use Rattle.ftc_protocol.specs.Legal.{IsHeld, MayHappen};
ghost use Rattle.ftc_protocol.specs.Run.{IsRunState};
ghost use Rattle.ftc_protocol.specs.Jobs.{IsLegalJob};
ghost use Rattle.ftc_protocol.specs.Drive.{IsNoneDue};
ghost use Rattle.ftc_server.specs.declared.held.HeldMessage.{HeldMessage as AHeldMessage};
ghost use Rattle.ftc_server.specs.declared.server.Server.{Server};
ghost use Rattle.ftc_server.specs.Holding.{found};
ghost use Rattle.ftc_standing.specs.Stand.{IsLink};
ghost use Rattle.ftc_refinement.specs.Contents.{IsServerAt};
ghost use Rattle.ftc_refinement.specs.Slots.{AreRepresented, IsToPropagate};

use ftc_protocol::order_of_a_state;

/// Of a link the oldest message may be taken and no other, and none of a link that the chain hasn't.
pub fn what_a_link_offers()
    ensures oldest { (setting : Setting) (state : ChainState) (link : ℕ) (queue : AQueue) (sent : SentMessage)
        (rest : List SentMessage) → IsRunState setting state → IsNoneDue setting state →
        IsLink setting state link queue → queue.messages ≡ sent ∷ rest →
        IsLegalJob setting state (job.Take link sent.origin) }
    ensures only { (setting : Setting) (state : ChainState) (link origin : ℕ) (queue : AQueue) (sent : SentMessage)
        (rest : List SentMessage) → IsRunState setting state → IsLink setting state link queue →
        queue.messages ≡ sent ∷ rest → IsLegalJob setting state (job.Take link origin) → origin ≡ sent.origin }
    ensures none { (setting : Setting) (state : ChainState) (link origin : ℕ) (queue : AQueue) →
        IsRunState setting state → IsLink setting state link queue → queue.messages ≡ [] →
        IsLegalJob setting state (job.Take link origin) → ⊥ }
    ensures outside { (setting : Setting) (state : ChainState) (link origin : ℕ) → IsRunState setting state →
        servers setting ≤ link → IsLegalJob setting state (job.Take link origin) → ⊥ }
{
    order_of_a_state();
}

/// A link is pulled where it has a gap and both its ends are up, and none that the chain hasn't.
pub fn which_pulls()
    ensures pull { (setting : Setting) (state : ChainState) (link : ℕ) → IsNoneDue setting state →
        IsLegalJob setting state (job.Pull link)
        ↔ ((state.up link ≡ true) × (state.up (next_of (servers setting) link) ≡ true) × (state.gap link ≡ true)) }
    ensures outside { (setting : Setting) (state : ChainState) (link : ℕ) → IsRunState setting state →
        servers setting ≤ link → IsLegalJob setting state (job.Pull link) → ⊥ }
{
    order_of_a_state();
}

/// The held messages of a server are those that the state has there, in the order of taking: one that came sooner
/// stands before. Only servers that are up hold messages.
pub fn held_in_turn()
    ensures holder { (setting : Setting) (state : ChainState) (server origin : ℕ) (message : AMessage) →
        IsRunState setting state → IsHeld state server origin message →
        (server < servers setting) × (state.up server ≡ true) }
    ensures there { (setting : Setting) (state : ChainState) (server origin : ℕ) (message : AMessage) (old : Server) →
        IsServerAt setting state server old → IsHeld state server origin message →
        (held : AHeldMessage) × (found origin old.held.items ≡ Some held) }
    ensures place { (setting : Setting) (state : ChainState) (server : ℕ) (held : AHeldMessage)
        (before after : List AHeldMessage) (old : Server) → IsServerAt setting state server old →
        old.held.items ≡ before ++ held ∷ after →
        (found held.message.origin old.held.items ≡ Some held)
        × ((message : AMessage) × IsHeld state server held.message.origin message) }
    ensures order { (setting : Setting) (state : ChainState) (server : ℕ) (held later : AHeldMessage)
        (message other : AMessage) (before between after : List AHeldMessage) (old : Server) →
        IsServerAt setting state server old →
        old.held.items ≡ before ++ held ∷ (between ++ later ∷ after) →
        state.message held.message.origin ≡ Some message → state.message later.message.origin ≡ Some other →
        message.since < other.since }
    ensures sooner { (setting : Setting) (state : ChainState) (server another : ℕ) (held : AHeldMessage)
        (message other : AMessage) (before after : List AHeldMessage) (old : Server) →
        IsServerAt setting state server old → old.held.items ≡ before ++ held ∷ after →
        state.message held.message.origin ≡ Some message → IsHeld state server another other →
        other.since < message.since → AnyOf (λ (item : AHeldMessage). item.message.origin ≡ another) before }
{
    order_of_a_state();
}

/// A packet may enter where nothing is due and its entering may happen.
pub fn what_enters()
    ensures { (setting : Setting) (state : ChainState) (packet : ℕ) → IsNoneDue setting state →
        IsLegalJob setting state (job.Enter packet) ↔ MayHappen setting state (event.Enter packet) }
{}

/// When a message may begin without a packet, by what the servers and links have.
pub fn what_propagates()
    ensures { (setting : Setting) (state : ChainState) (origin : ℕ) (slots : ℕ → Option Server) (queues : ℕ → AQueue) →
        IsRunState setting state → IsNoneDue setting state → AreRepresented setting state slots queues →
        IsLegalJob setting state (job.Propagate origin) ↔ IsToPropagate setting state slots queues origin }
{
    order_of_a_state();
}
