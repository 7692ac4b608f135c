//! Which servers are up where an event may happen.

ghost use Rattle.std.specs.Prelude.{◌≡◌, ◌≢◌, ◌<◌, ◌-◌, ℕ, true, false, List};
ghost use Rattle.ftc_journal.specs.declared.event.Event.TheVariants as event;
ghost use Rattle.ftc_journal.specs.declared.event.VisitName.{VisitName as AVisitName};
ghost use Rattle.ftc_ring.specs.Ring.{next_of};
ghost use Rattle.ftc_protocol.specs.Setting.{Setting, servers};
ghost use Rattle.ftc_protocol.specs.State.{ChainState};
ghost use Rattle.ftc_protocol.specs.Legal.{IsLegal};
ghost use Rattle.ftc_protocol.specs.Recovery.{previous_live, following_live};
ghost use Rattle.ftc_protocol.specs.Run.{IsRunState};

use ftc_protocol::order_of_a_state;
use ftc_ring::the_live;

/// Events happen at servers of the chain that are up. A server that begins anew was down, and the live servers before
/// and behind it are others.
pub fn where_events_are()
    ensures take { (setting : Setting) (state : ChainState) (link origin : ℕ) → IsRunState setting state →
        IsLegal setting state (event.Take link origin) →
        (link < servers setting) × (state.up (next_of (servers setting) link) ≡ true) }
    ensures apply { (setting : Setting) (state : ChainState) (server origin group packet : ℕ) →
        IsRunState setting state → IsLegal setting state (event.Apply server origin group packet) →
        (server < servers setting) × (state.up server ≡ true) × (group < servers setting) }
    ensures visit { (setting : Setting) (state : ChainState) (server packet worker : ℕ) → IsRunState setting state →
        IsLegal setting state (event.Visit server packet worker) →
        (server < servers setting) × (state.up server ≡ true) }
    ensures pass { (setting : Setting) (state : ChainState) (server origin : ℕ) → IsRunState setting state →
        IsLegal setting state (event.Pass server origin) → (server < servers setting) × (state.up server ≡ true) }
    ensures lose { (setting : Setting) (state : ChainState) (server origin : ℕ) → IsRunState setting state →
        IsLegal setting state (event.Lose server origin) → (server < servers setting) × (state.up server ≡ true) }
    ensures carry { (setting : Setting) (state : ChainState) (origin : ℕ) → IsRunState setting state →
        IsLegal setting state (event.Carry origin) → state.up 0 ≡ true }
    ensures propagate { (setting : Setting) (state : ChainState) (origin : ℕ) → IsRunState setting state →
        IsLegal setting state (event.Propagate origin) → state.up 0 ≡ true }
    ensures release { (setting : Setting) (state : ChainState) (packet : ℕ) → IsRunState setting state →
        IsLegal setting state (event.Release packet) → state.up (servers setting - 1) ≡ true }
    ensures pull { (setting : Setting) (state : ChainState) (link : ℕ) → IsRunState setting state →
        IsLegal setting state (event.Pull link) →
        (link < servers setting) × (state.up link ≡ true) × (state.up (next_of (servers setting) link) ≡ true) }
    ensures crash { (setting : Setting) (state : ChainState) (server : ℕ) → IsRunState setting state →
        IsLegal setting state (event.Crash server) → (server < servers setting) × (state.up server ≡ true) }
    ensures recover { (setting : Setting) (state : ChainState) (server : ℕ) (undone : List AVisitName) →
        IsRunState setting state → IsLegal setting state (event.Recover server undone) →
        (server < servers setting) × (state.up server ≡ false) }
    ensures previous { (setting : Setting) (state : ChainState) (server : ℕ) (undone : List AVisitName) →
        IsRunState setting state → IsLegal setting state (event.Recover server undone) →
        (previous_live setting state server < servers setting) × (previous_live setting state server ≢ server)
        × (state.up (previous_live setting state server) ≡ true) }
    ensures following { (setting : Setting) (state : ChainState) (server : ℕ) (undone : List AVisitName) →
        IsRunState setting state → IsLegal setting state (event.Recover server undone) →
        (following_live setting state server < servers setting) × (following_live setting state server ≢ server)
        × (state.up (following_live setting state server) ≡ true) }
{
    order_of_a_state();
    the_live();
}
