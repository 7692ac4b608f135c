//! What is so of every state of a run, whatever its chain, packets and script: the laws on which the promises
//! of the chain of servers rest. A law is the contract of a function that does nothing.

ghost use Rattle.std.specs.Prelude.{◌≡◌, ◌≢◌, ◌↔◌, ◌++◌, ℕ, List, filter};
ghost use Rattle.ftc_journal.specs.declared.event.Event.{Event as AnEvent};
ghost use Rattle.ftc_journal.specs.declared.event.Event.TheVariants as event;
ghost use Rattle.ftc_journal.specs.declared.event.VisitName.{VisitName as AVisitName};
ghost use Rattle.ftc_serial.specs.Words.{EachLater};
ghost use Rattle.ftc_serial.specs.Trace.{names};
ghost use Rattle.ftc_protocol.specs.declared.fate.Fate.TheVariants as became;
ghost use Rattle.ftc_protocol.specs.Setting.{Setting, IsSetting};
ghost use Rattle.ftc_protocol.specs.Visits.{In};
ghost use Rattle.ftc_protocol.specs.Trace.{IsBefore};
ghost use Rattle.ftc_protocol.specs.State.{ChainState, opening};
ghost use Rattle.ftc_protocol.specs.Recovery.{undone_visits, visits_in};
ghost use Rattle.ftc_protocol.specs.Legal.{MayHappen};
ghost use Rattle.ftc_protocol.specs.Next.{next};
ghost use Rattle.ftc_protocol.specs.Run.{IsRun, IsRunState, state_after};
ghost use Rattle.ftc_protocol.specs.Moment.{IsSound, Stands};
ghost use Rattle.ftc_protocol.specs.Front.{AreFronts};
ghost use Rattle.ftc_protocol.specs.Orderly.{AreAhead, IsWithholding, IsUndone, IsStanding, IsOrderly, IsNeeding};
ghost use Rattle.ftc_protocol.specs.Orderly.{IsRiding};

/// After every prefix of a run, in every order of its events, with every loss and every crash list that was
/// accepted: the serial run of the visits that stand exists and released what was released. The first live
/// member of each group has that run's content; no later live member has a visit that an earlier one lacks; and
/// what a live server or a message knows to be at a tail each live member of its group has. Of a released packet
/// the visits to all middleboxes are in the trace, and stand.
pub fn every_moment()
    ensures { (setting : Setting) → IsSetting setting → (before after : List AnEvent) →
        IsRun setting (before ++ after) → IsSound setting (state_after setting (opening setting) before) }
{}

/// Each group has a live member. Lists hold changing visits alone, of members alone, and a live head has every
/// changing visit of its group. Each message is at, or queued to, a live server, with logs of groups that this
/// server belongs to and with the needs of its packet, and one that came by the ring link is held by server 0; a packet
/// is withheld only while the last server is up; the forwarder has touching visits, and has any only while server 0
/// is up.
pub fn order_of_a_state()
    ensures { (setting : Setting) (state : ChainState) → IsRunState setting state → IsOrderly setting state }
{}

/// Each visit of the trace stands there once, and touches what it changes. The lists of the servers, what they know
/// and what messages tell hold changing visits of the trace, and with a visit each that is before it.
pub fn fronts_of_a_state()
    ensures { (setting : Setting) (state : ChainState) → IsRunState setting state → AreFronts setting state }
{}

/// Each log rides on one message at most, and on none where the forwarder has it.
pub fn logs_ride_once()
    ensures { (setting : Setting) (state : ChainState) → IsRunState setting state → IsRiding state }
{}

/// What a message or a withheld packet needs are touching visits of its own packet in the trace, and a message
/// that needs something has a packet.
pub fn needs_of_packets()
    ensures { (setting : Setting) (state : ChainState) → IsRunState setting state → IsNeeding state }
{}

/// A withheld packet came by an earlier event. Its message, if there still is one, is on the ring link or came by it,
/// and has no packet.
pub fn withheld_packets()
    ensures { (setting : Setting) (state : ChainState) → IsRunState setting state → IsWithholding setting state }
{}

/// A message that a server is still to visit has no log and no need of that server's own middlebox.
pub fn messages_ahead()
    ensures { (setting : Setting) (state : ChainState) → IsRunState setting state → AreAhead setting state }
{}

/// A recovery undoes a visit that touches something, has its head strictly between the two nearest live servers
/// and is lacked by the one after, with it the later visits of its packet, and no others; and with a visit each
/// that it is before. They are those of the trace in its order, each once. The packet of an undone visit is lost.
pub fn what_is_undone()
    ensures undone { (setting : Setting) (state : ChainState) (server : ℕ) (visits : List AVisitName) →
        IsRunState setting state → MayHappen setting state (event.Recover server visits) → (group packet : ℕ) →
        In (names visits) group packet ↔ IsUndone setting state server group packet }
    ensures closed { (setting : Setting) (state : ChainState) (server : ℕ) (visits : List AVisitName) →
        IsRunState setting state → MayHappen setting state (event.Recover server visits) →
        (group packet other : ℕ) → In (names visits) group packet →
        IsBefore setting.partitions state.trace group packet other → In (names visits) group other }
    ensures order { (setting : Setting) (state : ChainState) (server : ℕ) →
        undone_visits setting state server
        ≡ filter (λ (visit : AVisitName). names (undone_visits setting state server) visit.server visit.packet)
        (visits_in state.trace) }
    ensures once { (setting : Setting) (state : ChainState) (server : ℕ) → IsRunState setting state →
        EachLater (λ (one other : AVisitName). one ≢ other) (undone_visits setting state server) }
    ensures lost { (setting : Setting) (state : ChainState) (server : ℕ) (visits : List AVisitName) →
        IsRunState setting state → MayHappen setting state (event.Recover server visits) → (group packet : ℕ) →
        In (names visits) group packet →
        (number : ℕ) × ((next setting state (event.Recover server visits)).fate packet ≡ became.Lost number) }
{}

/// A visit of the trace stands where the first live member of its group has it, if it touches something, and the
/// earlier visits of its packet stand.
pub fn what_stands()
    ensures { (setting : Setting) (state : ChainState) → IsRunState setting state → (server packet : ℕ) →
        Stands setting state server packet ↔ IsStanding setting state server packet }
{}
