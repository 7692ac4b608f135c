//! What beats are, and what a watch makes of them.

ghost use Rattle.std.specs.Prelude.{◌≡◌, ◌≤◌, ◌<◌, ◌↔◌, ◌++◌, ℕ, true, false, List, [], map, if◌then◌else◌, Ok};
ghost use Rattle.std.specs.List.{AllByRecursion};
ghost use Rattle.ftc_base.specs.Sets.{has};
ghost use Rattle.ftc_ring.specs.Ring.{RingShape, IsRing};
ghost use Rattle.ftc_ring.specs.Live.{IsDown, IsAdmissible};
ghost use Rattle.ftc_base.specs.declared.limits.TheConstants.{MOST_NUMBER};
ghost use Rattle.ftc_script.specs.declared.statement.Statement.TheVariants.{Crash, Recover};
ghost use Rattle.ftc_script.specs.Steps.{with_at};
ghost use Rattle.ftc_script.specs.Script.{ScriptShape, IsScript};
ghost use Rattle.ftc_script.specs.Grammar.{script_of};
ghost use Rattle.ftc_script.specs.Plain.{plain_text, steps_in};
ghost use Rattle.ftc_watch.specs.declared.tick.Tick.{Tick};
ghost use Rattle.ftc_watch.specs.Beats.{BeatsShape, IsBeats};
ghost use Rattle.ftc_watch.specs.Grammar.{beats_of};
ghost use Rattle.ftc_watch.specs.Plain.{beats_text};
ghost use Rattle.ftc_watch.specs.Watch.{Watching, at_start, missed_of, servers_of, tick_on, ticks_on, watch_of};
ghost use Rattle.ftc_watch.specs.Fenced.{IsNoCrashOf, row_from, earlier, downs_in, held_in};

/// A text that is accepted spells beats for its ring and its packets.
pub fn accepted()
    ensures { (ring : RingShape) (packets : ℕ) (text : List ℕ) (beats : BeatsShape) → IsRing ring →
        beats_of ring packets text ≡ Ok beats →
        IsBeats beats × (beats.ring ≡ ring) × (beats.packets ≡ packets) }
{}

/// The script that a watch makes is accepted for the ring and the packets of the beats: it reads as the
/// crashes and recoveries of its lines, and as no lost message. So each group has a live member behind
/// each line, and behind the last all servers are live.
pub fn makes_a_script()
    ensures reads { (beats : BeatsShape) (limit : ℕ) → IsBeats beats → beats.packets ≤ MOST_NUMBER →
        script_of beats.ring beats.packets (plain_text (watch_of beats.ring limit beats.packets beats.ticks).script)
        ≡ Ok (record {
          ring = beats.ring;
          packets = beats.packets;
          steps = steps_in (watch_of beats.ring limit beats.packets beats.ticks).script;
          loses = [];
        }) }
    ensures is { (beats : BeatsShape) (limit : ℕ) → IsBeats beats → beats.packets ≤ MOST_NUMBER →
        IsScript (record {
          ring = beats.ring;
          packets = beats.packets;
          steps = steps_in (watch_of beats.ring limit beats.packets beats.ticks).script;
          loses = [];
        }) }
{}

/// A server that beats at each tick is never fenced.
pub fn beating()
    ensures { (ring : RingShape) (limit packets : ℕ) (ticks : List Tick) (server : ℕ) → 1 ≤ limit →
        AllByRecursion (λ tick. has tick.servers server ≡ true) ticks →
        AllByRecursion (IsNoCrashOf server) (watch_of ring limit packets ticks).script }
{}

/// Where a server is down behind some ticks, it hasn't beaten at as many of them in a row as the limit, up
/// to the last one.
pub fn silent_in_a_row()
    ensures { (ring : RingShape) (limit server : ℕ) (ticks : List Tick) → server < ring.servers →
        IsDown (ticks_on ring limit at_start ticks).live server →
        limit ≤ row_from server 0 ticks }
{}

/// How many ticks a server has missed behind a tick: none where it beat, and else one more than before, up
/// to the limit, where a server that was down before counts anew.
pub fn missed_at_a_tick()
    ensures { (ring : RingShape) (limit : ℕ) (before : Watching) (tick : Tick) (server : ℕ) → server < ring.servers →
        (tick_on ring limit before tick).missed server
        ≡ missed_of limit (has tick.servers server) (if before.live server then before.missed server else 0) }
{}

/// A server is down behind a tick exactly where it has missed as many ticks as the limit, and each group
/// has a live member without it and without those of smaller number that are down then.
pub fn fenced_exactly()
    ensures { (ring : RingShape) (limit : ℕ) (before : Watching) (tick : Tick) (server : ℕ) → IsRing ring →
        server < ring.servers →
        IsDown (tick_on ring limit before tick).live server
        ↔ (((tick_on ring limit before tick).missed server ≡ limit)
        × IsAdmissible ring (with_at (earlier server (tick_on ring limit before tick).live) server false)) }
{}

/// The lines that a tick adds: a recovery of each server that was down before it, and then a crash of each
/// that is down behind it, both in rising order.
pub fn lines_of_a_tick()
    ensures { (ring : RingShape) (limit : ℕ) (before : Watching) (tick : Tick) →
        (tick_on ring limit before tick).script
        ≡ before.script ++ map (Recover tick.at) (downs_in before.live (servers_of ring))
        ++ map (Crash tick.at) (downs_in (tick_on ring limit before tick).live (servers_of ring)) }
{}

/// The held lines that a tick adds, in rising order of the servers.
pub fn held_lines_of_a_tick()
    ensures { (ring : RingShape) (limit : ℕ) (before : Watching) (tick : Tick) → IsRing ring →
        (tick_on ring limit before tick).held
        ≡ before.held ++ held_in ring limit tick.at (tick_on ring limit before tick) (servers_of ring) }
{}

/// All beats have a plain text, and it reads as exactly those beats.
pub fn reads_back()
    ensures { (beats : BeatsShape) → IsBeats beats → beats.packets ≤ MOST_NUMBER →
        beats_of beats.ring beats.packets (beats_text beats) ≡ Ok beats }
{}
