//! Laws about the ring, which every caller may rest on.

ghost use Rattle.std.specs.Prelude.{◌≡◌, ◌≢◌, ◌≤◌, ◌<◌, ◌+◌, ◌-◌, ◌==◌, ◌⊎◌, ◌↔◌, ℕ, Bool, Some, None};
ghost use Rattle.ftc_ring.specs.Ring.{RingShape, IsRing, apart, IsMember, next_of, previous_of, tail_of};
ghost use Rattle.ftc_ring.specs.Groups.{group_ending_at};
ghost use Rattle.ftc_ring.specs.Live.{IsLive, IsDown, IsGone, IsAdmissible, IsFirstLive, IsFirstGone, IsLiveBefore};
ghost use Rattle.ftc_ring.specs.Live.{IsLiveAfter, IsAlone, IsBetween, first_live_of, gone_of, live_before_of};
ghost use Rattle.ftc_ring.specs.Live.{live_after_of, source_between, source_of, span};

/// How far servers are apart.
pub fn distances()
    ensures cases { (count one other : ℕ) → one < count → other < count →
        ((one ≤ other) × (apart count one other + one ≡ other))
        ⊎ ((other < one) × (apart count one other + one ≡ other + count)) }
    ensures within { (count one other : ℕ) → one < count → other < count → apart count one other < count }
    ensures itself { (count one : ℕ) → apart count one one ≡ 0 }
    ensures same { (count one other : ℕ) → one < count → other < count → apart count one other ≡ 0 → one ≡ other }
    ensures same_end { (count one other third : ℕ) → one < count → other < count → third < count →
        apart count one other ≡ apart count one third → other ≡ third }
    ensures same_start { (count one other third : ℕ) → one < count → other < count → third < count →
        apart count one third ≡ apart count other third → one ≡ other }
    ensures forward { (count one other : ℕ) → one ≤ other → apart count one other + one ≡ other }
    ensures round { (count one other : ℕ) → one < count → other < count → one ≢ other →
        apart count one other + apart count other one ≡ count }
{}

/// One link on, and one link back.
pub fn steps()
    ensures next_within { (count server : ℕ) → server < count → next_of count server < count }
    ensures previous_within { (count server : ℕ) → server < count → previous_of count server < count }
    ensures previous_next { (count server : ℕ) → server < count → previous_of count (next_of count server) ≡ server }
    ensures next_previous { (count server : ℕ) → server < count → next_of count (previous_of count server) ≡ server }
    ensures farther { (count from to : ℕ) → from < count → to < count → next_of count to ≢ from →
        apart count from (next_of count to) ≡ apart count from to + 1 }
    ensures home { (count from to : ℕ) → from < count → to < count → next_of count to ≡ from →
        apart count from to + 1 ≡ count }
    ensures nearer { (count from to : ℕ) → from < count → to < count → to ≢ from →
        apart count from (previous_of count to) + 1 ≡ apart count from to }
    ensures from_next { (count from to : ℕ) → from < count → to < count → from ≢ to →
        apart count (next_of count from) to + 1 ≡ apart count from to }
    ensures from_previous { (count from to : ℕ) → from < count → to < count → previous_of count from ≢ to →
        apart count (previous_of count from) to ≡ apart count from to + 1 }
{}

/// Distances from one server, and from another.
pub fn origins()
    ensures near { (count first second third : ℕ) → first < count → second < count → third < count →
        apart count first second ≤ apart count first third →
        apart count first second + apart count second third ≡ apart count first third }
    ensures far { (count first second third : ℕ) → first < count → second < count → third < count →
        apart count first third < apart count first second →
        apart count first second + apart count second third ≡ apart count first third + count }
    ensures added { (count first second third : ℕ) → first < count → second < count → third < count →
        apart count first second + apart count second third < count →
        apart count first third ≡ apart count first second + apart count second third }
    ensures on_the_way { (count first second third : ℕ) → first < count → second < count → third < count →
        apart count second third ≤ apart count first third →
        apart count first second + apart count second third ≡ apart count first third }
    ensures ordered { (count from one other : ℕ) → from ≤ one → one ≤ other →
        apart count from one ≤ apart count from other }
    ensures before { (count from one other : ℕ) → one < count → other < count → from ≤ one →
        apart count from other ≤ apart count from one → (from ≤ other) × (other ≤ one) }
{}

/// A server is the last member of the group that ends at it, and of no other.
pub fn ends()
    ensures { (ring : RingShape) (group server : ℕ) → IsRing ring → group < ring.servers → server < ring.servers →
        (group == group_ending_at ring server) ≡ (apart ring.servers group server == ring.failures) }
{}

/// The members of a group.
pub fn groups()
    ensures head { (ring : RingShape) (group : ℕ) → IsMember ring group group }
    ensures tail_within { (ring : RingShape) (group : ℕ) → IsRing ring → group < ring.servers →
        tail_of ring group < ring.servers }
    ensures tail { (ring : RingShape) (group : ℕ) → IsRing ring → group < ring.servers →
        apart ring.servers group (tail_of ring group) ≡ ring.failures }
    ensures tail_alone { (ring : RingShape) (group server : ℕ) → IsRing ring → group < ring.servers →
        server < ring.servers →
        apart ring.servers group server ≡ ring.failures → server ≡ tail_of ring group }
    ensures next { (ring : RingShape) (group server : ℕ) → IsRing ring → group < ring.servers → server < ring.servers →
        IsMember ring group server → server ≢ tail_of ring group →
        IsMember ring group (next_of ring.servers server) × (next_of ring.servers server ≢ group) }
    ensures previous { (ring : RingShape) (group server : ℕ) → IsRing ring → group < ring.servers →
        server < ring.servers →
        IsMember ring group server → server ≢ group →
        IsMember ring group (previous_of ring.servers server) × (previous_of ring.servers server ≢ tail_of ring group) }
    ensures all { (ring : RingShape) (group server : ℕ) → IsRing ring → group < ring.servers → server < ring.servers →
        ring.failures + 1 ≡ ring.servers → IsMember ring group server }
{}

/// What the functions that compute say, and that at most one server or group is meant.
pub fn the_live()
    ensures first_found { (ring : RingShape) (live : ℕ → Bool) (group server : ℕ) → IsRing ring → group < ring.servers →
        (first_live_of ring live group ≡ Some server) ↔ IsFirstLive ring live group server }
    ensures first_none { (ring : RingShape) (live : ℕ → Bool) (group : ℕ) → IsRing ring → group < ring.servers →
        (first_live_of ring live group ≡ None) ↔ IsGone ring live group }
    ensures gone_found { (ring : RingShape) (live : ℕ → Bool) (group : ℕ) → IsRing ring →
        (gone_of ring live ≡ Some group) ↔ IsFirstGone ring live group }
    ensures gone_none { (ring : RingShape) (live : ℕ → Bool) → IsRing ring →
        (gone_of ring live ≡ None) ↔ IsAdmissible ring live }
    ensures before_found { (count : ℕ) (live : ℕ → Bool) (server before : ℕ) → server < count →
        (live_before_of count live server ≡ Some before) ↔ IsLiveBefore count live server before }
    ensures before_none { (count : ℕ) (live : ℕ → Bool) (server : ℕ) → server < count →
        (live_before_of count live server ≡ None) ↔ IsAlone count live server }
    ensures after_found { (count : ℕ) (live : ℕ → Bool) (server after : ℕ) → server < count →
        (live_after_of count live server ≡ Some after) ↔ IsLiveAfter count live server after }
    ensures after_none { (count : ℕ) (live : ℕ → Bool) (server : ℕ) → server < count →
        (live_after_of count live server ≡ None) ↔ IsAlone count live server }
    ensures admissible_not_alone { (ring : RingShape) (live : ℕ → Bool) (server : ℕ) → server < ring.servers →
        IsDown live server →
        IsAdmissible ring live → ¬ IsAlone ring.servers live server }
{}

/// Which sets of down servers leave each group a live member.
pub fn admissible()
    ensures nobody { (ring : RingShape) (live : ℕ → Bool) → IsRing ring →
        ((server : ℕ) → server < ring.servers → IsLive live server) →
        IsAdmissible ring live }
    ensures more { (ring : RingShape) (live more : ℕ → Bool) →
        ((server : ℕ) → server < ring.servers → IsLive live server → IsLive more server) →
        IsAdmissible ring live → IsAdmissible ring more }
    ensures first { (ring : RingShape) (live : ℕ → Bool) (group : ℕ) → IsRing ring → group < ring.servers →
        IsAdmissible ring live →
        (server : ℕ) × (first_live_of ring live group ≡ Some server) × IsFirstLive ring live group server }
{}

/// Where servers stand when server k, which is down, is replaced: r is the nearest live server before
/// it and s the nearest live server after it.
pub fn recoveries()
    ensures between { (count : ℕ) (live : ℕ → Bool) (server before after : ℕ) → server < count → IsDown live server →
        IsLiveBefore count live server before → IsLiveAfter count live server after →
        IsBetween count before after server }
    ensures live_outside { (count : ℕ) (live : ℕ → Bool) (server before after other : ℕ) → server < count →
        IsDown live server →
        IsLiveBefore count live server before → IsLiveAfter count live server after → other < count →
        IsLive live other →
        (other ≡ before) ⊎ (span count before after ≤ apart count before other) }
    ensures between_down { (count : ℕ) (live : ℕ → Bool) (server before after group : ℕ) → server < count →
        IsDown live server →
        IsLiveBefore count live server before → IsLiveAfter count live server after → group < count →
        IsBetween count before after group → IsDown live group }
    ensures after_is_first { (count : ℕ) (live : ℕ → Bool) (server before after group other : ℕ) → server < count →
        IsDown live server →
        IsLiveBefore count live server before → IsLiveAfter count live server after → group < count →
        IsBetween count before after group → other < count → IsLive live other →
        apart count group after ≤ apart count group other }
    ensures after_is_member { (ring : RingShape) (live : ℕ → Bool) (server before after group : ℕ) →
        server < ring.servers → IsDown live server →
        IsLiveBefore ring.servers live server before → IsLiveAfter ring.servers live server after →
        IsAdmissible ring live → group < ring.servers → IsBetween ring.servers before after group →
        IsMember ring group after }
    ensures from_before { (count : ℕ) (live : ℕ → Bool) (server before after group : ℕ) → server < count →
        IsDown live server →
        IsLiveBefore count live server before → IsLiveAfter count live server after → group < count →
        apart count before server ≤ apart count group server →
        apart count group before + apart count before server ≡ apart count group server }
    ensures from_before_live { (count : ℕ) (live : ℕ → Bool) (server before after group other : ℕ) → server < count →
        IsDown live server →
        IsLiveBefore count live server before → IsLiveAfter count live server after → group < count →
        apart count before server ≤ apart count group server →
        other < count → IsLive live other →
        (apart count group other ≤ apart count group before) ⊎ (apart count group server < apart count group other) }
    ensures from_after { (count : ℕ) (live : ℕ → Bool) (server before after group : ℕ) → server < count →
        IsDown live server →
        IsLiveBefore count live server before → IsLiveAfter count live server after → group < count →
        apart count group server < apart count before server →
        IsBetween count before after group × (apart count group server < apart count group after) }
    ensures by_head { (count : ℕ) (live : ℕ → Bool) (server before after group : ℕ) → server < count →
        IsDown live server →
        IsLiveBefore count live server before → IsLiveAfter count live server after → group < count →
        (apart count group server < apart count before server)
        ↔ ((0 < apart count before group) × (apart count before group ≤ apart count before server)) }
    ensures on_the_chain { (count : ℕ) (live : ℕ → Bool) (server before after group other : ℕ) → server < count →
        IsDown live server →
        IsLiveBefore count live server before → IsLiveAfter count live server after → group < count → other < count →
        IsBetween count before after group →
        group ≤ other → ¬ IsBetween count before after other → (group ≤ after) × (after ≤ other) }
    ensures source_found { (ring : RingShape) (live : ℕ → Bool) (server group : ℕ) → server < ring.servers →
        IsDown live server →
        IsAdmissible ring live → group < ring.servers → IsMember ring group server →
        (source : ℕ) × (source_of ring.servers live group server ≡ Some source) × (source < ring.servers)
        × IsLive live source × IsMember ring group source }
{}
