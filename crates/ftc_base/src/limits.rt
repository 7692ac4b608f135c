//! The limits of a chain and of its texts. What is named `MOST_` is the greatest number that is accepted.

ghost use Rattle.std.specs.Prelude.{◌≡◌};

/// Servers of a chain.
pub const MOST_SERVERS: u8 = 16;

/// Partitions of a middlebox's keys.
pub const MOST_PARTITIONS: u8 = 64;

/// Slots in which a server runs packet transactions.
pub const MOST_SLOTS: u8 = 64;

/// The slot in which a run on one thread makes its visits.
pub const FINISHING_SLOT: u8 = 63;

/// How many numbers a set may have as members: those below this one.
pub const MOST_MEMBERS: u8 = 64;

/// Worker threads.
pub const MOST_THREADS: u8 = 32;

/// Bytes of a key, which has at least one.
pub const MOST_KEY_BYTES: usize = 16;

/// Bytes of a value.
pub const MOST_VALUE_BYTES: usize = 16;

/// Reads of one transaction.
pub const MOST_READS: usize = 8;

/// Writes of one transaction.
pub const MOST_WRITES: usize = 8;

/// Records of a capture.
pub const MOST_RECORDS: usize = 100_000;

/// Captured bytes of one record.
pub const MOST_CAPTURED: usize = 262_144;

/// Bytes of a capture.
pub const MOST_CAPTURE_BYTES: usize = 67_108_864;

/// Bytes of a script.
pub const MOST_SCRIPT_BYTES: usize = 1_048_576;

/// A number that a word of a text spells.
pub const MOST_NUMBER: u32 = 4_294_967_295;

/// Lines of a firewall.
pub const MOST_FIREWALL_LINES: usize = 64;

/// Backends of a balancer.
pub const MOST_BACKENDS: usize = 16;

/// Groups of a monitor.
pub const MOST_MONITOR_GROUPS: u16 = 256;

/// The limits, as numbers.
pub fn law_of_limits()
    ensures servers { MOST_SERVERS ≡ 16 }
    ensures partitions { MOST_PARTITIONS ≡ 64 }
    ensures slots { MOST_SLOTS ≡ 64 }
    ensures finishing { FINISHING_SLOT ≡ 63 }
    ensures members { MOST_MEMBERS ≡ 64 }
    ensures threads { MOST_THREADS ≡ 32 }
    ensures key { MOST_KEY_BYTES ≡ 16 }
    ensures value { MOST_VALUE_BYTES ≡ 16 }
    ensures reads { MOST_READS ≡ 8 }
    ensures writes { MOST_WRITES ≡ 8 }
    ensures records { MOST_RECORDS ≡ 100000 }
    ensures captured { MOST_CAPTURED ≡ 262144 }
    ensures capture { MOST_CAPTURE_BYTES ≡ 67108864 }
    ensures script { MOST_SCRIPT_BYTES ≡ 1048576 }
    ensures number { MOST_NUMBER ≡ 4294967295 }
    ensures firewall { MOST_FIREWALL_LINES ≡ 64 }
    ensures backends { MOST_BACKENDS ≡ 16 }
    ensures groups { MOST_MONITOR_GROUPS ≡ 256 }
{}
