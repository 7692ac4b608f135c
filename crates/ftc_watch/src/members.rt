//! The servers of a tick line.

ghost use Rattle.std.specs.Prelude.{◌≡◌, nat_lt, true};
ghost use Rattle.std.specs.List.{list_all};
ghost use Rattle.ftc_base.specs.declared.limits.TheConstants.{MOST_SERVERS};
ghost use Rattle.ftc_watch.specs.Members.{set_of, rises_from, are_below};

use ftc_base::ServerSet;

/// Whether all numbers are below a bound.
pub fn are_below(bound: u8, numbers: &[u32]) -> bool
    ensures { result ≡ are_below bound numbers.now }
{
    numbers.iter().all(|number| *number < u32::from(bound))
}

/// Whether each number is above the one before.
pub fn rises(numbers: &[u32]) -> bool
    ensures { result ≡ rises_from 0 numbers.now }
{
    let mut least: u64 = 0;
    for number in numbers {
        let number = u64::from(*number);
        if number < least {
            return false;
        }
        least = number + 1;
    }
    true
}

/// The set of some servers.
pub fn set_of(numbers: &[u32]) -> ServerSet
    requires { are_below MOST_SERVERS numbers.now ≡ true }
    ensures { result ≡ set_of numbers.now }
{
    let mut set = ServerSet::new();
    for number in numbers {
        set = set.with(*number as u8);
    }
    set
}
