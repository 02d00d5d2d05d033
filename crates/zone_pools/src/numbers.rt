//! The next free number of a pool. No number in use is listed.
ghost use Rattle.std.specs.Prelude.{◌≡◌, ◌+◌, ◌-◌, ◌<◌, ◌≤◌, ◌^◌, is_some, nat_eq};
ghost use Rattle.zone_pools.specs.Owners.{owner};
ghost use Rattle.zone_pools.specs.Pools.{first_free, next_free};

use crate::Owners;

// The least number that isn't used among so many from one on.
fn first_free(used: &Owners<u32>, from: u32, count: u32) -> Option<u32>
    requires { from + count < 2 ^ 32 }
    ensures { result ≡ first_free (λ n. is_some (owner nat_eq used.now n)) from count }
{
    for step in 0..count {
        if !used.is_held(&(from + step)) {
            return Some(from + step);
        }
    }
    None
}

#[tactic(auto, using(crate::proofs::Free_numbers::none_above))]
fn first_above(used: &Owners<u32>, high: u32, last: u32) -> Option<u32>
    requires { high < 2 ^ 31 }
    ensures { result ≡ first_free (λ n. is_some (owner nat_eq used.now n)) (last + 1) (high - last) }
{
    if last < high {
        first_free(used, last + 1, high - last)
    } else {
        None
    }
}

/// The least free number above the last one given, starting again at the lowest after the highest.
pub fn next_free(used: &Owners<u32>, low: u32, high: u32, last: u32) -> Option<u32>
    requires { (low ≤ high) × (high < 2 ^ 31) }
    ensures { result ≡ next_free (λ n. is_some (owner nat_eq used.now n)) low high last }
{
    match first_above(used, high, last) {
        Some(number) => Some(number),
        None => first_free(used, low, high + 1 - low),
    }
}
