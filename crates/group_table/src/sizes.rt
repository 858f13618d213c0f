//! The capacity of n buckets, and the number of buckets for n entries.
ghost use Rattle.std.specs.Prelude.{◌≡◌, ◌<◌, ◌≤◌, IfSome};
ghost use Rattle.group_table.specs.Sizes.{IsBucketCount, full_capacity, buckets_for};

/// Returns how many entries a table may hold: 0 if `buckets` is 0, `buckets` - 1 if `buckets` is at most 8, else seven
/// eighths of `buckets`.
#[inline]
#[tactic(auto, unfolding(crate::specs::Sizes::full_capacity))]
pub fn full_capacity(buckets: usize) -> usize
    ensures { result ≡ full_capacity buckets }
{
    if buckets <= 8 {
        buckets.saturating_sub(1)
    } else {
        buckets / 8 * 7
    }
}

/// Returns the number of buckets for `capacity` entries: 0 if `capacity` is 0, else a power of two below `max`. Returns
/// `None` if no such power is enough, or if 8 * `capacity` overflows.
#[tactic(auto, unfolding(crate::specs::Sizes::buckets_for))]
pub fn buckets_for_capacity(capacity: usize, max: usize) -> Option<usize>
    ensures value { result ≡ buckets_for max capacity }

    ensures below { IfSome result (λ b. 0 < b → b < max) }
    ensures valid { IfSome result IsBucketCount }
    ensures holds { IfSome result (λ b. capacity ≤ full_capacity b) }
{
    if capacity == 0 {
        return Some(0);
    }
    if capacity < 4 {
        return if 4 < max { Some(4) } else { None };
    }
    if capacity < 8 {
        return if 8 < max { Some(8) } else { None };
    }
    let buckets = (capacity.checked_mul(8)? / 7).next_power_of_two();
    if buckets < max { Some(buckets) } else { None }
}
