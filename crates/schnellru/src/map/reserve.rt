ghost use Rattle.std.specs.Prelude.{◌≡◌, ◌+◌, ◌/◌, ◌<◌, ◌≤◌, length, OnOk};
ghost use Rattle.group_table.specs.Sizes.{full_capacity};
ghost use Rattle.lru_model.specs.State.{buckets, growth_left, IsMap};
ghost use Rattle.lru_model.specs.Reservations.{NeedsGrowthFor, Reserve};

use crate::map::LruMap;
use group_table::full_capacity;
use lru_limits::{KeyHasher, Limiter};
use lru_model::ReserveError;
use std::hash::Hash;

impl<K: Eq + Hash, V, L: Limiter<K, V>, S: KeyHasher<K>> LruMap<K, V, L, S> {
    /// Reserves growth for n more entries: afterwards `guaranteed_capacity` is at least `len` + n.
    ///
    /// The entries and the counts of `move_report` stay. If enough growth is left, nothing happens. Otherwise, if
    /// `len` + n is at most half of the entries that the table may hold, the table is rehashed, and keeps its size. If
    /// `len` + n is more, the limiter is queried for a larger table.
    ///
    /// ```
    /// let mut map: LruMap<u64, u64, UnlimitedCompact> = LruMap::default(alloc);
    /// assert_eq!(rt; map.try_reserve(7), Ok(()));
    /// assert_eq!(rt; (map.guaranteed_capacity(), map.len()), (7, 0));
    /// ```
    ///
    /// Cost: `O(1)` if there is enough growth left, else `O(old buckets + new buckets)`.
    ///
    /// # Errors
    ///
    /// After an error, the entries and the table are unchanged.
    ///
    /// - `TooLarge`: `len` + n overflows, or the table would need more buckets than the links permit, or more than
    ///   `isize::MAX - 15` bytes. The map does not rehash its table instead, even if the entries would fit after a
    ///   rehash.
    ///
    /// - `Refused`: the limiter refused the larger table.
    ///
    /// - `Memory`: out of memory.
    ///
    /// After `Refused` and `Memory`, the limiter stays as `on_grow` left it.
    ///
    /// Follows schnellru's `LruMap::try_reserve`.
    pub fn try_reserve(&mut self, n: usize) -> Result<(), ReserveError>
        ensures step { Reserve L.rules n self.old result self.new }
        ensures pairs { self.new.pairs ≡ self.old.pairs }
        ensures growth_left { OnOk result (n ≤ growth_left self.new) }
        ensures map { IsMap K.eq self.new }
    {
        let pairs = match self.len().checked_add(n) {
            Some(pairs) => pairs,
            None => return Err(ReserveError::TooLarge),
        };
        if n <= self.growth_left() {
            return Ok(());
        }
        let buckets = self.bucket_count();
        if full_capacity(buckets) / 2 < pairs {
            return self.reserve_larger(n);
        }
        match self.move_to(buckets) {
            Ok(()) => Ok(()),
            Err(_) => Err(ReserveError::Memory),
        }
    }

    fn reserve_larger(&mut self, n: usize) -> Result<(), ReserveError>
        requires needs_growth { NeedsGrowthFor n self.old }
        requires half { full_capacity (buckets self.old) / 2 < length self.old.pairs + n }
        ensures step { Reserve L.rules n self.old result self.new }
        ensures map { IsMap K.eq self.new }
    {
        match self.next_table(n) {
            Some((count, bytes)) => {
                if !self.limiter.on_grow(bytes) {
                    return Err(ReserveError::Refused);
                }
                match self.move_to(count) {
                    Ok(()) => Ok(()),
                    Err(_) => Err(ReserveError::Memory),
                }
            }
            None => Err(ReserveError::TooLarge),
        }
    }
}
