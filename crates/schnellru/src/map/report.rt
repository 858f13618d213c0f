ghost use Rattle.std.specs.Prelude.{◌≡◌, ◌+◌, ◌*◌, ◌≤◌};

use crate::map::LruMap;
use lru_limits::{KeyHasher, Limiter};
use lru_model::MoveReport;
use std::hash::Hash;

impl<K: Eq + Hash, V, L: Limiter<K, V>, S: KeyHasher<K>> LruMap<K, V, L, S> {
    /// Returns how many entries inserts moved and stored, and how many `shrink_to_fit` rehashed. Each count stops at
    /// `u64::MAX`.
    ///
    /// `moved` is at most `2 * placed + shrunk`. Cost: `O(1)`.
    ///
    /// ```
    /// let mut map: LruMap<u64, u64> = LruMap::with_limiter(alloc, ByLength::new(3));
    /// assert!(rt; map.insert(1, 10)?);
    /// assert_eq!(rt; map.move_report(), MoveReport { moved: 0, placed: 1, shrunk: 0 });
    /// ```
    pub fn move_report(&self) -> MoveReport
        ensures moved { result.moved ≡ self.now.counts.moved }
        ensures placed { result.placed ≡ self.now.counts.placed }
        ensures shrunk { result.shrunk ≡ self.now.counts.shrunk }
        ensures paid { result.moved ≤ 2 * result.placed + result.shrunk }
    {
        self.show_map();
        MoveReport {
            moved: self.moved,
            placed: self.entries.placed(),
            shrunk: self.shrunk,
        }
    }
}
