ghost use Rattle.std.specs.Prelude.{◌≡◌, List};
ghost use Rattle.lru_model.specs.State.{IsMap, IsWithin, Trims, contents};
ghost use Rattle.lru_model.specs.Callbacks.{CalledWith, TrimPasses};
ghost use Rattle.lru_model.specs.MayTake.{MayTakeEach};

use crate::map::LruMap;
use crate::map::remove::discard;
use lru_limits::{KeyHasher, Limiter};
use std::hash::Hash;
use std::mem;

impl<K: Eq + Hash + Drop, V: Drop, L: Limiter<K, V>, S: KeyHasher<K>> LruMap<K, V, L, S> {
    /// Evicts the oldest entries while the limiter is over its limit.
    ///
    /// Evicts nothing under `ByMemoryUsage`, which is never over its limit.
    ///
    /// ```
    /// *map.limiter_mut() = ByLength::new(1);
    /// map.trim();
    /// assert!(rt; map.len() == 1 && map.contains(&3));
    /// ```
    ///
    /// Cost: `O(1)` for each entry that is evicted.
    ///
    /// Follows Guava's `Cache::cleanUp`.
    pub fn trim(&mut self)
        ensures step { Trims L.rules self.old self.new }
        ensures within { IsWithin L.rules (contents self.new) }
        ensures map { IsMap K.eq self.new }
    {
        self.trim_with(&mut discard);
    }

    /// Sets another limiter, and evicts the oldest entries while the new limiter is over its limit. Returns the old
    /// limiter.
    ///
    /// The running total of a new limiter, such as `ByCost`, must begin as the total cost of the stored entries,
    /// because the limiter is not notified of them. `map.limiter().with_limit(n)` begins with the right total.
    ///
    /// ```
    /// let old = map.set_limiter(ByLength::new(1));
    /// assert!(rt; old.max_length() == 3 && map.len() == 1);
    /// ```
    ///
    /// Cost: `O(1)` for each entry that is evicted.
    ///
    /// Follows `resize` of the crate `lru`.
    pub fn set_limiter(&mut self, limiter: L) -> L
        ensures limiter { result ≡ self.old.limiter }
        ensures step { Trims L.rules (record self.old { limiter = limiter }) self.new }
        ensures within { IsWithin L.rules (contents self.new) }
        ensures map { IsMap K.eq self.new }
    {
        self.set_limiter_with(limiter, &mut discard)
    }
}

impl<K: Eq + Hash, V, L: Limiter<K, V>, S: KeyHasher<K>> LruMap<K, V, L, S> {
    /// Does what `trim` does, and passes each evicted entry to the callback, oldest first.
    ///
    /// ```
    /// let mut evicted = 0u64;
    /// *map.limiter_mut() = ByLength::new(1);
    /// map.trim_with(&mut |key, _| evicted = evicted.wrapping_add(key));
    /// assert_eq!(rt; evicted, 3);
    /// ```
    ///
    /// Cost: as `trim`, plus the calls of the callback.
    pub fn trim_with<F: FnMut(K, V)>(&mut self, sink: &mut F)
        requires callable { MayTakeEach L.rules F.FnMut self.old.pairs sink.old }
        ensures step { Trims L.rules self.old self.new }
        ensures within { IsWithin L.rules (contents self.new) }
        ensures passed { (passed : List (K × V)) × CalledWith F.FnMut sink.old passed sink.new
            × TrimPasses L.rules self.old passed self.new }
        ensures callable { F.IsAlwaysCallable sink.old → F.IsAlwaysCallable sink.new }
        ensures map { IsMap K.eq self.new }
    {
        if !self.is_empty() {
            self.evict_over_limit(sink);
        }
        self.show_map();
    }

    /// Does what `set_limiter` does, and passes each evicted entry to the callback, oldest first.
    ///
    /// ```
    /// let mut evicted = 0u64;
    /// map.set_limiter_with(ByLength::new(1), &mut |key, _| evicted = evicted.wrapping_add(key));
    /// assert_eq!(rt; evicted, 3);
    /// ```
    ///
    /// Cost: as `set_limiter`, plus the calls of the callback.
    pub fn set_limiter_with<F: FnMut(K, V)>(&mut self, limiter: L, sink: &mut F) -> L
        requires callable { MayTakeEach L.rules F.FnMut self.old.pairs sink.old }
        ensures limiter { result ≡ self.old.limiter }
        ensures step { Trims L.rules (record self.old { limiter = limiter }) self.new }
        ensures within { IsWithin L.rules (contents self.new) }
        ensures passed { (passed : List (K × V)) × CalledWith F.FnMut sink.old passed sink.new
            × TrimPasses L.rules (record self.old { limiter = limiter }) passed self.new }
        ensures callable { F.IsAlwaysCallable sink.old → F.IsAlwaysCallable sink.new }
        ensures map { IsMap K.eq self.new }
    {
        let old = mem::replace(&mut self.limiter, limiter);
        self.trim_with(sink);
        old
    }
}
