ghost use Rattle.std.specs.Prelude.{◌≡◌, ◌++◌, ◌∷◌, length, slice_get, Some, List};
ghost use Rattle.lru_model.specs.ByHash.{Asks};
ghost use Rattle.lru_model.specs.Callbacks.{CalledWith};
ghost use Rattle.lru_model.specs.Calls.{TakesOut};
ghost use Rattle.lru_model.specs.Lists.{last_of};
ghost use Rattle.lru_model.specs.MayTake.{MayTakeEach};
ghost use Rattle.lru_model.specs.Retains.{Retains, RetainPasses};
ghost use Rattle.lru_model.specs.State.{IsMap};

use crate::map::LruMap;
use crate::map::remove::{discard, take_out};
use lru_limits::{KeyHasher, Limiter};
use std::hash::Hash;

impl<K: Eq + Hash + Drop, V: Drop, L: Limiter<K, V>, S: KeyHasher<K>> LruMap<K, V, L, S> {
    /// Removes the entries for which the closure returns false. The other entries keep their order.
    ///
    /// The closure is called with each entry, oldest first. The limiter is notified of each removal.
    ///
    /// ```
    /// map.retain(|_, value| *value > 10);
    /// assert!(rt; map.len() == 2 && !map.contains(&1));
    /// ```
    ///
    /// Cost: `O(n)` for n entries.
    ///
    /// Follows std's `HashMap::retain`, whose closure may write the value.
    pub fn retain<F: FnMut(&K, &V) -> bool>(&mut self, keep: F)
        requires callable { F.IsAlwaysCallable keep }
        ensures step { Retains F.FnMut L.rules keep self.old self.new }
        ensures map { IsMap K.eq self.new }
    {
        self.retain_with(keep, &mut discard);
    }
}

impl<K: Eq + Hash, V, L: Limiter<K, V>, S: KeyHasher<K>> LruMap<K, V, L, S> {
    /// Does what `retain` does, and passes each removed entry to the callback, oldest first.
    ///
    /// ```
    /// let mut removed = 0u64;
    /// map.retain_with(|key, _| *key != 2, &mut |key, _| removed = removed.wrapping_add(key));
    /// assert_eq!(rt; removed, 2);
    /// ```
    ///
    /// Cost: as `retain`, plus the calls of the callback.
    pub fn retain_with<F: FnMut(&K, &V) -> bool, G: FnMut(K, V)>(
        &mut self,
        mut keep: F,
        sink: &mut G,
    )
        requires keep { F.IsAlwaysCallable keep }
        requires callable { MayTakeEach L.rules G.FnMut self.old.pairs sink.old }
        ensures step { Retains F.FnMut L.rules keep self.old self.new }
        ensures passed { (passed : List (K × V)) × CalledWith G.FnMut sink.old passed sink.new
            × RetainPasses L.rules F.FnMut keep self.old passed self.new }
        ensures callable { G.IsAlwaysCallable sink.old → G.IsAlwaysCallable sink.new }
        ensures map { IsMap K.eq self.new }
    {
        let mut left = self.len();
        let (_, mut next) = self.ends();
        'pairs: while let Some(b) = next {
            left -= 1;
            next = self.newer(left, b);
            if !self.passes(left, b, &mut keep) {
                let (key, value) = self.take_from(left, b);
                sink(key, value);
            }
        }
        self.show_map();
    }

    #[inline]
    fn passes<F: FnMut(&K, &V) -> bool>(&self, at: usize, b: usize, keep: &mut F) -> bool
        requires at { slice_get self.now.table.places at ≡ Some b }
        requires callable { F.IsAlwaysCallable keep.old }
        ensures asked { (pair : K × V) × (slice_get self.now.pairs at ≡ Some pair)
            × Asks F.FnMut keep.old pair result keep.new }
        ensures callable { F.IsAlwaysCallable keep.new }
    {
        let (key, value) = self.entries.pair(b);
        keep(key, value)
    }

    #[inline]
    fn take_from(&mut self, at: usize, b: usize) -> (K, V)
        requires { slice_get self.old.table.places at ≡ Some b }
        ensures step { (newer older : List (K × V)) (pair : K × V) → self.old.pairs ≡ newer ++ pair ∷ older →
            length newer ≡ at → TakesOut L.rules (Some pair) (newer ++ older) self.old (Some result) self.new }
        ensures next { last_of at self.new.table.places ≡ last_of at self.old.table.places }
        ensures places { length self.new.table.places ≡ length self.new.pairs }
    {
        take_out(&mut self.entries, &mut self.limiter, b)
    }
}
