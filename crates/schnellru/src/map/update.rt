ghost use Rattle.std.specs.Prelude.{◌≡◌, List};
ghost use Rattle.lru_model.specs.Callbacks.{noting_offers, CalledWith};
ghost use Rattle.schnellru.specs.Inside.Passing.{Passes};
ghost use Rattle.lru_model.specs.MayTake.{MayTakeReplaced};
ghost use Rattle.lru_model.specs.State.{IsMap, IsWithin, contents};
ghost use Rattle.lru_model.specs.Updates.{Update, UpdatePasses};

use crate::map::LruMap;
use crate::map::remove::discard;
use lru_limits::{Insertion, KeyHasher, Limiter, LookupKey};
use lru_model::Updated;
use std::hash::Hash;

impl<K: Eq + Hash + Drop, V: Drop, L: Limiter<K, V>, S: KeyHasher<K>> LruMap<K, V, L, S> {
    /// Offers the limiter a new value for a stored key. The entry keeps its place in the order of use.
    ///
    /// If the limiter accepts the value, the oldest entries are evicted while the limiter is over its limit. The
    /// updated entry may be evicted, too. If the limiter rejects the value, the entry is removed. If the key is not
    /// there, nothing changes.
    ///
    /// ```
    /// assert_eq!(rt; map.update(1, 11), Updated::Replaced(10));
    /// assert!(rt; map.peek_oldest() == Some((&1, &11)) && map.update(9, 90) == Updated::Absent(90));
    /// ```
    ///
    /// Cost: `O(1)` expected, and `O(1)` for each entry that is evicted.
    ///
    /// Follows `LinkedHashMap::replace` of the crate `hashlink`.
    pub fn update<I: LookupKey<K> + Drop>(&mut self, key: I, value: V) -> Updated<V>
    where
        L: Insertion<K, V, I>,
        ensures step { Update L.rules L.offers I.names key value self.old result self.new }
        ensures within { (was : V) → result ≡ Updated.Replaced was → IsWithin L.rules (contents self.new) }
        ensures map { IsMap K.eq self.new }
    {
        self.update_with(key, value, &mut discard)
    }
}

impl<K: Eq + Hash, V, L: Limiter<K, V>, S: KeyHasher<K>> LruMap<K, V, L, S> {
    /// Does what `update` does, and passes each evicted entry to the callback, oldest first. If the entry is removed
    /// because its new value is rejected, the callback gets this entry.
    ///
    /// ```
    /// let mut left = None;
    /// map.update_with(2, 21, &mut |key, value| left = Some((key, value)));
    /// assert!(rt; left.is_none() && map.peek(&2) == Some(&21));
    /// ```
    ///
    /// Cost: as `update`, plus the calls of the callback.
    pub fn update_with<I: LookupKey<K> + Drop, F: FnMut(K, V)>(
        &mut self,
        key: I,
        value: V,
        sink: &mut F,
    ) -> Updated<V>
    where
        L: Insertion<K, V, I>,
        requires callable { MayTakeReplaced L.rules F.FnMut L.offers I.names key value (contents self.old) sink.old }
        ensures step { Update L.rules L.offers I.names key value self.old result self.new }
        ensures within { (was : V) → result ≡ Updated.Replaced was → IsWithin L.rules (contents self.new) }
        ensures passed { (passed : List (K × V)) × CalledWith F.FnMut sink.old passed sink.new
            × UpdatePasses L.rules L.offers I.names key value self.old result passed self.new }
        ensures callable { F.IsAlwaysCallable sink.old → F.IsAlwaysCallable sink.new }
        ensures map { IsMap K.eq self.new }
    {
        let updated = self.update_entry(key, value, sink);
        self.show_map();
        updated
    }

    fn update_entry<I: LookupKey<K> + Drop, F: FnMut(K, V)>(
        &mut self,
        key: I,
        value: V,
        sink: &mut F,
    ) -> Updated<V>
    where
        L: Insertion<K, V, I>,
        requires callable { MayTakeReplaced L.rules F.FnMut L.offers I.names key value (contents self.old) sink.old }
        ensures passed { Passes F.FnMut L.rules sink.old sink.new self.old self.new (λ rules old new.
            Update rules (noting_offers L.offers) I.names key value old result new) }
    {
        let b = match self.find(&key) {
            Some(b) => b,
            None => return Updated::Absent(value),
        };
        let (accepted, unkept) = self.offer_at(b, key, value, sink);
        if !accepted {
            return Updated::Rejected(unkept);
        }
        self.evict_over_limit(sink);
        Updated::Replaced(unkept)
    }
}
