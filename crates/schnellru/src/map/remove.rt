//! Removals, pops, a clear and evictions. Each of these calls notifies the limiter.
ghost use Rattle.std.specs.Prelude.{◌≡◌, ℕ, ◌<◌, true, not, ◌∷◌, length, Some, IfSome};
ghost use Rattle.group_table.specs.Bucket.{IsFull};
ghost use Rattle.lru_model.specs.Lists.{is_empty, first, last};
ghost use Rattle.lru_model.specs.State.{place_in, contents, notified_of, trim, Frees, Leaves, IsMap};
ghost use Rattle.lru_model.specs.Calls.{left_of, Remove, RemoveEntry, PopOldest, PopNewest, cleared};
ghost use Rattle.lru_model.specs.Inserts.{make_room};
ghost use Rattle.lru_model.specs.MayTake.{MayTakeEach};
ghost use Rattle.ordered_table.specs.OrderedTable.{IsLinked, KeysFit};
ghost use Rattle.schnellru.specs.Inside.Passing.{Passes};
ghost use Rattle.schnellru.specs.Inside.Steps.{IsTakenOut};

use crate::map::LruMap;
use lru_limits::{KeyHasher, Limiter, LookupKey};
use ordered_table::OrderedTable;
use std::hash::Hash;

impl<K: Eq + Hash, V, L: Limiter<K, V>, S: KeyHasher<K>> LruMap<K, V, L, S> {
    /// Removes and returns the oldest entry, if there is one.
    ///
    /// ```
    /// assert_eq!(rt; map.pop_oldest(), Some((1, 10)));
    /// ```
    ///
    /// Cost: `O(1)`.
    ///
    /// Follows schnellru's `LruMap::pop_oldest`.
    #[inline]
    pub fn pop_oldest(&mut self) -> Option<(K, V)>
        ensures step { PopOldest L.rules self.old result self.new }
        ensures freed { IfSome result (λ _. Frees (last self.old.table.places) self.old.table self.new.table) }
        ensures map { IsMap K.eq self.new }
    {
        if self.is_empty() {
            self.show_map();
            return None;
        }
        Some(self.take_oldest())
    }

    /// Removes and returns the newest entry, if there is one.
    ///
    /// ```
    /// assert_eq!(rt; map.pop_newest(), Some((3, 30)));
    /// ```
    ///
    /// Cost: `O(1)`.
    ///
    /// Follows schnellru's `LruMap::pop_newest`.
    pub fn pop_newest(&mut self) -> Option<(K, V)>
        ensures step { PopNewest L.rules self.old result self.new }
        ensures freed { IfSome result (λ _. Frees (first self.old.table.places) self.old.table self.new.table) }
        ensures map { IsMap K.eq self.new }
    {
        if self.is_empty() {
            return None;
        }
        let b = self.entries.newest();
        Some(take_out(&mut self.entries, &mut self.limiter, b))
    }

    /// Removes a key. Returns the stored key and its value.
    ///
    /// ```
    /// assert_eq!(rt; map.remove_entry(&1), Some((1, 10)));
    /// assert_eq!(rt; map.remove_entry(&1), None);
    /// ```
    ///
    /// Cost: `O(1)` expected.
    ///
    /// Follows std's `HashMap::remove_entry`.
    #[inline]
    pub fn remove_entry<Q: LookupKey<K>>(&mut self, key: &Q) -> Option<(K, V)>
        ensures step { RemoveEntry L.rules (Q.names key.now) self.old result self.new }
        ensures freed { IfSome result (λ _.
            Frees (place_in (Q.names key.now) self.old) self.old.table self.new.table) }
        ensures map { IsMap K.eq self.new }
    {
        let b = self.find(key)?;
        Some(self.take_at(b))
    }
}

impl<K: Eq + Hash + Drop, V, L: Limiter<K, V>, S: KeyHasher<K>> LruMap<K, V, L, S> {
    /// Removes a key. Returns its value. The other entries keep their order.
    ///
    /// ```
    /// assert_eq!(rt; map.remove(&1), Some(10));
    /// assert_eq!(rt; map.remove(&1), None);
    /// ```
    ///
    /// Cost: `O(1)` expected.
    ///
    /// Follows schnellru's `LruMap::remove`.
    #[inline]
    pub fn remove<Q: LookupKey<K>>(&mut self, key: &Q) -> Option<V>
        ensures step { Remove L.rules (Q.names key.now) self.old result self.new }
        ensures freed { IfSome result (λ _.
            Frees (place_in (Q.names key.now) self.old) self.old.table self.new.table) }
        ensures map { IsMap K.eq self.new }
    {
        let (_, value) = self.remove_entry(key)?;
        Some(value)
    }
}

impl<K: Eq + Hash + Drop, V: Drop, L: Limiter<K, V>, S: KeyHasher<K>> LruMap<K, V, L, S> {
    /// Drops all entries. Notifies the limiter of the clear, even if the map is empty, but not of each entry. The table
    /// keeps its buckets.
    ///
    /// ```
    /// map.clear();
    /// assert_eq!(rt; (map.len(), map.guaranteed_capacity()), (0, 3));
    /// ```
    ///
    /// Cost: `O(buckets)`, even if there are few entries; `O(1)` if every bucket is empty.
    ///
    /// Follows schnellru's `LruMap::clear`.
    pub fn clear(&mut self)
        ensures step { self.new ≡ cleared L.rules self.old }
        ensures map { IsMap K.eq self.new }
    {
        self.entries.clear();
        self.limiter.on_cleared();
    }
}

impl<K: Eq + Hash, V, L: Limiter<K, V>, S: KeyHasher<K>> LruMap<K, V, L, S> {
    #[inline(always)]
    pub(super) fn take_oldest(&mut self) -> (K, V)
        requires { 0 < length self.old.pairs }
        ensures step { PopOldest L.rules self.old (Some result) self.new }
        ensures freed { Frees (last self.old.table.places) self.old.table self.new.table }
        ensures map { IsMap K.eq self.new }
    {
        take_out_oldest(&mut self.entries, &mut self.limiter)
    }

    #[inline]
    pub(super) fn make_room<F: FnMut(K, V)>(&mut self, sink: &mut F)
        requires callable { (pair : K × V) × MayTakeEach L.rules F.FnMut (pair ∷ self.old.pairs) sink.old }
        ensures passed { Passes F.FnMut L.rules sink.old sink.new self.old self.new (λ rules old new.
            Leaves old (make_room rules (contents old)) new) }
        ensures callable { (pair : K × V) → MayTakeEach L.rules F.FnMut (pair ∷ self.old.pairs) sink.old →
            MayTakeEach L.rules F.FnMut (pair ∷ self.new.pairs) sink.new }
    {
        if !self.is_empty() && self.limiter.is_over_the_limit(self.entries.len() + 1) {
            let (key, value) = self.take_oldest();
            sink(key, value);
        }
    }

    #[inline]
    pub(super) fn evict_over_limit<F: FnMut(K, V)>(&mut self, sink: &mut F) -> bool
        requires some { 0 < length self.old.pairs }
        requires callable { MayTakeEach L.rules F.FnMut self.old.pairs sink.old }
        ensures left { result ≡ not (is_empty self.new.pairs) }
        ensures passed { Passes F.FnMut L.rules sink.old sink.new self.old self.new (λ rules old new.
            Leaves old (trim rules (contents old)) new) }
    {
        if self.is_over_the_limit() {
            self.evict_while_over(sink)
        } else {
            true
        }
    }

    // Out of line, so that an insert's code does not contain the evictions.
    #[inline(never)]
    fn evict_while_over<F: FnMut(K, V)>(&mut self, sink: &mut F) -> bool
        requires some { 0 < length self.old.pairs }
        requires over { L.rules.is_over_the_limit self.old.limiter (length self.old.pairs) ≡ true }
        requires callable { MayTakeEach L.rules F.FnMut self.old.pairs sink.old }
        ensures left { result ≡ not (is_empty self.new.pairs) }
        ensures passed { Passes F.FnMut L.rules sink.old sink.new self.old self.new (λ rules old new.
            Leaves old (trim rules (contents old)) new) }
    {
        'evictions: loop {
            let (key, value) = self.take_oldest();
            sink(key, value);
            if self.is_empty() {
                return false;
            }
            if !self.is_over_the_limit() {
                return true;
            }
        }
    }
}

#[inline]
pub(super) fn take_out<K: Eq + Hash, V, L: Limiter<K, V>>(
    entries: &mut OrderedTable<K, V, L::LinkType>,
    limiter: &mut L,
    b: usize,
) -> (K, V)
    requires { IsFull entries.old.slots b }
    ensures taken { IsTakenOut L.rules b entries.old entries.new limiter.old result limiter.new }
    ensures linked { IsLinked entries.new }
    ensures fits { (hash_of : K → ℕ) → KeysFit hash_of entries.old.slots → KeysFit hash_of entries.new.slots }
{
    notify(limiter, entries.take(b))
}

#[inline(always)]
fn take_out_oldest<K: Eq + Hash, V, L: Limiter<K, V>>(
    entries: &mut OrderedTable<K, V, L::LinkType>,
    limiter: &mut L,
) -> (K, V)
    requires { 0 < length entries.old.order }
    ensures taken { (b : ℕ) × (last entries.old.order ≡ Some b)
        × IsTakenOut L.rules b entries.old entries.new limiter.old result limiter.new }
    ensures linked { IsLinked entries.new }
    ensures fits { (hash_of : K → ℕ) → KeysFit hash_of entries.old.slots → KeysFit hash_of entries.new.slots }
{
    notify(limiter, entries.take_oldest())
}

#[inline]
pub(super) fn notify<K, V, L: Limiter<K, V>>(limiter: &mut L, pair: (K, V)) -> (K, V)
    ensures limiter { limiter.new ≡ notified_of L.rules (Some pair) limiter.old }
    ensures pair { Some result ≡ left_of L.rules limiter.old (Some pair) }
{
    let (mut key, mut value) = pair;
    limiter.on_removed(&mut key, &mut value);
    (key, value)
}

// The callback of calls that have no parameter for a callback. Drops the key, and then the value. Parameters without a
// name would be dropped in the opposite order.
pub(crate) fn discard<K: Drop, V: Drop>(key: K, value: V) {
    drop(key);
    drop(value);
}
