ghost use Rattle.std.specs.Prelude.{◌≡◌, ◌≤◌, length, slice_get, Some};
ghost use Rattle.lru_model.specs.Lists.{last_of, set_value_at};
ghost use Rattle.lru_model.specs.State.{IsMap};
ghost use Rattle.lru_model.specs.Written.{Writes, WritesAll};

use crate::map::LruMap;
use lru_limits::{KeyHasher, Limiter};
use std::hash::Hash;

/// An iterator over the entries of a map, from both ends.
///
/// ```
/// let mut walk = map.iter_mut();
/// if let Some((_, value)) = walk.next() {
///     *value = 300;
/// }
/// ```
///
/// Follows schnellru's `IterMut`.
#[derive(Drop)]
pub struct IterMut<'a, K: Eq + Hash, V, L: Limiter<K, V>, S: KeyHasher<K>> {
    map: &'a mut LruMap<K, V, L, S>,
    // The entries at the positions from `start` to `end` - 1 remain. The newest entry of the map has position 0.
    // `front` and `back` are the buckets of the first and the last remaining entry, so a step reads one entry.
    start: usize,
    end: usize,
    front: Option<usize>,
    back: Option<usize>,
    ghost within: { end ≤ length map.now.table.places },
    ghost first: { front ≡ slice_get map.now.table.places start },
    ghost last: { back ≡ last_of end map.now.table.places },
}

impl<'a, K: Eq + Hash, V, L: Limiter<K, V>, S: KeyHasher<K>> IterMut<'a, K, V, L, S> {
    ghost use Rattle.std.specs.Prelude.{◌-◌, ◌<◌, option_map};
    ghost use Rattle.std.specs.Borrow.{sem};
    ghost use Rattle.std.specs.Map.Iter.{deref_pair_mut};
    ghost use Rattle.schnellru.specs.Walks.{walk_map, walk_start, walk_end, lends_first, lends_last};
    ghost use Rattle.schnellru.specs.Walks.{lends_next, lends_next_back, next_pair, next_back_pair};

    /// Returns how many entries remain.
    ///
    /// ```
    /// assert_eq!(rt; walk.len(), 1);
    /// ```
    pub fn len(&self) -> usize
        ensures { result ≡ walk_end self.now - walk_start self.now }
    {
        self.end.saturating_sub(self.start)
    }

    /// Lends the newest remaining entry until the next call of the iterator. The value may be written.
    ///
    /// A caller's proof cannot use the clause `writes_back`, so proved code tests `len`, and then calls `lend_next`.
    ///
    /// ```
    /// if let Some((_, value)) = walk.next() {
    ///     *value = 300;
    /// }
    /// ```
    ///
    /// Cost: `O(1)`.
    pub fn next(&mut self) -> Option<(&K, &mut V)>
        ensures* writes_back { sem 𝓛 (lends_next K.row V.row L.row S.row L.LinkType.row S.Hasher.row K.Hash L.Limiter
            L.LinkType.LinkType S.KeyHasher S.Hasher.Hasher self.entry result) }
        ensures value { option_map deref_pair_mut result ≡ next_pair self.old }
    {
        if self.start < self.end {
            return Some(self.lend_next());
        }
        None
    }

    /// Does what `next` does, but lends the oldest remaining entry.
    ///
    /// ```
    /// if let Some((_, value)) = walk.next_back() {
    ///     *value = 100;
    /// }
    /// ```
    ///
    /// Cost: `O(1)`.
    pub fn next_back(&mut self) -> Option<(&K, &mut V)>
        ensures* writes_back { sem 𝓛
            (lends_next_back K.row V.row L.row S.row L.LinkType.row S.Hasher.row K.Hash L.Limiter
            L.LinkType.LinkType S.KeyHasher S.Hasher.Hasher self.entry result) }
        ensures value { option_map deref_pair_mut result ≡ next_back_pair self.old }
    {
        if self.start < self.end {
            return Some(self.lend_next_back());
        }
        None
    }

    /// Does what `next` does. At least one entry must be left.
    ///
    /// ```
    /// let mut walk = map.iter_mut();
    /// if walk.len() > 0 {
    ///     let (_, value) = walk.lend_next();
    ///     *value = 200;
    /// }
    /// ```
    ///
    /// Cost: `O(1)`.
    pub fn lend_next(&mut self) -> (&K, &mut V)
        requires some { walk_start self.old < walk_end self.old }
        ensures* writes_back { sem 𝓛 (lends_first K.row V.row L.row S.row L.LinkType.row S.Hasher.row K.Hash L.Limiter
            L.LinkType.LinkType S.KeyHasher S.Hasher.Hasher self.entry result) }
        ensures value { slice_get (walk_map self.old).pairs (walk_start self.old) ≡ Some (deref_pair_mut result) }
    {
        let at = self.start;
        match self.front {
            Some(b) => {
                self.front = self.map.older(at, b);
                self.start += 1;
                self.map.pair_at_mut(at, b)
            }
            None => nowhere!(),
        }
    }

    /// Does what `next_back` does. At least one entry must be left.
    ///
    /// ```
    /// let mut walk = map.iter_mut();
    /// if walk.len() > 0 {
    ///     let (_, value) = walk.lend_next_back();
    ///     *value = 100;
    /// }
    /// ```
    ///
    /// Cost: `O(1)`.
    #[tactic(auto, using(ordered_table::proofs::Tables::Places::got_in, crate::proofs::Positions::last_place))]
    pub fn lend_next_back(&mut self) -> (&K, &mut V)
        requires some { walk_start self.old < walk_end self.old }
        ensures* writes_back { sem 𝓛 (lends_last K.row V.row L.row S.row L.LinkType.row S.Hasher.row K.Hash L.Limiter
            L.LinkType.LinkType S.KeyHasher S.Hasher.Hasher self.entry result) }
        ensures value { slice_get (walk_map self.old).pairs (walk_end self.old - 1) ≡ Some (deref_pair_mut result) }
    {
        let at = self.end - 1;
        match self.back {
            Some(b) => {
                self.back = self.map.newer(at, b);
                self.end = at;
                self.map.pair_at_mut(at, b)
            }
            None => nowhere!(),
        }
    }
}

impl<K: Eq + Hash, V, L: Limiter<K, V>, S: KeyHasher<K>> LruMap<K, V, L, S> {
    ghost use Rattle.schnellru.specs.Walks.{walk_map, walk_lender, walk_start, walk_end};

    /// Returns an iterator that lends each value for writing, newest first. The order stays.
    ///
    /// `IterMut` is no `Iterator`, so a `for` loop cannot use it. Write `while let Some((key, value)) = walk.next()`,
    /// or call `for_each_mut`.
    ///
    /// ```
    /// let mut walk = map.iter_mut();
    /// if let Some((_, value)) = walk.next() {
    ///     *value = 300;
    /// }
    /// if let Some((_, value)) = walk.next_back() {
    ///     *value = 100;
    /// }
    /// assert_eq!(rt; walk.len(), 1);
    /// ```
    ///
    /// Cost: `O(1)`.
    ///
    /// Follows schnellru's `LruMap::iter_mut`.
    pub fn iter_mut(&mut self) -> IterMut<'_, K, V, L, S>
        ensures map { walk_map result ≡ self.old }
        ensures same_reference { walk_lender result ≡ self.entry.ghost_name }
        ensures start { walk_start result ≡ 0 }
        ensures end { walk_end result ≡ length self.old.pairs }
    {
        let end = self.len();
        let (front, back) = self.ends();
        IterMut {
            map: self,
            start: 0,
            end,
            front,
            back,
        }
    }

    /// Calls the closure with each key and its value, newest first. The order stays.
    ///
    /// ```
    /// map.for_each_mut(|_, value| *value = value.saturating_add(1));
    /// assert_eq!(rt; map.peek(&1), Some(&11));
    /// ```
    ///
    /// Cost: `O(n)` for n entries.
    ///
    /// Follows `Iterator::for_each` over the `iter_mut` of std's `HashMap`.
    pub fn for_each_mut<F: FnMut(&K, &mut V)>(&mut self, mut f: F)
        requires callable { F.IsAlwaysCallable f }
        ensures step { WritesAll F.FnMut f self.old self.new }
        ensures map { IsMap K.eq self.new }
    {
        self.settle();
        // Shows the prover that a position fits a `usize`.
        let _ = self.len();
        let (mut next, _) = self.ends();
        let mut at = 0;
        'pairs: while let Some(b) = next {
            next = self.older(at, b);
            self.write_at(at, b, &mut f);
            at += 1;
        }
        self.show_map();
    }

    #[inline]
    fn write_at<F: FnMut(&K, &mut V)>(&mut self, at: usize, b: usize, f: &mut F)
        requires at { slice_get self.old.table.places at ≡ Some b }
        requires callable { F.IsAlwaysCallable f.old }
        ensures writes { (pair : K × V) × (w : V) × (slice_get self.old.pairs at ≡ Some pair)
            × Writes F.FnMut f.old pair w f.new
            × (self.new ≡ record self.old { pairs = set_value_at self.old.pairs at w }) }
        ensures callable { F.IsAlwaysCallable f.new }
    {
        let (key, value) = self.pair_at_mut(at, b);
        f(key, value);
    }
}
