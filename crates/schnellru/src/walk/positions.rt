ghost use Rattle.std.specs.Prelude.{◌≡◌, ◌+◌, length, slice_get, Some};
ghost use Rattle.std.specs.Borrow.{sem};
ghost use Rattle.std.specs.Map.Iter.{deref_pair_mut};
ghost use Rattle.lru_model.specs.Lists.{last_of};

use crate::map::LruMap;
use lru_limits::{KeyHasher, Limiter};
use std::hash::Hash;

impl<K: Eq + Hash, V, L: Limiter<K, V>, S: KeyHasher<K>> LruMap<K, V, L, S> {
    ghost use Rattle.schnellru.specs.Lending.Values.{lends_value_at};

    #[inline]
    pub(crate) fn ends(&self) -> (Option<usize>, Option<usize>)
        ensures newest { result.0 ≡ slice_get self.now.table.places 0 }
        ensures oldest { result.1 ≡ last_of (length self.now.pairs) self.now.table.places }
        ensures places { length self.now.table.places ≡ length self.now.pairs }
    {
        if self.entries.len() == 0 {
            return (None, None);
        }
        (Some(self.entries.newest()), Some(self.entries.oldest()))
    }

    #[inline]
    pub(crate) fn older(&self, at: usize, b: usize) -> Option<usize>
        requires { slice_get self.now.table.places at ≡ Some b }
        ensures next { result ≡ slice_get self.now.table.places (at + 1) }
    {
        if self.entries.len() - at > 1 {
            Some(self.entries.older_unless_last(b))
        } else {
            None
        }
    }

    #[inline]
    pub(crate) fn newer(&self, at: usize, b: usize) -> Option<usize>
        requires { slice_get self.now.table.places at ≡ Some b }
        ensures { result ≡ last_of at self.now.table.places }
    {
        if at > 0 {
            Some(self.entries.newer_unless_first(b))
        } else {
            None
        }
    }

    #[inline]
    pub(crate) fn pair_at_mut(&mut self, at: usize, b: usize) -> (&K, &mut V)
        requires { slice_get self.old.table.places at ≡ Some b }
        ensures* writes_back { sem 𝓛
            (lends_value_at K.row V.row L.row S.row L.LinkType.row S.Hasher.row K.Hash L.Limiter
            L.LinkType.LinkType S.KeyHasher S.Hasher.Hasher self.entry at result) }
        ensures value { slice_get self.old.pairs at ≡ Some (deref_pair_mut result) }
    {
        self.entries.pair_mut(b)
    }
}
