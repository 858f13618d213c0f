ghost use Rattle.std.specs.Prelude.{◌≡◌, length, Some, IfSome};
ghost use Rattle.std.specs.Iterator.{at_most, UpTo};
ghost use Rattle.std.specs.Iterator.SizeHint.{IsWithinCount};
ghost use Rattle.lru_model.specs.Calls.{PopNewest, PopOldest};

use crate::map::LruMap;
use lru_limits::{KeyHasher, Limiter};
use std::hash::Hash;
use std::iter::FusedIterator;
use std::marker::Model;

/// An iterator that owns a map, and takes its entries out from both ends. `next` takes the newest entry.
///
/// Dropping the iterator drops the remaining entries without notifying the limiter.
///
/// ```
/// assert_eq!(rt; map.into_iter().next_back(), Some((1, 10)));
/// ```
#[derive(Drop)]
pub struct IntoIter<K: Eq + Hash, V, L: Limiter<K, V>, S: KeyHasher<K>> {
    map: LruMap<K, V, L, S>,
}

impl<K: Eq + Hash, V, L: Limiter<K, V>, S: KeyHasher<K>> Model for IntoIter<K, V, L, S> {
    ghost use Rattle.lru_model.specs.State.{State};

    ghost Value = { State K V L S };

    ghost view = { λ a. a.map };
}

impl<K: Eq + Hash + Drop, V: Drop, L: Limiter<K, V> + Drop, S: KeyHasher<K> + Drop> Iterator
    for IntoIter<K, V, L, S> {
    type Item = (K, V);

    ghost next_gives = { PopNewest L.rules };

    ghost remaining = { λ s. at_most (length s.pairs) };

    fn next(&mut self) -> Option<(K, V)> {
        self.map.pop_newest()
    }

    fn size_hint(&self) -> (usize, Option<usize>)
        ensures lower { IsWithinCount result.0 (at_most (length self.now.pairs)) }
        ensures upper { IfSome result.1 (UpTo (at_most (length self.now.pairs))) }
        ensures exact { result ≡ (length self.now.pairs, Some (length self.now.pairs)) }
    {
        let len = self.map.len();
        (len, Some(len))
    }
}

impl<
    K: Eq + Hash + Drop,
    V: Drop,
    L: Limiter<K, V> + Drop,
    S: KeyHasher<K> + Drop,
> DoubleEndedIterator for IntoIter<K, V, L, S> {
    ghost next_back_gives = { PopOldest L.rules };

    fn next_back(&mut self) -> Option<(K, V)> {
        self.map.pop_oldest()
    }
}

impl<
    K: Eq + Hash + Drop,
    V: Drop,
    L: Limiter<K, V> + Drop,
    S: KeyHasher<K> + Drop,
> ExactSizeIterator for IntoIter<K, V, L, S> {
    fn len(&self) -> usize {
        self.map.len()
    }
}

impl<K: Eq + Hash + Drop, V: Drop, L: Limiter<K, V> + Drop, S: KeyHasher<K> + Drop> FusedIterator
    for IntoIter<K, V, L, S> {}

/// `for (key, value) in map` takes the entries out, newest first.
impl<K: Eq + Hash + Drop, V: Drop, L: Limiter<K, V> + Drop, S: KeyHasher<K> + Drop> IntoIterator
    for LruMap<K, V, L, S> {
    type Item = (K, V);

    type IntoIter = IntoIter<K, V, L, S>;

    ghost into_iter_gives = { λ m r. r ≡ m };

    fn into_iter(self) -> IntoIter<K, V, L, S> {
        IntoIter { map: self }
    }
}
