ghost use Rattle.std.specs.Prelude.{◌≡◌, ◌<◌, length, Some, IfSome};
ghost use Rattle.std.specs.Iterator.{at_most, UpTo};
ghost use Rattle.std.specs.Iterator.SizeHint.{IsWithinCount};
ghost use Rattle.std.specs.Map.Iter.{TakesFirst, TakesLast};

use crate::ordered_map::OrderedMap;
use schnellru::KeyHasher;
use std::hash::Hash;
use std::iter::FusedIterator;
use std::marker::Model;

/// A double-ended iterator that takes out the entries of an ordered map, oldest first. Dropping the iterator drops the
/// remaining entries.
///
/// ```
/// let mut entries = map.into_iter();
/// assert_eq!(rt; (entries.len(), entries.next(), entries.next_back()), (2, Some((1, 11)), Some((2, 20))));
/// ```
#[derive(Drop)]
pub struct IntoEntries<K: Eq + Hash, V, S: KeyHasher<K>> {
    map: OrderedMap<K, V, S>,
}

impl<K: Eq + Hash, V, S: KeyHasher<K>> Model for IntoEntries<K, V, S> {
    ghost use Rattle.std.specs.Prelude.{List};

    ghost Value = { List (K × V) };

    ghost view = { λ e. e.map };
}

impl<K: Eq + Hash + Drop, V: Drop, S: KeyHasher<K> + Drop> Iterator for IntoEntries<K, V, S> {
    type Item = (K, V);

    ghost next_gives = { TakesFirst (λ entry. entry) };

    ghost remaining = { λ s. at_most (length s) };

    fn next(&mut self) -> Option<(K, V)> {
        self.map.pop_first()
    }

    fn size_hint(&self) -> (usize, Option<usize>)
        ensures lower { IsWithinCount result.0 (at_most (length self.now)) }
        ensures upper { IfSome result.1 (UpTo (at_most (length self.now))) }
        ensures exact { result ≡ (length self.now, Some (length self.now)) }
    {
        let len = self.map.len();
        (len, Some(len))
    }
}

impl<K: Eq + Hash + Drop, V: Drop, S: KeyHasher<K> + Drop> DoubleEndedIterator
    for IntoEntries<K, V, S> {
    ghost next_back_gives = { TakesLast (λ entry. entry) };

    fn next_back(&mut self) -> Option<(K, V)> {
        self.map.pop_last()
    }
}

impl<K: Eq + Hash + Drop, V: Drop, S: KeyHasher<K> + Drop> ExactSizeIterator
    for IntoEntries<K, V, S> {
    fn len(&self) -> usize {
        self.map.len()
    }
}

impl<K: Eq + Hash + Drop, V: Drop, S: KeyHasher<K> + Drop> FusedIterator for IntoEntries<K, V, S> {}

/// `for (key, value) in map` takes the entries out, oldest first.
impl<K: Eq + Hash + Drop, V: Drop, S: KeyHasher<K> + Drop> IntoIterator for OrderedMap<K, V, S> {
    type Item = (K, V);

    type IntoIter = IntoEntries<K, V, S>;

    ghost into_iter_gives = { λ m r. r ≡ m };

    fn into_iter(self) -> IntoEntries<K, V, S> {
        IntoEntries { map: self }
    }
}
