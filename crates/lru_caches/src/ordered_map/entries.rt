ghost use Rattle.std.specs.Prelude.{◌≡◌, ◌<◌, ◌^◌, length, reverse, Some, IfSome};
ghost use Rattle.std.specs.Iterator.{at_most, UpTo};
ghost use Rattle.std.specs.Iterator.SizeHint.{IsWithinCount};
ghost use Rattle.std.specs.Map.Iter.{ShowsInOrder, TakesFirst, TakesLast, deref_pair};

use crate::ordered_map::OrderedMap;
use schnellru::{KeyHasher, Walk};
use std::hash::Hash;
use std::iter::FusedIterator;
use std::marker::Model;

/// A double-ended iterator over the entries of an ordered map, oldest first.
///
/// ```
/// let mut entries = map.iter();
/// assert_eq!(rt;
///     (entries.len(), entries.next(), entries.next_back()),
///     (2, Some((&1, &11)), Some((&2, &20)))
/// );
/// ```
#[derive(Drop)]
pub struct Entries<'a, K, V> {
    newest_first: Walk<'a, K, V, usize>,
}

impl<'a, K, V> Model for Entries<'a, K, V> {
    ghost use Rattle.std.specs.Prelude.{List, reverse};

    ghost Value = { List (K × V) };

    ghost view = { λ e. reverse e.newest_first };
}

impl<'a, K, V> Entries<'a, K, V> {
    pub(super) fn new(newest_first: Walk<'a, K, V, usize>) -> Entries<'a, K, V>
        ensures { result ≡ reverse newest_first.entry }
    {
        Entries { newest_first }
    }
}

impl<'a, K, V> Iterator for Entries<'a, K, V> {
    type Item = (&'a K, &'a V);

    ghost next_gives = { TakesFirst deref_pair };

    ghost remaining = { λ s. at_most (length s) };

    fn next(&mut self) -> Option<(&'a K, &'a V)> {
        self.newest_first.next_back()
    }

    fn size_hint(&self) -> (usize, Option<usize>)
        ensures lower { IsWithinCount result.0 (at_most (length self.now)) }
        ensures upper { IfSome result.1 (UpTo (at_most (length self.now))) }
        ensures exact { result ≡ (length self.now, Some (length self.now)) }
    {
        self.newest_first.size_hint()
    }
}

impl<'a, K, V> DoubleEndedIterator for Entries<'a, K, V> {
    ghost next_back_gives = { TakesLast deref_pair };

    fn next_back(&mut self) -> Option<(&'a K, &'a V)> {
        self.newest_first.next()
    }
}

impl<'a, K, V> ExactSizeIterator for Entries<'a, K, V> {
    fn len(&self) -> usize {
        self.newest_first.len()
    }
}

impl<'a, K, V> FusedIterator for Entries<'a, K, V> {}

impl<'a, K: Eq + Hash, V, S: KeyHasher<K>> IntoIterator for &'a OrderedMap<K, V, S> {
    type Item = (&'a K, &'a V);

    type IntoIter = Entries<'a, K, V>;

    ghost into_iter_gives = { λ m r. (r ≡ m.now) × (length m.now < 2 ^ 64)
        × ShowsInOrder (deref_pair {K = K} {X = V}) };

    fn into_iter(self) -> Entries<'a, K, V> {
        self.iter()
    }
}
