ghost use Rattle.std.specs.Prelude.{◌≡◌, length, Some, IfSome};
ghost use Rattle.std.specs.Iterator.{at_most, UpTo};
ghost use Rattle.std.specs.Iterator.SizeHint.{IsWithinCount};
ghost use Rattle.std.specs.Map.{keys_of, values_of};
ghost use Rattle.std.specs.Map.Iter.{TakesFirst, TakesLast, deref};

use crate::ordered_map::entries::Entries;
use std::iter::FusedIterator;
use std::marker::Model;

/// A double-ended iterator over the keys of an ordered map, oldest first.
///
/// ```
/// assert!(rt; map.keys().next() == Some(&1) && map.values().next_back() == Some(&20));
/// ```
#[derive(Drop)]
pub struct Keys<'a, K, V> {
    entries: Entries<'a, K, V>,
}

impl<'a, K, V> Model for Keys<'a, K, V> {
    ghost use Rattle.std.specs.Prelude.{List};
    ghost use Rattle.std.specs.Map.{keys_of};

    ghost Value = { List K };

    ghost view = { λ it. keys_of it.entries };
}

impl<'a, K, V> Keys<'a, K, V> {
    pub(super) fn new(entries: Entries<'a, K, V>) -> Keys<'a, K, V>
        ensures { result ≡ keys_of entries.entry }
    {
        Keys { entries }
    }
}

impl<'a, K, V> Iterator for Keys<'a, K, V> {
    type Item = &'a K;

    ghost next_gives = { TakesFirst deref };

    ghost remaining = { λ s. at_most (length s) };

    fn next(&mut self) -> Option<&'a K> {
        match self.entries.next() {
            Some((key, _)) => Some(key),
            None => None,
        }
    }

    fn size_hint(&self) -> (usize, Option<usize>)
        ensures lower { IsWithinCount result.0 (at_most (length self.now)) }
        ensures upper { IfSome result.1 (UpTo (at_most (length self.now))) }
        ensures exact { result ≡ (length self.now, Some (length self.now)) }
    {
        self.entries.size_hint()
    }
}

impl<'a, K, V> DoubleEndedIterator for Keys<'a, K, V> {
    ghost next_back_gives = { TakesLast deref };

    fn next_back(&mut self) -> Option<&'a K> {
        match self.entries.next_back() {
            Some((key, _)) => Some(key),
            None => None,
        }
    }
}

impl<'a, K, V> ExactSizeIterator for Keys<'a, K, V> {
    fn len(&self) -> usize {
        self.entries.len()
    }
}

impl<'a, K, V> FusedIterator for Keys<'a, K, V> {}

/// A double-ended iterator over the values of an ordered map, oldest first.
///
/// ```
/// assert!(rt; map.keys().next() == Some(&1) && map.values().next_back() == Some(&20));
/// ```
#[derive(Drop)]
pub struct Values<'a, K, V> {
    entries: Entries<'a, K, V>,
}

impl<'a, K, V> Model for Values<'a, K, V> {
    ghost use Rattle.std.specs.Prelude.{List};
    ghost use Rattle.std.specs.Map.{values_of};

    ghost Value = { List V };

    ghost view = { λ it. values_of it.entries };
}

impl<'a, K, V> Values<'a, K, V> {
    pub(super) fn new(entries: Entries<'a, K, V>) -> Values<'a, K, V>
        ensures { result ≡ values_of entries.entry }
    {
        Values { entries }
    }
}

impl<'a, K, V> Iterator for Values<'a, K, V> {
    type Item = &'a V;

    ghost next_gives = { TakesFirst deref };

    ghost remaining = { λ s. at_most (length s) };

    fn next(&mut self) -> Option<&'a V> {
        match self.entries.next() {
            Some((_, value)) => Some(value),
            None => None,
        }
    }

    fn size_hint(&self) -> (usize, Option<usize>)
        ensures lower { IsWithinCount result.0 (at_most (length self.now)) }
        ensures upper { IfSome result.1 (UpTo (at_most (length self.now))) }
        ensures exact { result ≡ (length self.now, Some (length self.now)) }
    {
        self.entries.size_hint()
    }
}

impl<'a, K, V> DoubleEndedIterator for Values<'a, K, V> {
    ghost next_back_gives = { TakesLast deref };

    fn next_back(&mut self) -> Option<&'a V> {
        match self.entries.next_back() {
            Some((_, value)) => Some(value),
            None => None,
        }
    }
}

impl<'a, K, V> ExactSizeIterator for Values<'a, K, V> {
    fn len(&self) -> usize {
        self.entries.len()
    }
}

impl<'a, K, V> FusedIterator for Values<'a, K, V> {}
