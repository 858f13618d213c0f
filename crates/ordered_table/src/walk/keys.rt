ghost use Rattle.std.specs.Prelude.{◌≡◌, length, Some, IfSome, ⊤};
ghost use Rattle.std.specs.Iterator.{at_most, UpTo};
ghost use Rattle.std.specs.Iterator.SizeHint.{IsWithinCount};
ghost use Rattle.std.specs.Map.{keys_of, values_of};
ghost use Rattle.std.specs.Map.Iter.{ShowsInOrder, TakesFirst, TakesLast, deref};
ghost use Rattle.ordered_table.specs.OrderedTable.{pairs_of};

use crate::ordered::OrderedTable;
use crate::walk::Walk;
use group_table::LinkType;
use std::alloc::AllocError;
use std::iter::FusedIterator;
use std::marker::Model;

/// A double-ended iterator over the keys of a table or a map, newest first.
///
/// ```
/// assert!(rt; map.keys().next() == Some(&3) && map.keys().next_back() == Some(&1));
/// ```
#[derive(Drop)]
pub struct Keys<'a, K, V, N: LinkType> {
    walk: Walk<'a, K, V, N>,
}

impl<'a, K, V, N: LinkType> Model for Keys<'a, K, V, N> {
    ghost use Rattle.std.specs.Prelude.{List};
    ghost use Rattle.std.specs.Map.{keys_of};

    ghost Value = { List K };

    ghost view = { λ a. keys_of a.walk };
}

impl<'a, K, V, N: LinkType> Iterator for Keys<'a, K, V, N> {
    type Item = &'a K;

    ghost next_gives = { TakesFirst deref };

    ghost remaining = { λ s. at_most (length s) };

    fn next(&mut self) -> Option<&'a K> {
        match self.walk.next() {
            Some((key, _)) => Some(key),
            None => None,
        }
    }

    fn size_hint(&self) -> (usize, Option<usize>)
        ensures lower { IsWithinCount result.0 (at_most (length self.now)) }
        ensures upper { IfSome result.1 (UpTo (at_most (length self.now))) }
        ensures exact { result ≡ (length self.now, Some (length self.now)) }
    {
        self.walk.size_hint()
    }
}

impl<'a, K, V, N: LinkType> DoubleEndedIterator for Keys<'a, K, V, N> {
    ghost next_back_gives = { TakesLast deref };

    fn next_back(&mut self) -> Option<&'a K> {
        match self.walk.next_back() {
            Some((key, _)) => Some(key),
            None => None,
        }
    }
}

impl<'a, K, V, N: LinkType> ExactSizeIterator for Keys<'a, K, V, N> {
    fn len(&self) -> usize {
        self.walk.len()
    }
}

impl<'a, K, V, N: LinkType> FusedIterator for Keys<'a, K, V, N> {}

/// The clone returns the keys that are left. Cost: `O(1)`, and no memory.
impl<'a, K, V, N: LinkType> Clone for Keys<'a, K, V, N> {
    ghost is_clone = { λ s r. r ≡ s };

    ghost is_infallible = { λ _. ⊤ };

    fn clone(&self) -> Result<Keys<'a, K, V, N>, AllocError> {
        Ok(Keys {
            walk: self.walk.clone()?,
        })
    }
}

/// A double-ended iterator over the values of a table or a map, newest first.
///
/// ```
/// assert!(rt; map.values().next() == Some(&30) && map.values().len() == 3);
/// ```
#[derive(Drop)]
pub struct Values<'a, K, V, N: LinkType> {
    walk: Walk<'a, K, V, N>,
}

impl<'a, K, V, N: LinkType> Model for Values<'a, K, V, N> {
    ghost use Rattle.std.specs.Prelude.{List};
    ghost use Rattle.std.specs.Map.{values_of};

    ghost Value = { List V };

    ghost view = { λ a. values_of a.walk };
}

impl<'a, K, V, N: LinkType> Iterator for Values<'a, K, V, N> {
    type Item = &'a V;

    ghost next_gives = { TakesFirst deref };

    ghost remaining = { λ s. at_most (length s) };

    fn next(&mut self) -> Option<&'a V> {
        match self.walk.next() {
            Some((_, value)) => Some(value),
            None => None,
        }
    }

    fn size_hint(&self) -> (usize, Option<usize>)
        ensures lower { IsWithinCount result.0 (at_most (length self.now)) }
        ensures upper { IfSome result.1 (UpTo (at_most (length self.now))) }
        ensures exact { result ≡ (length self.now, Some (length self.now)) }
    {
        self.walk.size_hint()
    }
}

impl<'a, K, V, N: LinkType> DoubleEndedIterator for Values<'a, K, V, N> {
    ghost next_back_gives = { TakesLast deref };

    fn next_back(&mut self) -> Option<&'a V> {
        match self.walk.next_back() {
            Some((_, value)) => Some(value),
            None => None,
        }
    }
}

impl<'a, K, V, N: LinkType> ExactSizeIterator for Values<'a, K, V, N> {
    fn len(&self) -> usize {
        self.walk.len()
    }
}

impl<'a, K, V, N: LinkType> FusedIterator for Values<'a, K, V, N> {}

impl<'a, K, V, N: LinkType> Clone for Values<'a, K, V, N> {
    ghost is_clone = { λ s r. r ≡ s };

    ghost is_infallible = { λ _. ⊤ };

    fn clone(&self) -> Result<Values<'a, K, V, N>, AllocError> {
        Ok(Values {
            walk: self.walk.clone()?,
        })
    }
}

impl<K, V, N: LinkType> OrderedTable<K, V, N> {
    /// Returns an iterator over the keys, newest first.
    ///
    /// Cost: as `iter`.
    pub fn keys(&self) -> Keys<'_, K, V, N>
        ensures rest { result ≡ keys_of (pairs_of self.now) }
        ensures runs { ShowsInOrder (deref {X = K}) }
    {
        Keys { walk: self.iter() }
    }

    /// Returns an iterator over the values, newest first.
    ///
    /// Cost: as `iter`.
    pub fn values(&self) -> Values<'_, K, V, N>
        ensures rest { result ≡ values_of (pairs_of self.now) }
        ensures runs { ShowsInOrder (deref {X = V}) }
    {
        Values { walk: self.iter() }
    }
}
