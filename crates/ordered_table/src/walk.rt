ghost use Rattle.std.specs.Prelude.{◌≡◌, ◌<◌, ◌^◌, length, Some, IfSome, ⊤};
ghost use Rattle.std.specs.Iterator.{at_most, UpTo};
ghost use Rattle.std.specs.Iterator.SizeHint.{IsWithinCount};
ghost use Rattle.std.specs.Map.Iter.{ShowsInOrder, ShowsInReverse, TakesFirst, TakesLast, deref_pair};
ghost use Rattle.ordered_table.specs.OrderedTable.{IsLinked, pairs_of};

use crate::ordered::OrderedTable;
use group_table::LinkType;
use std::alloc::AllocError;
use std::fmt;
use std::iter::FusedIterator;
use std::marker::Model;

pub(crate) mod keys;

/// A double-ended iterator over the entries of a table or a map, newest first.
///
/// ```
/// let mut walk = map.iter();
/// assert!(rt; walk.next_back() == Some((&1, &10)) && walk.len() == 2);
/// ```
#[derive(Drop)]
pub struct Walk<'a, K, V, N: LinkType> {
    entries: &'a OrderedTable<K, V, N>,
    // The buckets of the first and the last remaining entry, and the number of remaining entries.
    front: usize,
    back: usize,
    left: usize,
}

impl<'a, K, V, N: LinkType> Model for Walk<'a, K, V, N> {
    ghost use Rattle.std.specs.Prelude.{List};
    ghost use Rattle.ordered_table.specs.Rest.{rest_of, IsRest};

    ghost Value = { List (K × V) };

    ghost view = { λ a. rest_of a.entries.now a.front a.left };

    ghost invariant = { λ a. IsRest a.entries.now a.front a.back a.left };
}

impl<'a, K, V, N: LinkType> Iterator for Walk<'a, K, V, N> {
    type Item = (&'a K, &'a V);

    ghost next_gives = { TakesFirst deref_pair };

    ghost remaining = { λ s. at_most (length s) };

    #[inline]
    fn next(&mut self) -> Option<(&'a K, &'a V)> {
        if self.left == 0 {
            return None;
        }
        let b = self.front;
        let pair = self.entries.pair(b);
        self.front = self.entries.older_unless_last(b);
        self.left -= 1;
        Some(pair)
    }

    fn size_hint(&self) -> (usize, Option<usize>)
        ensures lower { IsWithinCount result.0 (at_most (length self.now)) }
        ensures upper { IfSome result.1 (UpTo (at_most (length self.now))) }
        ensures exact { result ≡ (length self.now, Some (length self.now)) }
    {
        (self.left, Some(self.left))
    }
}

impl<'a, K, V, N: LinkType> DoubleEndedIterator for Walk<'a, K, V, N> {
    ghost next_back_gives = { TakesLast deref_pair };

    #[inline]
    fn next_back(&mut self) -> Option<(&'a K, &'a V)> {
        if self.left == 0 {
            return None;
        }
        let b = self.back;
        let pair = self.entries.pair(b);
        self.back = self.entries.newer_unless_first(b);
        self.left -= 1;
        Some(pair)
    }
}

impl<'a, K, V, N: LinkType> ExactSizeIterator for Walk<'a, K, V, N> {
    fn len(&self) -> usize {
        self.left
    }
}

impl<'a, K, V, N: LinkType> FusedIterator for Walk<'a, K, V, N> {}

impl<'a, K, V, N: LinkType> Clone for Walk<'a, K, V, N> {
    ghost is_clone = { λ s r. r ≡ s };

    ghost is_infallible = { λ _. ⊤ };

    fn clone(&self) -> Result<Walk<'a, K, V, N>, AllocError> {
        Ok(Walk {
            entries: self.entries,
            front: self.front,
            back: self.back,
            left: self.left,
        })
    }
}

/// Shows the entries that are left, newest first, as `[(2, 20), (1, 10)]`.
impl<'a, K: fmt::Debug, V: fmt::Debug, N: LinkType> fmt::Debug for Walk<'a, K, V, N> {
    fn fmt<W: fmt::Write>(&self, f: &mut fmt::Formatter<W>) -> fmt::Result {
        let left = Walk {
            entries: self.entries,
            front: self.front,
            back: self.back,
            left: self.left,
        };
        f.debug_list().entries(left).finish()
    }
}

impl<K, V, N: LinkType> OrderedTable<K, V, N> {
    /// Returns an iterator over the entries, newest first.
    ///
    /// Cost: `O(1)`, and `O(1)` for each step from either end.
    pub fn iter(&self) -> Walk<'_, K, V, N>
        ensures rest { result ≡ pairs_of self.now }
        ensures runs { ShowsInOrder (deref_pair {K = K} {X = V}) }
        ensures runs_back { ShowsInReverse (deref_pair {K = K} {X = V}) }
        ensures linked { IsLinked self.now }
        ensures fits { length self.now.order < 2 ^ 64 }
    {
        let left = self.len();
        let (front, back) = if left == 0 {
            (0, 0)
        } else {
            (self.newest(), self.oldest())
        };
        Walk {
            entries: self,
            front,
            back,
            left,
        }
    }
}
