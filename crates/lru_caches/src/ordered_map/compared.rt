use crate::ordered_map::OrderedMap;
use schnellru::KeyHasher;
use std::fmt;
use std::hash::Hash;

/// Maps are equal if they have equal entries in the same order.
///
/// ```
/// assert!(rt; map == map && map != OrderedMap::new(alloc));
/// ```
///
/// Cost: `O(1)` if the lengths differ, else `O(n)` for n entries.
///
/// Follows std's `Vec`. For the maps of indexmap, the order does not matter.
impl<K: Eq + Hash, V: PartialEq, S: KeyHasher<K>> PartialEq for OrderedMap<K, V, S> {
    ghost use Rattle.std.specs.Prelude.{◌&&◌};
    ghost use Rattle.std.specs.Cmp.{and_per, on_per};
    ghost use Rattle.std.specs.Cmp.Lexicographic.{pointwise, lists_per};

    ghost eq = { λ a b. pointwise (λ p q. K.eq p.0 q.0 && V.eq p.1 q.1) a b };

    ghost laws = { lists_per (and_per (on_per (λ p. p.0) K.PartialEq.laws) (on_per (λ p. p.1) V.laws)) };

    fn eq(&self, other: &Self) -> bool {
        self.map == other.map
    }
}

impl<K: Eq + Hash, V: Eq, S: KeyHasher<K>> Eq for OrderedMap<K, V, S> {
    ghost use Rattle.std.specs.Cmp.{on_equiv, and_equiv};
    ghost use Rattle.std.specs.Cmp.Lexicographic.{lists_equiv};

    ghost laws = { lists_equiv (and_equiv (on_equiv (λ p. p.0) K.Eq.laws) (on_equiv (λ p. p.1) V.Eq.laws)) };
}

/// Shows the entries, oldest first, as `{1: 11, 2: 20}`.
///
/// ```
/// assert_eq!(rt; format!(in alloc; "{map:?}")?.as_str(), "{1: 11, 2: 20}");
/// ```
///
/// Follows std's `HashMap`.
impl<K: Eq + Hash + fmt::Debug, V: fmt::Debug, S: KeyHasher<K>> fmt::Debug for OrderedMap<K, V, S> {
    fn fmt<W: fmt::Write>(&self, f: &mut fmt::Formatter<W>) -> fmt::Result {
        let mut shown = f.debug_map();
        for (key, value) in self.iter() {
            shown.entry(key, value);
        }
        shown.finish()
    }
}
