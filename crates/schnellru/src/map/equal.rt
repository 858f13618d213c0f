use crate::map::LruMap;
use lru_limits::{KeyHasher, Limiter};
use std::hash::Hash;

/// Maps are equal if they have equal entries in the same order of use. The limiters, hashers and tables may differ.
///
/// ```
/// let other = map.clone()?;
/// assert!(rt; map == other);
/// ```
///
/// Cost: `O(1)` if the lengths differ, else `O(n)` for n entries.
///
/// Follows `LinkedHashMap` of the crate `hashlink`. A `get` may make equal maps unequal.
impl<K: Eq + Hash, V: PartialEq, L: Limiter<K, V>, S: KeyHasher<K>> PartialEq
    for LruMap<K, V, L, S> {
    ghost use Rattle.std.specs.Prelude.{◌&&◌};
    ghost use Rattle.std.specs.Cmp.{and_per, on_per};
    ghost use Rattle.std.specs.Cmp.Lexicographic.{pointwise, lists_per};

    ghost eq = { λ a b. pointwise (λ p q. K.eq p.0 q.0 && V.eq p.1 q.1) a.pairs b.pairs };

    ghost laws = { on_per (λ m. m.pairs) (lists_per
        (and_per (on_per (λ p. p.0) K.PartialEq.laws) (on_per (λ p. p.1) V.laws))) };

    fn eq(&self, other: &Self) -> bool {
        self.entries == other.entries
    }
}

impl<K: Eq + Hash, V: Eq, L: Limiter<K, V>, S: KeyHasher<K>> Eq for LruMap<K, V, L, S> {
    ghost use Rattle.std.specs.Cmp.{on_equiv, and_equiv};
    ghost use Rattle.std.specs.Cmp.Lexicographic.{lists_equiv};

    ghost laws = { on_equiv (λ m. m.pairs)
        (lists_equiv (and_equiv (on_equiv (λ p. p.0) K.Eq.laws) (on_equiv (λ p. p.1) V.Eq.laws))) };
}
