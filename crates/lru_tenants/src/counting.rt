ghost use Rattle.lru_tenants.specs.Counting.{counting_rules, counting_terms, counting-sums, counting-budgeted};

use lru_caches::Counts;
use lru_limits::{Admission, Budgeted, Limiter, Summing};

/// Limits as the field `limiter` does, and stores the counts of a map.
///
/// In a `TenantCache` with this limiter, call `get_counted`, `put_counted` and `get_or_put_counted`. No other call
/// counts.
///
/// In the examples of the calls, `counted` has one tenant, 1, with a budget of 3, the entry (7, 2) and one counted
/// insertion.
///
/// ```
/// assert_eq!(rt; counted.get_counted(&1, &7), Ok(Some(&2)));
/// assert_eq!(rt; counted.get_counted(&1, &8), Ok(None));
/// let counts = counted.counts(&1)?;
/// assert_eq!(rt; (counts.hits, counts.misses, counts.insertions), (1, 1, 1));
/// ```
#[derive(Clone, Copy, Debug)]
pub struct Counting<L> {
    /// The limiter, which decides what the map accepts and evicts.
    pub limiter: L,
    /// What the calls of the map counted.
    pub counts: Counts,
}

impl<K, V, L: Limiter<K, V>> Limiter<K, V> for Counting<L> {
    type LinkType = L::LinkType;

    ghost rules = { counting_rules L.rules };

    #[inline]
    fn is_over_the_limit(&self, length: usize) -> bool {
        self.limiter.is_over_the_limit(length)
    }

    #[inline]
    fn on_removed(&mut self, key: &mut K, value: &mut V) {
        self.limiter.on_removed(key, value);
    }

    #[inline]
    fn on_cleared(&mut self) {
        self.limiter.on_cleared();
    }

    #[inline]
    fn on_grow(&mut self, new_memory_usage: usize) -> bool {
        self.limiter.on_grow(new_memory_usage)
    }
}

impl<K, V, L: Admission<K, V>> Admission<K, V> for Counting<L> {
    ghost terms = { counting_terms L.terms };

    #[inline]
    fn accepts(&self, length: usize, key: &K, value: &V) -> bool {
        self.limiter.accepts(length, key, value)
    }

    #[inline]
    fn admit(&mut self, length: usize, key: &K, value: &V) -> bool {
        self.limiter.admit(length, key, value)
    }

    #[inline]
    fn accepts_in_place(&self, length: usize, key: &K, old_value: &V, new_value: &V) -> bool {
        self.limiter
            .accepts_in_place(length, key, old_value, new_value)
    }

    #[inline]
    fn admit_in_place(&mut self, length: usize, key: &K, old_value: &V, new_value: &V) -> bool {
        self.limiter
            .admit_in_place(length, key, old_value, new_value)
    }
}

impl<K, V, L: Summing<K, V>> Summing<K, V> for Counting<L> {
    ghost cost_of = { L.cost_of };

    ghost account = { λ s. L.account s.limiter };

    #[inline]
    fn cost_of(key: &K, value: &V) -> u64 {
        L::cost_of(key, value)
    }

    #[inline]
    fn account(&self) -> u64 {
        self.limiter.account()
    }

    ghost laws = { counting-sums L.Summing.laws };
}

impl<K, V, L: Budgeted<K, V>> Budgeted<K, V> for Counting<L> {
    ghost use Rattle.lru_caches.specs.Counted.{zeros};

    ghost budget_of = { λ s. L.budget_of s.limiter };

    ghost made = { λ budget. record { limiter = L.made budget; counts = zeros } };

    ghost rebudgeted = { λ budget s. record s { limiter = L.rebudgeted budget s.limiter } };

    #[inline]
    fn with_budget(budget: u64) -> Counting<L> {
        Counting {
            limiter: L::with_budget(budget),
            counts: Counts::default(),
        }
    }

    #[inline]
    fn budget(&self) -> u64 {
        self.limiter.budget()
    }

    #[inline]
    fn set_budget(&mut self, budget: u64) {
        self.limiter.set_budget(budget);
    }

    ghost laws = { counting-budgeted L.Budgeted.laws };
}
