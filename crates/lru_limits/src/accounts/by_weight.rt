ghost use Rattle.std.specs.Prelude.{◌≡◌};
ghost use Rattle.lru_limits.specs.Budget.{can_add, pair_cost, by_weight, weighs-sums, budget_terms, weighs-budgeted};

use crate::accounts::{Budgeted, Costed, Summing, sum_with};
use crate::admission::Admission;
use crate::limiter::Limiter;
use std::marker::Model;

/// Limits the sum of the costs of the entries. Contracts represent the limiter by its limit and its running total. The
/// cost of an entry is the cost of its key, plus the cost of its value, plus `OVERHEAD`, but at most `u64::MAX`.
///
/// `ByWeight` rejects an entry or a new value if the entry alone would cost more than the limit, or if the sum would
/// pass `u64::MAX`.
///
/// ```
/// let mut limiter: ByWeight<16> = ByWeight::new(100);
/// assert!(rt; limiter.admit(0, &1u64, &2u64) && !limiter.admit(1, &80u64, &5u64));
/// assert_eq!(rt; limiter.cost(), 19);
/// ```
///
/// Cost: each callback reads the cost of its keys and values at most twice, and takes no memory.
#[derive(Clone, Copy, Debug)]
pub struct ByWeight<const OVERHEAD: u64> {
    limit: u64,
    cost: u64,
}

impl<const OVERHEAD: u64> Model for ByWeight<OVERHEAD> {
    ghost use Rattle.lru_limits.specs.Budget.{Budget};

    ghost Value = { Budget };

    ghost view = { λ b. record { limit = b.limit; cost = b.cost } };

    ghost inverse = { λ b. record { limit = b.limit; cost = b.cost } };
}

impl<const OVERHEAD: u64> ByWeight<OVERHEAD> {
    /// Makes a limiter with this limit.
    ///
    /// ```
    /// let mut limiter: ByWeight<16> = ByWeight::new(100);
    /// ```
    pub const fn new(limit: u64) -> ByWeight<OVERHEAD>
        ensures { result ≡ record { limit = limit; cost = 0 } }
    {
        ByWeight { limit, cost: 0 }
    }

    /// Returns the same limiter with another limit. The sum stays.
    ///
    /// ```
    /// let lower = limiter.with_limit(10);
    /// assert_eq!(rt; (lower.limit(), lower.cost()), (10, 19));
    /// ```
    pub const fn with_limit(&self, limit: u64) -> ByWeight<OVERHEAD>
        ensures { result ≡ record self.now { limit = limit } }
    {
        ByWeight {
            limit,
            cost: self.cost,
        }
    }

    /// Returns the limit.
    ///
    /// ```
    /// assert_eq!(rt; limiter.limit(), 100);
    /// ```
    pub const fn limit(&self) -> u64
        ensures { result ≡ self.now.limit }
    {
        self.limit
    }

    /// Returns the sum of the costs.
    ///
    /// ```
    /// assert_eq!(rt; limiter.cost(), 19);
    /// ```
    pub const fn cost(&self) -> u64
        ensures { result ≡ self.now.cost }
    {
        self.cost
    }
}

#[inline]
fn cost_of_pair<K: Costed, V: Costed>(overhead: u64, key: &K, value: &V) -> u64
    ensures { result ≡ pair_cost overhead (K.cost key.now) (V.cost value.now) }
{
    key.cost()
        .saturating_add(value.cost())
        .saturating_add(overhead)
}

impl<K: Costed, V: Costed, const OVERHEAD: u64> Limiter<K, V> for ByWeight<OVERHEAD> {
    type LinkType = usize;

    ghost rules = { by_weight (λ k v. pair_cost OVERHEAD (K.cost k) (V.cost v)) };

    #[inline]
    fn is_over_the_limit(&self, _length: usize) -> bool {
        self.cost > self.limit
    }

    #[inline]
    fn on_removed(&mut self, key: &mut K, value: &mut V) {
        let cost = cost_of_pair(OVERHEAD, &*key, &*value);
        self.cost = self.cost.saturating_sub(cost);
    }

    #[inline]
    fn on_cleared(&mut self) {
        self.cost = 0;
    }

    #[inline]
    fn on_grow(&mut self, _new_memory_usage: usize) -> bool {
        true
    }
}

impl<K: Costed, V: Costed, const OVERHEAD: u64> Summing<K, V> for ByWeight<OVERHEAD> {
    ghost cost_of = { λ k v. pair_cost OVERHEAD (K.cost k) (V.cost v) };

    ghost account = { λ b. b.cost };

    #[inline]
    fn cost_of(key: &K, value: &V) -> u64 {
        cost_of_pair(OVERHEAD, key, value)
    }

    #[inline]
    fn account(&self) -> u64 {
        self.cost
    }

    ghost laws = { weighs-sums (λ k v. pair_cost OVERHEAD (K.cost k) (V.cost v)) };
}

impl<K: Costed, V: Costed, const OVERHEAD: u64> Admission<K, V> for ByWeight<OVERHEAD> {
    ghost terms = { budget_terms (λ k v. pair_cost OVERHEAD (K.cost k) (V.cost v)) };

    #[inline]
    fn accepts(&self, _length: usize, key: &K, value: &V) -> bool {
        let cost = cost_of_pair(OVERHEAD, key, value);
        sum_with(self.limit, self.cost, cost).is_some()
    }

    #[inline]
    fn admit(&mut self, _length: usize, key: &K, value: &V) -> bool {
        match sum_with(self.limit, self.cost, cost_of_pair(OVERHEAD, key, value)) {
            Some(sum) => {
                self.cost = sum;
                true
            }
            None => false,
        }
    }

    #[inline]
    fn accepts_in_place(&self, _length: usize, key: &K, old_value: &V, new_value: &V) -> bool {
        let old_cost = cost_of_pair(OVERHEAD, key, old_value);
        let new_cost = cost_of_pair(OVERHEAD, key, new_value);
        sum_with(self.limit, self.cost.saturating_sub(old_cost), new_cost).is_some()
    }

    #[inline]
    fn admit_in_place(&mut self, _length: usize, key: &K, old_value: &V, new_value: &V) -> bool {
        let old_cost = cost_of_pair(OVERHEAD, key, old_value);
        let new_cost = cost_of_pair(OVERHEAD, key, new_value);
        match sum_with(self.limit, self.cost.saturating_sub(old_cost), new_cost) {
            Some(sum) => {
                self.cost = sum;
                true
            }
            None => false,
        }
    }
}

impl<K: Costed, V: Costed, const OVERHEAD: u64> Budgeted<K, V> for ByWeight<OVERHEAD> {
    ghost budget_of = { λ b. b.limit };

    ghost made = { λ limit. record { limit = limit; cost = 0 } };

    ghost rebudgeted = { λ limit b. record b { limit = limit } };

    #[inline]
    fn with_budget(budget: u64) -> ByWeight<OVERHEAD> {
        ByWeight::new(budget)
    }

    #[inline]
    fn budget(&self) -> u64 {
        self.limit
    }

    #[inline]
    fn set_budget(&mut self, budget: u64) {
        self.limit = budget;
    }

    ghost laws = { weighs-budgeted (λ k v. pair_cost OVERHEAD (K.cost k) (V.cost v)) };
}
