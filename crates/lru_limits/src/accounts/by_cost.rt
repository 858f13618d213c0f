ghost use Rattle.std.specs.Prelude.{◌≡◌};
ghost use Rattle.lru_limits.specs.Budget.{can_add, by_cost, charges-sums, budget_terms, weighs-budgeted};

use crate::accounts::{Budgeted, Costed, Summing, sum_with};
use crate::admission::Admission;
use crate::limiter::Limiter;
use std::marker::Model;

/// Limits the sum of the costs of the values. Contracts represent the limiter by its limit and its running total.
///
/// `ByCost` rejects an entry or a new value if the cost of the value alone is above the limit, or if the sum would pass
/// `u64::MAX`. After `ByCost` accepts an entry, the map evicts its oldest entries until the sum of the costs is within
/// the limit.
///
/// ```
/// let mut limiter = ByCost::new(3);
/// assert!(rt; limiter.admit(0, &1u64, &2u64) && !limiter.admit(1, &2u64, &4u64));
/// assert_eq!(rt; limiter.cost(), 2);
/// ```
///
/// Cost: each callback reads the cost of each of its values once, and takes no memory.
#[derive(Clone, Copy, Debug)]
pub struct ByCost {
    limit: u64,
    cost: u64,
}

impl Model for ByCost {
    ghost use Rattle.lru_limits.specs.Budget.{Budget};

    ghost Value = { Budget };

    ghost view = { λ b. record { limit = b.limit; cost = b.cost } };

    ghost inverse = { λ b. record { limit = b.limit; cost = b.cost } };
}

impl ByCost {
    /// Makes a limiter with this limit.
    ///
    /// ```
    /// let mut limiter = ByCost::new(3);
    /// ```
    pub const fn new(limit: u64) -> ByCost
        ensures { result ≡ record { limit = limit; cost = 0 } }
    {
        ByCost { limit, cost: 0 }
    }

    /// Returns the same limiter with another limit. The sum stays.
    ///
    /// ```
    /// let lower = limiter.with_limit(1);
    /// assert_eq!(rt; (lower.limit(), lower.cost()), (1, 2));
    /// ```
    pub const fn with_limit(&self, limit: u64) -> ByCost
        ensures { result ≡ record self.now { limit = limit } }
    {
        ByCost {
            limit,
            cost: self.cost,
        }
    }

    /// Returns the limit.
    ///
    /// ```
    /// assert_eq!(rt; limiter.limit(), 3);
    /// ```
    pub const fn limit(&self) -> u64
        ensures { result ≡ self.now.limit }
    {
        self.limit
    }

    /// Returns the sum of the costs.
    ///
    /// ```
    /// assert_eq!(rt; limiter.cost(), 2);
    /// ```
    pub const fn cost(&self) -> u64
        ensures { result ≡ self.now.cost }
    {
        self.cost
    }
}

impl<K, V: Costed> Limiter<K, V> for ByCost {
    type LinkType = usize;

    ghost rules = { by_cost V.cost };

    #[inline]
    fn is_over_the_limit(&self, _length: usize) -> bool {
        self.cost > self.limit
    }

    #[inline]
    fn on_removed(&mut self, _key: &mut K, value: &mut V) {
        self.cost = self.cost.saturating_sub(value.cost());
    }

    #[inline]
    fn on_cleared(&mut self) {
        self.cost = 0;
    }

    #[inline]
    fn on_grow(&mut self, _new_memory_usage: usize) -> bool {
        true
    }
}

impl<K, V: Costed> Summing<K, V> for ByCost {
    ghost cost_of = { λ _ v. V.cost v };

    ghost account = { λ b. b.cost };

    #[inline]
    fn cost_of(_key: &K, value: &V) -> u64 {
        value.cost()
    }

    #[inline]
    fn account(&self) -> u64 {
        self.cost
    }

    ghost laws = { charges-sums V.cost };
}

impl<K, V: Costed> Admission<K, V> for ByCost {
    ghost terms = { budget_terms (λ _ v. V.cost v) };

    #[inline]
    fn accepts(&self, _length: usize, _key: &K, value: &V) -> bool {
        sum_with(self.limit, self.cost, value.cost()).is_some()
    }

    #[inline]
    fn admit(&mut self, _length: usize, _key: &K, value: &V) -> bool {
        match sum_with(self.limit, self.cost, value.cost()) {
            Some(sum) => {
                self.cost = sum;
                true
            }
            None => false,
        }
    }

    #[inline]
    fn accepts_in_place(&self, _length: usize, _key: &K, old_value: &V, new_value: &V) -> bool {
        let without_old = self.cost.saturating_sub(old_value.cost());
        sum_with(self.limit, without_old, new_value.cost()).is_some()
    }

    #[inline]
    fn admit_in_place(&mut self, _length: usize, _key: &K, old_value: &V, new_value: &V) -> bool {
        let without_old = self.cost.saturating_sub(old_value.cost());
        match sum_with(self.limit, without_old, new_value.cost()) {
            Some(sum) => {
                self.cost = sum;
                true
            }
            None => false,
        }
    }
}

impl<K, V: Costed> Budgeted<K, V> for ByCost {
    ghost budget_of = { λ b. b.limit };

    ghost made = { λ limit. record { limit = limit; cost = 0 } };

    ghost rebudgeted = { λ limit b. record b { limit = limit } };

    #[inline]
    fn with_budget(budget: u64) -> ByCost {
        ByCost::new(budget)
    }

    #[inline]
    fn budget(&self) -> u64 {
        self.limit
    }

    #[inline]
    fn set_budget(&mut self, budget: u64) {
        self.limit = budget;
    }

    ghost laws = { weighs-budgeted (λ _ v. V.cost v) };
}
