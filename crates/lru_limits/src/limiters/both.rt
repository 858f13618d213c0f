ghost use Rattle.lru_limits.specs.Both.{both_rules, both_terms, both-sums};

use crate::accounts::Summing;
use crate::admission::Admission;
use crate::limiter::Limiter;

/// Limits a map by two limiters.
///
/// A map is over the limit if either limiter says so. The table may grow if both limiters permit it. The map queries
/// both limiters for each growth. An entry or a new value is accepted if both limiters accept it. If either limiter
/// rejects the entry or the value, neither limiter changes. Both limiters are notified of each evicted or removed
/// entry. The second limiter sees what the first limiter wrote to the entry.
///
/// Put a limiter by cost first, because `Both` uses the link type and the running total of the first limiter.
///
/// ```
/// let mut limiter = Both(ByCost::new(9), ByLength::new(3));
/// assert!(rt; Limiter::<u64, u64>::is_over_the_limit(&limiter, 4));
/// assert!(rt; !limiter.admit(0, &1u64, &10u64) && limiter.0.cost() == 0);
/// assert!(rt; limiter.admit(0, &1u64, &8u64) && limiter.0.cost() == 8);
/// ```
///
/// Cost: each callback calls at most two callbacks of each limiter, and takes no memory itself.
#[derive(Clone, Copy, Debug)]
pub struct Both<A, B>(pub A, pub B);

impl<K, V, A: Limiter<K, V>, B: Limiter<K, V>> Limiter<K, V> for Both<A, B> {
    type LinkType = A::LinkType;

    ghost rules = { both_rules A.rules B.rules };

    #[inline]
    fn is_over_the_limit(&self, length: usize) -> bool {
        self.0.is_over_the_limit(length) || self.1.is_over_the_limit(length)
    }

    #[inline]
    fn on_removed(&mut self, key: &mut K, value: &mut V) {
        self.0.on_removed(key, value);
        self.1.on_removed(key, value);
    }

    #[inline]
    fn on_cleared(&mut self) {
        self.0.on_cleared();
        self.1.on_cleared();
    }

    #[inline]
    fn on_grow(&mut self, new_memory_usage: usize) -> bool {
        let first = self.0.on_grow(new_memory_usage);
        let second = self.1.on_grow(new_memory_usage);
        first && second
    }
}

impl<K, V, A: Admission<K, V>, B: Admission<K, V>> Admission<K, V> for Both<A, B> {
    ghost terms = { both_terms A.terms B.terms };

    #[inline]
    fn accepts(&self, length: usize, key: &K, value: &V) -> bool {
        self.0.accepts(length, key, value) && self.1.accepts(length, key, value)
    }

    #[inline]
    fn admit(&mut self, length: usize, key: &K, value: &V) -> bool {
        let is_accepted = self.accepts(length, key, value);
        if is_accepted {
            self.0.admit(length, key, value);
            self.1.admit(length, key, value);
        }
        is_accepted
    }

    #[inline]
    fn accepts_in_place(&self, length: usize, key: &K, old_value: &V, new_value: &V) -> bool {
        self.0.accepts_in_place(length, key, old_value, new_value)
            && self.1.accepts_in_place(length, key, old_value, new_value)
    }

    #[inline]
    fn admit_in_place(&mut self, length: usize, key: &K, old_value: &V, new_value: &V) -> bool {
        let is_accepted = self.accepts_in_place(length, key, old_value, new_value);
        if is_accepted {
            self.0.admit_in_place(length, key, old_value, new_value);
            self.1.admit_in_place(length, key, old_value, new_value);
        }
        is_accepted
    }
}

impl<K, V, A: Summing<K, V>, B: Admission<K, V>> Summing<K, V> for Both<A, B> {
    ghost cost_of = { A.cost_of };

    ghost account = { λ s. A.account s.0 };

    #[inline]
    fn cost_of(key: &K, value: &V) -> u64 {
        A::cost_of(key, value)
    }

    #[inline]
    fn account(&self) -> u64 {
        self.0.account()
    }

    ghost laws = { both-sums A.Summing.laws B.rules B.terms };
}
