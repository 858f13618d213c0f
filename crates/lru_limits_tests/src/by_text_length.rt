//! A limiter of your own. Its running total is the sum of the lengths of the values, which are texts.
//! `docs/LIMITERS.md` explains it.
ghost use Rattle.std.specs.Prelude.{◌≡◌, ◌+◌, ◌-◌, true, Some, None, nat_lt, string_len, if◌then◌else◌, refl};
ghost use Rattle.lru_limits.specs.Budget.{can_add};
ghost use Rattle.lru_limits.specs.Stores.{answers, given-adds, refused-keeps, replaced-exchanges};

use lru_limits::{Admission, Limiter, Summing};

/// Limits the bytes of all texts together. Rejects a text that is longer than the limit.
#[derive(Clone, Copy, Debug)]
pub struct ByTextLength {
    pub limit: u64,
    pub total: u64,
}

impl ByTextLength {
    /// Returns `total` plus `bytes`. If `bytes` is above the limit, or the sum has more than 64 bits, returns `None`.
    fn total_with(&self, total: u64, bytes: u64) -> Option<u64>
        ensures { result ≡ (if can_add self.now.limit total bytes then Some (total + bytes) else None) }
    {
        if bytes <= self.limit {
            total.checked_add(bytes)
        } else {
            None
        }
    }
}

impl<K> Limiter<K, String> for ByTextLength {
    type LinkType = u32;

    ghost rules = { record {
      is_over_the_limit = λ s length. nat_lt s.limit s.total;
      on_removed = λ s k v. record { limiter = record s { total = s.total - string_len v }; key = k; value = v };
      on_cleared = λ s. record s { total = 0 };
      on_grow = λ s bytes. answers s true;
    } };

    fn is_over_the_limit(&self, _length: usize) -> bool {
        self.total > self.limit
    }

    fn on_removed(&mut self, _key: &mut K, value: &mut String) {
        self.total = self.total.saturating_sub(value.len() as u64);
    }

    fn on_cleared(&mut self) {
        self.total = 0;
    }

    fn on_grow(&mut self, _new_memory_usage: usize) -> bool {
        true
    }
}

impl<K> Admission<K, String> for ByTextLength {
    ghost terms = { record {
      accepts = λ s length k v. can_add s.limit s.total (string_len v);
      admit = λ s length k v.
          if can_add s.limit s.total (string_len v) then record s { total = s.total + string_len v } else s;
      accepts_in_place = λ s length k v w. can_add s.limit (s.total - string_len v) (string_len w);
      admit_in_place = λ s length k v w. if can_add s.limit (s.total - string_len v) (string_len w)
          then record s { total = s.total - string_len v + string_len w } else s;
    } };

    fn accepts(&self, _length: usize, _key: &K, value: &String) -> bool {
        self.total_with(self.total, value.len() as u64).is_some()
    }

    fn admit(&mut self, _length: usize, _key: &K, value: &String) -> bool {
        match self.total_with(self.total, value.len() as u64) {
            Some(total) => {
                self.total = total;
                true
            }
            None => false,
        }
    }

    fn accepts_in_place(&self, _length: usize, _key: &K, old: &String, new: &String) -> bool {
        let without_old = self.total.saturating_sub(old.len() as u64);
        self.total_with(without_old, new.len() as u64).is_some()
    }

    fn admit_in_place(&mut self, _length: usize, _key: &K, old: &String, new: &String) -> bool {
        let without_old = self.total.saturating_sub(old.len() as u64);
        match self.total_with(without_old, new.len() as u64) {
            Some(total) => {
                self.total = total;
                true
            }
            None => false,
        }
    }
}

impl<K> Summing<K, String> for ByTextLength {
    ghost cost_of = { λ k v. string_len v };

    ghost account = { λ s. s.total };

    fn cost_of(_key: &K, value: &String) -> u64 {
        value.len() as u64
    }

    fn account(&self) -> u64 {
        self.total
    }

    ghost laws = { record {
      adds = λ s length i v t k w. given-adds (λ k v. string_len v) (λ s. s.total)
          (can_add s.limit s.total (string_len v)) s (record s { total = s.total + string_len v }) i v t k w refl;
      refuses = λ s length i v t. refused-keeps (λ s. s.total)
          (can_add s.limit s.total (string_len v)) s (record s { total = s.total + string_len v }) i v t;
      exchanges = λ s length k i v w. replaced-exchanges (λ k v. string_len v) (λ s. s.total)
          (can_add s.limit (s.total - string_len v) (string_len w)) s
          (record s { total = s.total - string_len v + string_len w }) k v w refl;
      takes_off = λ s k v enough. refl;
      empties = λ s. refl;
      keeps = λ s bytes. refl;
    } };
}
