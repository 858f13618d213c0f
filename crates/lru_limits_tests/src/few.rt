//! A limiter that never changes, as `docs/LIMITERS.md` shows.
ghost use Rattle.std.specs.Prelude.{nat_lt, true};
ghost use Rattle.lru_limits.specs.Stores.{plain};

use lru_limits::Limiter;

/// Limits a map to `most` entries.
#[derive(Clone, Copy, Debug)]
pub struct Few {
    pub most: usize,
}

impl<K, V> Limiter<K, V> for Few {
    type LinkType = u32;

    ghost rules = { plain (λ s length. nat_lt s.most length) (λ _ _. true) };

    fn is_over_the_limit(&self, length: usize) -> bool {
        length > self.most
    }

    fn on_removed(&mut self, _key: &mut K, _value: &mut V) {}

    fn on_cleared(&mut self) {}

    fn on_grow(&mut self, _new_memory_usage: usize) -> bool {
        true
    }
}
