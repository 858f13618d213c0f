//! Moves all entries to a larger table, or rehashes the table.
ghost use Rattle.std.specs.Prelude.{◌≡◌, ℕ, ◌+◌, ◌-◌, ◌*◌, ◌/◌, ◌^◌, ◌<◌, ◌≤◌, [], length, Some, IfSome, OnOk, OnErr};
ghost use Rattle.std.specs.Prelude.{IsOk};
ghost use Rattle.group_table.specs.Sizes.{IsPowerFromFour, full_capacity};
ghost use Rattle.group_table.specs.Change.{count_up};
ghost use Rattle.lru_model.specs.Sizes.{usage, larger};
ghost use Rattle.lru_model.specs.State.{buckets, potential, MovesTo, IsAhead, IsMap};
ghost use Rattle.lru_model.specs.Place.{table_for};

use crate::map::LruMap;
use group_table::LinkType;
use lru_limits::{KeyHasher, Limiter};
use lru_model::sizes::larger_table;
use std::alloc::AllocError;
use std::hash::Hash;

impl<K: Eq + Hash, V, L: Limiter<K, V>, S: KeyHasher<K>> LruMap<K, V, L, S> {
    pub(super) fn next_table(&self, more: usize) -> Option<(usize, usize)>
        requires number { length self.now.pairs + more < 2 ^ 64 }
        requires half { full_capacity (buckets self.now) / 2 < length self.now.pairs + more }
        ensures next { larger result ≡ table_for more self.now }
        ensures count { IfSome result (λ t. IsPowerFromFour t.0) }
        ensures reached { IfSome result (λ t. t.0 < L.LinkType.number L.LinkType.MAX) }
        ensures usable { IfSome result (λ t. usage self.now.entry_bytes t.0 ≡ Some t.1) }
        ensures half { IfSome result (λ t. 2 * length self.now.pairs ≤ full_capacity t.0) }
    {
        let max = L::LinkType::MAX.into_usize();
        let pairs = self.len() + more;
        larger_table(max, self.entry_bytes, self.bucket_count(), pairs)
    }

    pub(super) fn move_to(&mut self, count: usize) -> Result<(), AllocError>
        requires count { IsPowerFromFour count }
        requires reached { count < L.LinkType.number L.LinkType.MAX }
        requires usable { (bytes : ℕ) × (usage self.old.entry_bytes count ≡ Some bytes) }
        requires half { 2 * length self.old.pairs ≤ full_capacity count }
        ensures moved { OnOk result (MovesTo count self.old self.new) }
        ensures unchanged { OnErr result (self.new ≡ self.old) }
        ensures succeeds { self.old.pairs ≡ [] → count ≡ buckets self.old → IsOk result }
        ensures map { IsMap K.eq self.new }
    {
        self.entries.move_to(count, &self.hasher)?;
        Ok(())
    }

    pub(super) fn count_moves(&mut self)
        requires paid { IsAhead (length self.old.pairs + potential self.old) self.old.counts }
        ensures { self.new ≡ record self.old {
          counts = record self.old.counts { moved = count_up self.old.counts.moved (length self.old.pairs) };
        } }
    {
        self.moved = self.moved.saturating_add(self.entries.len() as u64);
    }
}
