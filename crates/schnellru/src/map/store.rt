//! Stores a new entry in a free bucket. If no bucket can take the entry, first rehashes or grows the table, or evicts
//! the oldest entries.
ghost use Rattle.std.specs.Prelude.{◌≡◌, ℕ, ◌+◌, ◌-◌, ◌*◌, ◌/◌, ◌<◌, ◌≤◌, [], ◌∷◌, length, true, None, Some, List};
ghost use Rattle.std.specs.Prelude.{Ok, OnOk, OnErr, IfErr, IsOk};
ghost use Rattle.group_table.specs.Sizes.{IsPowerFromFour, full_capacity};
ghost use Rattle.lru_model.specs.Lists.{lookup_entry};
ghost use Rattle.lru_model.specs.Sizes.{usage};
ghost use Rattle.lru_model.specs.State.{buckets, growth_left, IsAhead};
ghost use Rattle.lru_model.specs.Place.{Place, Evicts, IsPlacedInTable, IsPlacedByMove, FillsBucket, HasNoBucket};
ghost use Rattle.lru_model.specs.Place.{IsOutgrown, outcome_of, unstored};
ghost use Rattle.lru_model.specs.MayTake.{MayTakeEach};
ghost use Rattle.schnellru.specs.Inside.Passing.{Passes};

use crate::map::LruMap;
use crate::map::remove::notify;
use group_table::full_capacity;
use lru_limits::{KeyHasher, Limiter};
use std::alloc::AllocError;
use std::hash::Hash;

impl<K: Eq + Hash, V, L: Limiter<K, V>, S: KeyHasher<K>> LruMap<K, V, L, S> {
    #[inline(always)]
    pub(super) fn store_in_room(&mut self, hash: u64, pair: (K, V))
        requires hash { hash ≡ S.hash_of self.old.hasher pair.0 }
        requires absent { lookup_entry (K.eq pair.0) self.old.pairs ≡ None }
        requires growth_left { 0 < growth_left self.old }
        ensures placed { IsPlacedInTable pair self.old self.new }
        ensures fills { FillsBucket hash self.old.table self.new.table }
        ensures within { length self.old.pairs < full_capacity (buckets self.old) }
        ensures spends { length self.old.pairs + growth_left self.old ≡ full_capacity (buckets self.old) →
            growth_left self.new + 1 ≡ growth_left self.old }
    {
        self.entries.place(hash, pair);
    }

    pub(super) fn store_in_bucket(&mut self, hash: u64, pair: (K, V)) -> Result<(), (K, V)>
        requires hash { hash ≡ S.hash_of self.old.hasher pair.0 }
        requires absent { lookup_entry (K.eq pair.0) self.old.pairs ≡ None }
        ensures placed { OnOk result (IsPlacedInTable pair self.old self.new) }
        ensures fills { OnOk result (FillsBucket hash self.old.table self.new.table) }
        ensures within { OnOk result (length self.old.pairs < full_capacity (buckets self.old)) }
        ensures returned { IfErr result (λ back. back ≡ pair) }
        ensures unchanged { OnErr result (self.new ≡ self.old) }
        ensures no_bucket { OnErr result (HasNoBucket hash self.old) }
    {
        self.entries.try_place(hash, pair)?;
        Ok(())
    }

    pub(super) fn store_without_bucket<F: FnMut(K, V)>(
        &mut self,
        hash: u64,
        pair: (K, V),
        sink: &mut F,
    ) -> Result<bool, AllocError>
        requires callable { MayTakeEach L.rules F.FnMut (pair ∷ self.old.pairs) sink.old }
        requires hash { hash ≡ S.hash_of self.old.hasher pair.0 }
        requires absent { lookup_entry (K.eq pair.0) self.old.pairs ≡ None }
        requires no_bucket { HasNoBucket hash self.old }
        ensures passed { Passes F.FnMut L.rules sink.old sink.new self.old self.new (λ rules old new.
            Place rules S.hash_of pair old (outcome_of result) new) }
        ensures callable { result ≡ Ok true → MayTakeEach L.rules F.FnMut self.new.pairs sink.new }
    {
        let buckets = self.bucket_count();
        if self.len() < full_capacity(buckets) / 2 {
            self.store_after_move(buckets, hash, pair, sink)
        } else {
            self.store_after_growth(hash, pair, sink)
        }
    }

    fn store_after_growth<F: FnMut(K, V)>(
        &mut self,
        hash: u64,
        pair: (K, V),
        sink: &mut F,
    ) -> Result<bool, AllocError>
        requires callable { MayTakeEach L.rules F.FnMut (pair ∷ self.old.pairs) sink.old }
        requires hash { hash ≡ S.hash_of self.old.hasher pair.0 }
        requires absent { lookup_entry (K.eq pair.0) self.old.pairs ≡ None }
        requires outgrown { IsOutgrown hash self.old }
        ensures passed { Passes F.FnMut L.rules sink.old sink.new self.old self.new (λ rules old new.
            Place rules S.hash_of pair old (outcome_of result) new) }
        ensures callable { result ≡ Ok true → MayTakeEach L.rules F.FnMut self.new.pairs sink.new }
    {
        match self.next_table(1) {
            Some((count, bytes)) => {
                if self.limiter.on_grow(bytes) {
                    self.store_after_move(count, hash, pair, sink)
                } else {
                    self.store_without_growth(hash, pair, sink)
                }
            }
            None => self.store_without_growth(hash, pair, sink),
        }
    }

    fn store_without_growth<F: FnMut(K, V)>(
        &mut self,
        hash: u64,
        pair: (K, V),
        sink: &mut F,
    ) -> Result<bool, AllocError>
        requires callable { MayTakeEach L.rules F.FnMut (pair ∷ self.old.pairs) sink.old }
        requires hash { hash ≡ S.hash_of self.old.hasher pair.0 }
        requires absent { lookup_entry (K.eq pair.0) self.old.pairs ≡ None }
        requires outgrown { IsOutgrown hash self.old }
        ensures passed { Passes F.FnMut L.rules sink.old sink.new self.old self.new (λ rules old new.
            Evicts rules hash pair old old (outcome_of result) new) }
        ensures callable { result ≡ Ok true → MayTakeEach L.rules F.FnMut self.new.pairs sink.new }
    {
        if self.is_empty() {
            self.pass_unstored(pair, sink);
            return Ok(false);
        }
        self.store_after_eviction(hash, pair, sink)
    }

    fn store_after_eviction<F: FnMut(K, V)>(
        &mut self,
        hash: u64,
        mut pair: (K, V),
        sink: &mut F,
    ) -> Result<bool, AllocError>
        requires callable { MayTakeEach L.rules F.FnMut (pair ∷ self.old.pairs) sink.old }
        requires hash { hash ≡ S.hash_of self.old.hasher pair.0 }
        requires absent { lookup_entry (K.eq pair.0) self.old.pairs ≡ None }
        requires some { 0 < length self.old.pairs }
        requires outgrown { IsOutgrown hash self.old }
        ensures passed { Passes F.FnMut L.rules sink.old sink.new self.old self.new (λ rules old new.
            Evicts rules hash pair old old (outcome_of result) new) }
        ensures callable { result ≡ Ok true → MayTakeEach L.rules F.FnMut self.new.pairs sink.new }
    {
        let buckets = self.bucket_count();
        let half = full_capacity(buckets) / 2;
        'evictions: loop {
            let (key, value) = self.take_oldest();
            sink(key, value);
            if self.len() < half {
                return self.store_after_move(buckets, hash, pair, sink);
            }
            match self.store_in_bucket(hash, pair) {
                Ok(()) => return Ok(true),
                Err(back) => pair = back,
            }
        }
    }

    #[cold]
    fn store_after_move<F: FnMut(K, V)>(
        &mut self,
        count: usize,
        hash: u64,
        pair: (K, V),
        sink: &mut F,
    ) -> Result<bool, AllocError>
        requires callable { MayTakeEach L.rules F.FnMut (pair ∷ self.old.pairs) sink.old }
        requires hash { hash ≡ S.hash_of self.old.hasher pair.0 }
        requires absent { lookup_entry (K.eq pair.0) self.old.pairs ≡ None }
        requires count { IsPowerFromFour count }
        requires reached { count < L.LinkType.number L.LinkType.MAX }
        requires usable { (bytes : ℕ) × (usage self.old.entry_bytes count ≡ Some bytes) }
        requires half { 2 * length self.old.pairs ≤ full_capacity count }
        requires paid { IsAhead (length self.old.pairs) self.old.counts }
        ensures passed { Passes F.FnMut L.rules sink.old sink.new self.old self.new (λ rules old new.
            IsPlacedByMove rules pair count old (outcome_of result) new) }
        ensures succeeds { self.old.pairs ≡ [] → count ≡ buckets self.old → IsOk result }
        ensures callable { result ≡ Ok true → MayTakeEach L.rules F.FnMut self.new.pairs sink.new }
    {
        match self.move_to(count) {
            Ok(()) => {
                self.count_moves();
                self.store_in_room(hash, pair);
                Ok(true)
            }
            Err(error) => {
                self.pass_unstored(pair, sink);
                Err(error)
            }
        }
    }

    fn pass_unstored<F: FnMut(K, V)>(&mut self, pair: (K, V), sink: &mut F)
        requires callable { (others : List (K × V)) × MayTakeEach L.rules F.FnMut (pair ∷ others) sink.old }
        ensures passed { Passes F.FnMut L.rules sink.old sink.new self.old self.new (λ rules old new.
            new ≡ unstored rules pair old) }
    {
        let (key, value) = notify(&mut self.limiter, pair);
        sink(key, value);
    }
}
