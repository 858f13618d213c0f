ghost use Rattle.std.specs.Prelude.{◌≡◌, ◌∷◌, None, IsTrue};
ghost use Rattle.lru_model.specs.Lists.{lookup_entry};
ghost use Rattle.lru_model.specs.State.{contents, growth_left};
ghost use Rattle.lru_model.specs.Inserts.{Insert, PlacesNew, PlacesAndTrims};
ghost use Rattle.lru_model.specs.Place.{HasNoBucket};
ghost use Rattle.lru_model.specs.MayTake.{MayTakeEach, MayTakeNew};
ghost use Rattle.lru_model.specs.Callbacks.{noting_offers};
ghost use Rattle.schnellru.specs.Inside.Passing.{Passes};

use crate::map::LruMap;
use lru_limits::{Insertion, KeyHasher, Limiter, LookupKey};
use ordered_table::OrderedTable;
use std::alloc::AllocError;
use std::hash::Hash;

// The maximum size of a small entry in bytes, including its links. A larger entry is inserted inline, because a call
// would copy its key and its value once more. A small entry is inserted by a call, because inline code would take
// registers from the caller's loop.
const SMALL: usize = 32;

impl<K: Eq + Hash, V, L: Limiter<K, V>, S: KeyHasher<K>> LruMap<K, V, L, S> {
    #[inline(always)]
    pub(crate) fn insert_new<I: LookupKey<K>, F: FnMut(K, V)>(
        &mut self,
        hash: u64,
        key: I,
        value: V,
        sink: &mut F,
    ) -> Result<bool, AllocError>
    where
        L: Insertion<K, V, I>,
        requires callable { MayTakeNew L.rules F.FnMut L.offers I.names key value (contents self.old) sink.old }
        requires hash { (k : K) → IsTrue (I.names key k) → hash ≡ S.hash_of self.old.hasher k }
        requires absent { lookup_entry (I.names key) self.old.pairs ≡ None }
        ensures passed { Passes F.FnMut L.rules sink.old sink.new self.old self.new (λ rules old new.
            Insert rules (noting_offers L.offers) I.names S.hash_of key value old result new) }
    {
        if OrderedTable::<K, V, L::LinkType>::entry_bytes() > SMALL {
            self.insert_in_line(hash, key, value, sink)
        } else {
            self.insert_by_call(key, hash, value, sink)
        }
    }

    // The hash is the third argument, because the last multiplication of the hasher leaves the hash in the register for
    // the third argument.
    #[inline(never)]
    fn insert_by_call<I: LookupKey<K>, F: FnMut(K, V)>(
        &mut self,
        key: I,
        hash: u64,
        value: V,
        sink: &mut F,
    ) -> Result<bool, AllocError>
    where
        L: Insertion<K, V, I>,
        requires callable { MayTakeNew L.rules F.FnMut L.offers I.names key value (contents self.old) sink.old }
        requires hash { (k : K) → IsTrue (I.names key k) → hash ≡ S.hash_of self.old.hasher k }
        requires absent { lookup_entry (I.names key) self.old.pairs ≡ None }
        ensures passed { Passes F.FnMut L.rules sink.old sink.new self.old self.new (λ rules old new.
            Insert rules (noting_offers L.offers) I.names S.hash_of key value old result new) }
    {
        self.insert_in_line(hash, key, value, sink)
    }

    #[inline(always)]
    fn insert_in_line<I: LookupKey<K>, F: FnMut(K, V)>(
        &mut self,
        hash: u64,
        key: I,
        value: V,
        sink: &mut F,
    ) -> Result<bool, AllocError>
    where
        L: Insertion<K, V, I>,
        requires callable { MayTakeNew L.rules F.FnMut L.offers I.names key value (contents self.old) sink.old }
        requires hash { (k : K) → IsTrue (I.names key k) → hash ≡ S.hash_of self.old.hasher k }
        requires absent { lookup_entry (I.names key) self.old.pairs ≡ None }
        ensures passed { Passes F.FnMut L.rules sink.old sink.new self.old self.new (λ rules old new.
            Insert rules (noting_offers L.offers) I.names S.hash_of key value old result new) }
    {
        // This is one match, because a `?` would copy the pair once more.
        match self
            .limiter
            .on_insert(self.alloc, self.entries.len(), key, value)
        {
            Ok(Some(pair)) => self.insert_pair(hash, pair, sink),
            Ok(None) => Ok(false),
            Err(error) => Err(error),
        }
    }

    fn insert_pair<F: FnMut(K, V)>(
        &mut self,
        hash: u64,
        pair: (K, V),
        sink: &mut F,
    ) -> Result<bool, AllocError>
        requires callable { MayTakeEach L.rules F.FnMut (pair ∷ self.old.pairs) sink.old }
        requires hash { hash ≡ S.hash_of self.old.hasher pair.0 }
        requires absent { lookup_entry (K.eq pair.0) self.old.pairs ≡ None }
        ensures passed { Passes F.FnMut L.rules sink.old sink.new self.old self.new (λ rules old new.
            PlacesNew rules S.hash_of pair old result new) }
    {
        self.settle();
        self.make_room(sink);
        // `insert_without_growth` takes a key and a value. If it took a pair, each insert would first clear memory for
        // a pair.
        let (key, value) = pair;
        if self.growth_left() == 0 {
            return self.insert_without_growth(hash, key, value, sink);
        }
        self.store_in_room(hash, (key, value));
        Ok(self.evict_over_limit(sink))
    }

    // Out of line, because inserts call this function only if no growth is left.
    #[cold]
    #[inline(never)]
    fn insert_without_growth<F: FnMut(K, V)>(
        &mut self,
        hash: u64,
        key: K,
        value: V,
        sink: &mut F,
    ) -> Result<bool, AllocError>
        requires callable { MayTakeEach L.rules F.FnMut ((key, value) ∷ self.old.pairs) sink.old }
        requires hash { hash ≡ S.hash_of self.old.hasher key }
        requires absent { lookup_entry (K.eq key) self.old.pairs ≡ None }
        requires no_growth_left { growth_left self.old ≡ 0 }
        ensures passed { Passes F.FnMut L.rules sink.old sink.new self.old self.new (λ rules old new.
            PlacesAndTrims rules S.hash_of (key, value) old result new) }
    {
        if self.is_empty() {
            return self.insert_without_bucket(hash, (key, value), sink);
        }
        match self.store_in_bucket(hash, (key, value)) {
            Ok(()) => Ok(self.evict_over_limit(sink)),
            Err(pair) => self.insert_without_bucket(hash, pair, sink),
        }
    }

    // Under `ByMemoryUsage`, each insert of a new entry may call this function. Out of line, so that the code of other
    // inserts stays short.
    #[inline(never)]
    fn insert_without_bucket<F: FnMut(K, V)>(
        &mut self,
        hash: u64,
        pair: (K, V),
        sink: &mut F,
    ) -> Result<bool, AllocError>
        requires callable { MayTakeEach L.rules F.FnMut (pair ∷ self.old.pairs) sink.old }
        requires hash { hash ≡ S.hash_of self.old.hasher pair.0 }
        requires absent { lookup_entry (K.eq pair.0) self.old.pairs ≡ None }
        requires no_bucket { HasNoBucket hash self.old }
        ensures passed { Passes F.FnMut L.rules sink.old sink.new self.old self.new (λ rules old new.
            PlacesAndTrims rules S.hash_of pair old result new) }
    {
        if !self.store_without_bucket(hash, pair, sink)? {
            return Ok(false);
        }
        Ok(self.evict_over_limit(sink))
    }
}
