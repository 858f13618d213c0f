//! The search for a key, and what follows it: a promotion, a demotion or a removal.
ghost use Rattle.std.specs.Prelude.{◌≡◌, Bool, Some, None, IfSome, IfNone, IsTrue, Contains};
ghost use Rattle.lru_model.specs.Lists.{lookup_entry};
ghost use Rattle.lru_model.specs.State.{place_in, Frees, IsMap};
ghost use Rattle.lru_model.specs.Calls.{promoted, demoted, written, RemoveEntry};
ghost use Rattle.std.specs.Borrow.{sem};
ghost use Rattle.std.specs.Map.Iter.{deref_pair};
ghost use Rattle.schnellru.specs.Lending.Values.{written_in};

use crate::map::LruMap;
use crate::map::remove::take_out;
use lru_limits::{KeyHasher, Limiter, LookupKey};
use std::hash::Hash;

impl<K: Eq + Hash, V, L: Limiter<K, V>, S: KeyHasher<K>> LruMap<K, V, L, S> {
    ghost use Rattle.schnellru.specs.Lending.Values.{lends_value_in};

    #[inline(always)]
    pub(crate) fn find<Q: LookupKey<K>>(&self, key: &Q) -> Option<usize>
        ensures found { IfSome result (λ b. place_in (Q.names key.now) self.now ≡ Some b) }
        ensures there { IfSome result (Contains self.now.table.places) }
        ensures none { IfNone result (lookup_entry (Q.names key.now) self.now.pairs ≡ None) }
        ensures map { IsMap K.eq self.now }
    {
        self.find_hashed(self.hasher.hash_named(key), key)
    }

    #[inline]
    pub(super) fn find_hashed<Q: LookupKey<K>>(&self, hash: u64, key: &Q) -> Option<usize>
        requires hash { (k : K) → IsTrue (Q.names key.now k) → hash ≡ S.hash_of self.now.hasher k }
        ensures found { IfSome result (λ b. place_in (Q.names key.now) self.now ≡ Some b) }
        ensures there { IfSome result (Contains self.now.table.places) }
        ensures none { IfNone result (lookup_entry (Q.names key.now) self.now.pairs ≡ None) }
    {
        self.entries.find(hash, key)
    }

    #[inline]
    pub(super) fn pair_in(&self, b: usize) -> (&K, &V)
        requires { Contains self.now.table.places b }
        ensures { (names : K → Bool) → ((x y : K) → IsTrue (names x) → names y ≡ K.eq x y) →
            place_in names self.now ≡ Some b →
            lookup_entry names self.now.pairs ≡ Some (deref_pair result) }
    {
        self.entries.pair(b)
    }

    #[inline]
    pub(super) fn value_in_mut(&mut self, b: usize) -> &mut V
        requires { Contains self.old.table.places b }
        ensures* writes_back { sem 𝓛 (lends_value_in K.row V.row L.row S.row L.LinkType.row S.Hasher.row K.Hash L.Limiter
            L.LinkType.LinkType S.KeyHasher S.Hasher.Hasher self.entry b result) }
        ensures pair { (names : K → Bool) → ((x y : K) → IsTrue (names x) → names y ≡ K.eq x y) →
            place_in names self.old ≡ Some b →
            (key : K) × (lookup_entry names self.old.pairs ≡ Some (key, result.now)) }
        ensures written { (names : K → Bool) (last : V) → place_in names self.old ≡ Some b →
            written_in b last self.old ≡ written names last self.old }
        ensures map { (last : V) → IsMap K.eq (written_in b last self.old) }
    {
        self.entries.pair_mut(b).1
    }

    #[inline]
    pub(super) fn promote_at(&mut self, b: usize)
        requires { Contains self.old.table.places b }
        ensures promoted { (names : K → Bool) → ((x y : K) → IsTrue (names x) → names y ≡ K.eq x y) →
            place_in names self.old ≡ Some b → self.new ≡ promoted names self.old }
        ensures there { Contains self.new.table.places b }
        ensures map { IsMap K.eq self.new }
    {
        self.entries.promote(b);
    }

    #[inline(always)]
    pub(crate) fn settle(&mut self)
        ensures { self.new ≡ self.old }
    {
        self.entries.settle();
    }

    #[inline]
    pub(super) fn demote_at(&mut self, b: usize)
        requires { Contains self.old.table.places b }
        ensures demoted { (names : K → Bool) → ((x y : K) → IsTrue (names x) → names y ≡ K.eq x y) →
            place_in names self.old ≡ Some b → self.new ≡ demoted names self.old }
        ensures place { (names : K → Bool) → ((x y : K) → IsTrue (names x) → names y ≡ K.eq x y) →
            place_in names self.old ≡ Some b → place_in names self.new ≡ Some b }
        ensures there { Contains self.new.table.places b }
        ensures map { IsMap K.eq self.new }
    {
        self.entries.demote(b);
    }

    #[inline]
    pub(super) fn take_at(&mut self, b: usize) -> (K, V)
        requires { Contains self.old.table.places b }
        ensures step { (names : K → Bool) → ((x y : K) → IsTrue (names x) → names y ≡ K.eq x y) →
            place_in names self.old ≡ Some b →
            RemoveEntry L.rules names self.old (Some result) self.new }
        ensures freed { Frees (Some b) self.old.table self.new.table }
        ensures map { IsMap K.eq self.new }
    {
        take_out(&mut self.entries, &mut self.limiter, b)
    }
}
