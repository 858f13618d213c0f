ghost use Rattle.std.specs.Prelude.{◌≡◌, ℕ, true, false, length, Some, Contains, IsTrue};
ghost use Rattle.group_table.specs.Bucket.{entry_at};
ghost use Rattle.ordered_table.specs.OrderedTable.{IsLinked, KeysFit};
ghost use Rattle.lru_model.specs.Inserts.{replacement, unkept_of};
ghost use Rattle.lru_model.specs.Lists.{lookup_entry};
ghost use Rattle.lru_model.specs.MayTake.{MayTakeRejected};
ghost use Rattle.lru_model.specs.State.{place_in, contents};
ghost use Rattle.lru_model.specs.Callbacks.{noting_offers};
ghost use Rattle.schnellru.specs.Inside.Steps.{IsReplaced, IsRemoved, IsOffered};
ghost use Rattle.schnellru.specs.Inside.Passing.{Passes, PassesRemoved};

use crate::map::LruMap;
use crate::map::remove::take_out;
use lru_limits::{Insertion, KeyHasher, Limiter, LookupKey};
use ordered_table::OrderedTable;
use std::hash::Hash;

impl<K: Eq + Hash, V, L: Limiter<K, V>, S: KeyHasher<K>> LruMap<K, V, L, S> {
    #[inline]
    pub(super) fn offer_at<I: LookupKey<K>, F: FnMut(K, V)>(
        &mut self,
        b: usize,
        key: I,
        value: V,
        sink: &mut F,
    ) -> (bool, V)
    where
        L: Insertion<K, V, I>,
        requires callable { (pair : K × V) → lookup_entry (I.names key) self.old.pairs ≡ Some pair →
            MayTakeRejected L.rules F.FnMut (replacement L.rules L.offers I.names pair key value (contents self.old))
            sink.old }
        requires found { place_in (I.names key) self.old ≡ Some b }
        ensures passed { Passes F.FnMut L.rules sink.old sink.new self.old self.new (λ rules old new.
            IsOffered rules (noting_offers L.offers) I.names key value old result new) }
        ensures kept { result.0 ≡ true → sink.new ≡ sink.old }
        ensures there { result.0 ≡ true → Contains self.new.table.places b }
    {
        offer(&mut self.entries, &mut self.limiter, b, key, value, sink)
    }
}

#[inline]
pub(super) fn offer<K: Eq + Hash, V, I: LookupKey<K>, L: Insertion<K, V, I>, F: FnMut(K, V)>(
    entries: &mut OrderedTable<K, V, L::LinkType>,
    limiter: &mut L,
    b: usize,
    key: I,
    mut value: V,
    sink: &mut F,
) -> (bool, V)
    requires callable { (pair : K × V) → entry_at entries.old.slots b ≡ Some pair → MayTakeRejected L.rules F.FnMut
        (L.offers.on_replace limiter.old (length entries.old.order) pair.0 key pair.1 value) sink.old }
    requires there { (pair : K × V) × (entry_at entries.old.slots b ≡ Some pair) × IsTrue (I.names key pair.0) }
    ensures taken { (pair : K × V) → entry_at entries.old.slots b ≡ Some pair →
        result.0 ≡ (L.offers.on_replace limiter.old (length entries.old.order) pair.0 key pair.1 value).taken }
    ensures unkept { (pair : K × V) → entry_at entries.old.slots b ≡ Some pair → result.1
        ≡ unkept_of (L.offers.on_replace limiter.old (length entries.old.order) pair.0 key pair.1 value) }
    ensures replaced { result.0 ≡ true → (pair : K × V) → entry_at entries.old.slots b ≡ Some pair →
        IsReplaced (L.offers.on_replace limiter.old (length entries.old.order) pair.0 key pair.1 value) b entries.old
        entries.new limiter.new }
    ensures removed { result.0 ≡ false → (pair : K × V) → entry_at entries.old.slots b ≡ Some pair →
        IsRemoved L.rules (L.offers.on_replace limiter.old (length entries.old.order) pair.0 key pair.1 value) b
        entries.old entries.new limiter.new }
    ensures kept { result.0 ≡ true → sink.new ≡ sink.old }
    ensures passed { result.0 ≡ false → (pair : K × V) → entry_at entries.old.slots b ≡ Some pair →
        PassesRemoved F.FnMut L.rules
        (L.offers.on_replace limiter.old (length entries.old.order) pair.0 key pair.1 value) sink.old sink.new }
    ensures linked { IsLinked entries.new }
    ensures fits { (hash_of : K → ℕ) → ((x y : K) → IsTrue (K.eq x y) → hash_of x ≡ hash_of y) →
        KeysFit hash_of entries.old.slots → KeysFit hash_of entries.new.slots }
{
    let accepted = entries.offer(b, limiter, key, &mut value);
    if accepted {
        (true, value)
    } else {
        let (key, old) = take_out(entries, limiter, b);
        sink(key, old);
        (false, value)
    }
}
