//! The calls that change the order of an `OrderedTable`, or its buckets. Most of these calls first write the pending
//! promotion, if any, into the links.
ghost use Rattle.std.specs.Prelude.{◌≡◌, ℕ, ◌+◌, ◌^◌, ◌<◌, ◌≤◌, [], ◌∷◌, ◌++◌, length, Some, replicate};
ghost use Rattle.std.specs.Prelude.{IfOk, IfErr, OnOk, OnErr, IsOk};
ghost use Rattle.std.specs.List.{AllZip};
ghost use Rattle.group_table.specs.Sizes.{IsBucketCount, full_capacity};
ghost use Rattle.group_table.specs.Bucket.{empty, bucket_states, IsFull, entry_at, entry_count, growth_left};
ghost use Rattle.group_table.specs.Change.{HasNoPlace, some_moved};
ghost use Rattle.lru_model.specs.Clones.{IsPairClone};
ghost use Rattle.lru_model.specs.Lists.{last as last_bucket};
ghost use Rattle.ordered_table.specs.Offers.{IsOffered};
ghost use Rattle.ordered_table.specs.OrderedTable.{IsLinked, KeysFit, Lands, Takes, pairs_of, without_bucket};

use crate::ordered::OrderedTable;
use crate::ordered::promoted::settle;
use group_table::LinkType;
use lru_limits::{Insertion, KeyHasher, LookupKey};
use std::alloc::AllocError;
use std::hash::Hash;

impl<K, V, N: LinkType> OrderedTable<K, V, N> {
    /// Writes the pending promotion into the links, so that the compiler can omit this step in the next calls.
    #[inline(always)]
    pub fn settle(&mut self)
        ensures { self.new ≡ self.old }
    {
        settle(&mut self.linked, &mut self.promoted);
    }

    /// Puts an entry whose key has this hash into the first free bucket, as the newest. There must be growth left.
    ///
    /// Cost: `O(1)` expected.
    #[inline(always)]
    pub fn place(&mut self, hash: u64, pair: (K, V))
        requires { 0 < growth_left (bucket_states self.old.slots) }
        ensures placed { (b : ℕ) × Lands self.old self.new hash pair b }
        ensures fits { (hash_of : K → ℕ) → KeysFit hash_of self.old.slots → hash_of pair.0 ≡ hash
            → KeysFit hash_of self.new.slots }
        ensures linked { IsLinked self.new }
    {
        settle(&mut self.linked, &mut self.promoted);
        self.linked.place(hash, pair);
    }

    /// Does what `place` does. If no growth is left, only a deleted bucket may take the entry.
    ///
    /// # Errors
    ///
    /// Returns the entry if no bucket may take it. Then nothing has changed.
    pub fn try_place(&mut self, hash: u64, pair: (K, V)) -> Result<(), (K, V)>
        ensures placed { OnOk result ((b : ℕ) × Lands self.old self.new hash pair b) }
        ensures fits { OnOk result ((hash_of : K → ℕ) → KeysFit hash_of self.old.slots → hash_of pair.0 ≡ hash
            → KeysFit hash_of self.new.slots) }
        ensures linked { IsLinked self.new }
        ensures returned { IfErr result (λ back. back ≡ pair) }
        ensures unchanged { OnErr result (self.new ≡ self.old) }
        ensures no_place { OnErr result (HasNoPlace (bucket_states self.old.slots) hash) }
    {
        settle(&mut self.linked, &mut self.promoted);
        self.linked.try_place(hash, pair)
    }

    /// Makes the entry in a full bucket the newest.
    ///
    /// Cost: `O(1)`.
    #[inline]
    pub fn promote(&mut self, b: usize)
        requires { IsFull self.old.slots b }
        ensures slots { self.new.slots ≡ self.old.slots }
        ensures order { self.new.order ≡ b ∷ without_bucket b self.old.order }
        ensures insertions { self.new.insertions ≡ self.old.insertions }
        ensures linked { IsLinked self.new }
    {
        match &mut self.promoted {
            Some(last) => {
                self.linked.promote(*last);
                *last = b;
            }
            // Writes this promotion into the links at once. This write touches the second-oldest entry. If calls keep
            // promoting the oldest entry, the next call reads the entry touched here.
            None if self.linked.oldest() == b => self.linked.promote(b),
            None => self.promoted = Some(b),
        }
    }

    /// Makes the entry in a full bucket the oldest.
    ///
    /// Cost: `O(1)`.
    pub fn demote(&mut self, b: usize)
        requires { IsFull self.old.slots b }
        ensures slots { self.new.slots ≡ self.old.slots }
        ensures order { self.new.order ≡ without_bucket b self.old.order ++ b ∷ [] }
        ensures insertions { self.new.insertions ≡ self.old.insertions }
        ensures linked { IsLinked self.new }
    {
        settle(&mut self.linked, &mut self.promoted);
        self.linked.demote(b);
    }

    /// Takes the entry out of a full bucket.
    ///
    /// Cost: `O(1)`.
    #[inline(always)]
    pub fn take(&mut self, b: usize) -> (K, V)
        requires { IsFull self.old.slots b }
        ensures taken { Takes self.old self.new b result }
        ensures fits { (hash_of : K → ℕ) → KeysFit hash_of self.old.slots → KeysFit hash_of self.new.slots }
        ensures linked { IsLinked self.new }
    {
        settle(&mut self.linked, &mut self.promoted);
        self.linked.take(b, false)
    }

    /// Takes out the oldest entry, without reading its `older` link. The table must not be empty.
    ///
    /// Cost: `O(1)`.
    #[inline(always)]
    pub fn take_oldest(&mut self) -> (K, V)
        requires { 0 < length self.old.order }
        ensures taken { (b : ℕ) × (last_bucket self.old.order ≡ Some b) × Takes self.old self.new b result }
        ensures fits { (hash_of : K → ℕ) → KeysFit hash_of self.old.slots → KeysFit hash_of self.new.slots }
        ensures linked { IsLinked self.new }
    {
        settle(&mut self.linked, &mut self.promoted);
        let b = self.linked.oldest();
        self.linked.take(b, true)
    }
}

impl<K: Drop, V: Drop, N: LinkType> OrderedTable<K, V, N> {
    /// Drops all entries. The buckets stay, and are empty.
    ///
    /// Cost: `O(buckets)`.
    pub fn clear(&mut self)
        ensures slots { self.new.slots ≡ replicate (length self.old.slots) empty }
        ensures order { self.new.order ≡ [] }
        ensures insertions { self.new.insertions ≡ self.old.insertions }
        ensures fits { (hash_of : K → ℕ) → KeysFit hash_of self.new.slots }
        ensures linked { IsLinked self.new }
    {
        self.promoted = None;
        self.linked.clear();
    }
}

impl<K: Eq + Hash, V, N: LinkType> OrderedTable<K, V, N> {
    /// Offers a limiter a new value for the entry in a full bucket. Returns whether the limiter accepted the value. If
    /// it did, the entry has the new value, and `value` is the old value. The order stays.
    #[inline]
    pub fn offer<I: LookupKey<K>, L: Insertion<K, V, I>>(
        &mut self,
        b: usize,
        limiter: &mut L,
        key: I,
        value: &mut V,
    ) -> bool
        requires { IsFull self.old.slots b }
        ensures offered { IsOffered (λ pair. L.offers.on_replace limiter.old (length self.old.order) pair.0 key pair.1
            value.old) b self.old result self.new limiter.new value.new }
        ensures linked { IsLinked self.new }
        ensures fits { (hash_of : K → ℕ) → KeysFit hash_of self.old.slots → ((pair : K × V) →
            entry_at self.old.slots b ≡ Some pair → hash_of pair.0
            ≡ hash_of (L.offers.on_replace limiter.old (length self.old.order) pair.0 key pair.1 value.old).key) →
            KeysFit hash_of self.new.slots }
    {
        let length = self.len();
        self.linked.offer(b, length, limiter, key, value)
    }

    /// Moves all entries into a table of `buckets` buckets, in the same order. If the table already has `buckets`
    /// buckets, rehashes the entries in place.
    ///
    /// Cost: `O(old buckets + new buckets)`, and a hash for each entry.
    ///
    /// # Errors
    ///
    /// Out of memory. Nothing has changed. The call never fails if `buckets` is 0, or if a table without entries keeps
    /// its number of buckets.
    pub fn move_to<S: KeyHasher<K>>(&mut self, buckets: usize, hasher: &S) -> Result<(), AllocError>
        requires count { IsBucketCount buckets }
        requires addressable { buckets + 16 < 2 ^ 63 }
        requires below { buckets < N.number N.MAX }
        requires within { entry_count self.old.slots ≤ full_capacity buckets }
        ensures buckets { OnOk result (length self.new.slots ≡ buckets) }
        ensures pairs { pairs_of self.new ≡ pairs_of self.old }
        ensures growth_left { OnOk result (growth_left (bucket_states self.new.slots) + length self.old.order ≡ full_capacity buckets) }
        ensures insertions { OnOk result (
            self.new.insertions ≡ some_moved self.old.insertions (length self.old.order)) }
        ensures fits { OnOk result (KeysFit (S.hash_of hasher.now) self.new.slots) }
        ensures linked { IsLinked self.new }
        ensures unchanged { OnErr result (self.new ≡ self.old) }
        ensures succeeds { length self.old.order ≡ 0 → length self.old.slots ≡ buckets → IsOk result }
        ensures gives_back { buckets ≡ 0 → IsOk result }
    {
        settle(&mut self.linked, &mut self.promoted);
        self.linked.move_to(buckets, hasher)
    }
}

impl<K: Drop, V: Drop, N: LinkType> OrderedTable<K, V, N> {
    /// Clones each entry into the bucket with the same number, in the same order.
    ///
    /// Cost: `O(buckets)`, and a clone of each key and value.
    ///
    /// # Errors
    ///
    /// Out of memory, or a clone failed. Without buckets the call never fails.
    pub fn copy(&self) -> Result<Self, AllocError>
    where
        K: Clone,
        V: Clone,
        ensures pairs { IfOk result (λ t. AllZip (IsPairClone K.is_clone V.is_clone) (pairs_of self.now) (pairs_of t)) }
        ensures order { IfOk result (λ t. t.order ≡ self.now.order) }
        ensures states { IfOk result (λ t. bucket_states t.slots ≡ bucket_states self.now.slots) }
        ensures insertions { IfOk result (λ t. t.insertions ≡ self.now.insertions) }
        ensures fits { IfOk result (λ t. (hash_of other : K → ℕ)
            → ((key copy : K) → K.is_clone key copy → other copy ≡ hash_of key) →
            KeysFit hash_of self.now.slots → KeysFit other t.slots) }
        ensures linked { IfOk result IsLinked }
        ensures succeeds { length self.now.slots ≡ 0 → IsOk result }
    {
        Ok(OrderedTable {
            linked: self.linked.copy()?,
            promoted: self.promoted,
        })
    }
}
