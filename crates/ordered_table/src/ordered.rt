//! `OrderedTable`.
ghost use Rattle.std.specs.Prelude.{◌≡◌, ℕ, ◌+◌, ◌<◌, false, [], length, Some, IfSome, IfNone, IsTrue};
ghost use Rattle.std.specs.Borrow.{sem};
ghost use Rattle.std.specs.Map.Iter.{deref_pair, deref_pair_mut};
ghost use Rattle.group_table.specs.Bucket.{bucket_states, IsFull, entry_at, growth_left};
ghost use Rattle.group_table.specs.Change.{no_insertions};
ghost use Rattle.ordered_table.specs.OrderedTable.{IsLinked, KeysFit, with_pair};
ghost use Rattle.ordered_table.specs.EntrySize.{entry_size};
ghost use Rattle.ordered_table.specs.Searches.{FindsPair, FindsNoPair};
ghost use Rattle.lru_model.specs.Lists.{first as first_bucket, last as last_bucket};
ghost use Rattle.ordered_table.specs.OrderedTable.{bucket_after, bucket_before};

use crate::linked::LinkedTable;
use group_table::LinkType;
use lru_limits::LookupKey;
use std::alloc::Global;
use std::hash::Hash;
use std::marker::Model;

mod changes;
mod equal;
mod index;
mod promoted;

/// A table whose full buckets are in an order, newest first. `N` is the type of its links.
///
/// Contracts represent a table by its `slots`, the `order` of its full buckets, and its `insertions`. Only `move_to`
/// computes hashes. The keys fit the table (`KeysFit`) if each entry was inserted with the hash of its key.
///
/// ```
/// let hasher = RandomState::default();
/// let mut table: OrderedTable<u64, u64, u32> = OrderedTable::new(alloc);
/// table.move_to(4, &hasher)?;
/// for key in [1u64, 2, 3] {
///     let _ = table.try_place(hasher.hash_one(&key), (key, 10 * key));
/// }
/// if let Some(b) = table.find(hasher.hash_one(&1u64), &1u64) {
///     table.promote(b);
/// }
/// assert!(rt; table.iter().next() == Some((&1, &10)));
/// ```
pub struct OrderedTable<K, V, N: LinkType> {
    linked: LinkedTable<K, V, N>,
    // The bucket of the pending promotion, which is not yet written into the links. The next call that changes the
    // order writes it.
    promoted: Option<usize>,
}

impl<K: Drop, V: Drop, N: LinkType> Drop for OrderedTable<K, V, N> {
    fn drop(self) {
        let OrderedTable {
            linked,
            promoted: _,
        } = self;
        drop(linked);
    }
}

impl<K, V, N: LinkType> Model for OrderedTable<K, V, N> {
    ghost use Rattle.std.specs.Prelude.{IfSome};
    ghost use Rattle.group_table.specs.Bucket.{IsFull};
    ghost use Rattle.ordered_table.specs.OrderedTable.{OrderedTable as Seen, in_front, IsLinked};

    ghost Value = { Seen K V };

    ghost view = { λ t. record t.linked { order = in_front t.promoted t.linked.order } };

    ghost invariant = { λ t. IsLinked t.linked × IfSome t.promoted (IsFull t.linked.slots) };
}

impl<K, V, N: LinkType> OrderedTable<K, V, N> {
    ghost use Rattle.ordered_table.specs.PairLends.{lends_pair};

    /// Makes a table without buckets, and allocates nothing.
    pub fn new(alloc: Global) -> Self
        ensures slots { result.slots ≡ [] }
        ensures order { result.order ≡ [] }
        ensures insertions { result.insertions ≡ no_insertions }
        ensures linked { IsLinked result }
        ensures fits { (hash_of : K → ℕ) → KeysFit hash_of result.slots }
    {
        OrderedTable {
            linked: LinkedTable::new(alloc),
            promoted: None,
        }
    }

    /// Returns the size of an entry: a key, a value and two links.
    pub const fn entry_bytes() -> usize
        ensures { result ≡ entry_size K.row V.row N.row }
    {
        LinkedTable::<K, V, N>::entry_bytes()
    }

    /// Returns the number of entries.
    #[inline]
    pub fn len(&self) -> usize
        ensures len { result ≡ length self.now.order }
        ensures linked { IsLinked self.now }
    {
        self.linked.len()
    }

    /// Returns the number of buckets.
    #[inline]
    pub fn buckets(&self) -> usize
        ensures buckets { result ≡ length self.now.slots }
        ensures linked { IsLinked self.now }
        ensures reached { length self.now.slots < N.number N.MAX }
    {
        self.linked.buckets()
    }

    /// Returns how many empty buckets may still be filled.
    #[inline]
    pub fn growth_left(&self) -> usize
        ensures growth_left { result ≡ growth_left (bucket_states self.now.slots) }
        ensures linked { IsLinked self.now }
    {
        self.linked.growth_left()
    }

    /// Returns the number of entries that were put into the table. A moved entry is not counted again.
    #[inline]
    pub fn placed(&self) -> u64
        ensures placed { result ≡ self.now.insertions.placed }
    {
        self.linked.placed()
    }

    /// Returns the entry in a full bucket.
    #[inline]
    pub fn pair(&self, b: usize) -> (&K, &V)
        requires { IsFull self.now.slots b }
        ensures pair { entry_at self.now.slots b ≡ Some (deref_pair result) }
    {
        self.linked.pair(b)
    }

    /// Returns the bucket of the newest entry. The table must not be empty.
    #[inline]
    pub fn newest(&self) -> usize
        requires { 0 < length self.now.order }
        ensures newest { first_bucket self.now.order ≡ Some result }
    {
        promoted::newest(&self.linked, self.promoted)
    }

    /// Returns the bucket of the oldest entry. The table must not be empty.
    #[inline]
    pub fn oldest(&self) -> usize
        requires { 0 < length self.now.order }
        ensures oldest { last_bucket self.now.order ≡ Some result }
    {
        promoted::oldest(&self.linked, self.promoted)
    }

    /// Returns the bucket just older than the full bucket `b`. For the oldest bucket, the result is any number.
    #[inline]
    pub fn older_unless_last(&self, b: usize) -> usize
        requires { IsFull self.now.slots b }
        ensures older { (c : ℕ) → bucket_after b self.now.order ≡ Some c → result ≡ c }
    {
        promoted::older_unless_last(&self.linked, self.promoted, b)
    }

    /// Returns the bucket just newer than the full bucket `b`. For the newest bucket, the result is any number.
    #[inline]
    pub fn newer_unless_first(&self, b: usize) -> usize
        requires { IsFull self.now.slots b }
        ensures newer { (c : ℕ) → bucket_before b self.now.order ≡ Some c → result ≡ c }
    {
        promoted::newer_unless_first(&self.linked, self.promoted, b)
    }

    /// Lends the value of the entry in a full bucket for writing.
    #[inline]
    pub fn pair_mut(&mut self, b: usize) -> (&K, &mut V)
        requires { IsFull self.old.slots b }
        ensures* writes_back { sem 𝓛
            (lends_pair K.row V.row N.row N.LinkType self.entry b result) }
        ensures pair { entry_at self.old.slots b ≡ Some (deref_pair_mut result) }
        ensures fits { (hash_of : K → ℕ) → KeysFit hash_of self.old.slots → (last : V) →
            KeysFit hash_of (with_pair self.old b (result.0.now, last)).slots }
        ensures linked { (last : V) → IsLinked (with_pair self.old b (result.0.now, last)) }
    {
        self.linked.pair_mut(b)
    }

    /// Returns the bucket of the first entry that `f` accepts.
    ///
    /// `f` is called as `LruMap::get_by_hash` of `schnellru` calls its closure.
    ///
    /// Cost: `O(1)` expected.
    #[inline]
    pub fn find_by<F: FnMut(&K, &V) -> bool>(&self, hash: u64, f: F) -> Option<usize>
        requires { F.IsAlwaysCallable f }
        ensures found { IfSome result (FindsPair F.FnMut self.now.slots hash f) }
        ensures full { IfSome result (IsFull self.now.slots) }
        ensures none { IfNone result (FindsNoPair F.FnMut self.now.slots hash f) }
    {
        self.linked.find_by(hash, f)
    }
}

impl<K: Eq + Hash, V, N: LinkType> OrderedTable<K, V, N> {
    /// Returns the bucket of the key that `key` names. `hash` must be the hash of this key.
    ///
    /// Cost: `O(1)` expected.
    #[inline]
    pub fn find<Q: LookupKey<K>>(&self, hash: u64, key: &Q) -> Option<usize>
        ensures found { IfSome result (λ b. (pair : K × V) × (entry_at self.now.slots b ≡ Some pair)
            × IsTrue (Q.names key.now pair.0)) }
        ensures full { IfSome result (IsFull self.now.slots) }
        ensures none { IfNone result ((hash_of : K → ℕ) → KeysFit hash_of self.now.slots →
            (b : ℕ) (pair : K × V) → entry_at self.now.slots b ≡ Some pair → hash_of pair.0 ≡ hash
            → Q.names key.now pair.0 ≡ false) }
    {
        self.linked.find(hash, key)
    }
}
