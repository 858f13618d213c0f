//! `LinkedTable`: a table whose entries have links to their newer and older neighbours, so a promotion or a removal
//! needs no walk.
ghost use Rattle.std.specs.Prelude.{◌≡◌, ℕ, ◌+◌, ◌<◌, false, [], ◌∷◌, ◌++◌, length, Some, IfSome};
ghost use Rattle.std.specs.Prelude.{IfNone, IsTrue, replicate};
ghost use Rattle.std.specs.Borrow.{sem};
ghost use Rattle.std.specs.Map.Iter.{deref_pair, deref_pair_mut};
ghost use Rattle.group_table.specs.Bucket.{empty, bucket_states, IsFull, entry_at, growth_left, growth_left_at};
ghost use Rattle.group_table.specs.Change.{Removes, no_insertions};
ghost use Rattle.ordered_table.specs.OrderedTable.{IsLinked, KeysFit, without_bucket, with_pair};
ghost use Rattle.ordered_table.specs.EntrySize.{entry_size};
ghost use Rattle.lru_model.specs.ByHash.{Asks};
ghost use Rattle.ordered_table.specs.Searches.{FindsPair, FindsNoPair};
ghost use Rattle.lru_model.specs.Lists.{first as first_bucket, last as last_bucket};
ghost use Rattle.ordered_table.specs.Chain.{pair_slots};
ghost use Rattle.ordered_table.specs.OrderedTable.{bucket_after, bucket_before};

use crate::linked::chain::Chain;
use group_table::{LinkType, Table};
use lru_limits::LookupKey;
use std::alloc::Global;
use std::hash::Hash;
use std::marker::Model;

mod chain;
mod copy;
mod moves;
mod offer;
mod place;

// A key and its value, with links to the neighbours in the order. At an end of the order, the link is `MAX`. The links
// are in the same struct as the key and the value, to fill the padding of the struct.
#[derive(Drop)]
pub(crate) struct Entry<K, V, N> {
    key: K,
    value: V,
    newer: N,
    older: N,
}

pub(crate) struct LinkedTable<K, V, N: LinkType> {
    chain: Chain<K, V, N>,
}

impl<K: Drop, V: Drop, N: LinkType> Drop for LinkedTable<K, V, N> {
    fn drop(self) {
        let LinkedTable { chain } = self;
        drop(chain);
    }
}

impl<K, V, N: LinkType> Model for LinkedTable<K, V, N> {
    ghost use Rattle.ordered_table.specs.OrderedTable.{OrderedTable as Seen};

    ghost Value = { Seen K V };

    ghost use Rattle.std.specs.Prelude.{length};
    ghost use Rattle.ordered_table.specs.Chain.{pair_slots, along, IsWhole};

    ghost view = { λ t. record {
      slots = pair_slots t.chain.table.slots;
      order = along N.number (length t.chain.table.slots) t.chain.table.slots t.chain.newest;
      insertions = t.chain.table.insertions;
    } };

    ghost invariant = { λ t. IsWhole N.number N.link N.MAX t.chain.table.slots t.chain.newest t.chain.oldest
        (along N.number (length t.chain.table.slots) t.chain.table.slots t.chain.newest) };
}

impl<K, V, N: LinkType> LinkedTable<K, V, N> {
    ghost use Rattle.ordered_table.specs.PairLends.{lends_linked_pair};

    pub(crate) fn new(alloc: Global) -> Self
        ensures slots { result.slots ≡ [] }
        ensures order { result.order ≡ [] }
        ensures insertions { result.insertions ≡ no_insertions }
        ensures linked { IsLinked result }
        ensures fits { (hash_of : K → ℕ) → KeysFit hash_of result.slots }
    {
        LinkedTable {
            chain: Chain {
                table: Table::new(alloc),
                newest: N::MAX,
                oldest: N::MAX,
            },
        }
    }

    pub(crate) const fn entry_bytes() -> usize
        ensures { result ≡ entry_size K.row V.row N.row }
    {
        Table::<Entry<K, V, N>>::entry_bytes()
    }

    #[inline]
    pub(crate) fn len(&self) -> usize
        ensures len { result ≡ length self.now.order }
        ensures linked { IsLinked self.now }
    {
        self.chain.table.len()
    }

    #[inline]
    pub(crate) fn buckets(&self) -> usize
        ensures buckets { result ≡ length self.now.slots }
        ensures linked { IsLinked self.now }
        ensures reached { length self.now.slots < N.number N.MAX }
    {
        self.chain.table.buckets()
    }

    #[inline]
    pub(crate) fn growth_left(&self) -> usize
        ensures growth_left { result ≡ growth_left (bucket_states self.now.slots) }
        ensures linked { IsLinked self.now }
    {
        self.chain.table.growth_left()
    }

    #[inline]
    pub(crate) fn placed(&self) -> u64
        ensures placed { result ≡ self.now.insertions.placed }
    {
        self.chain.table.placed()
    }

    #[inline]
    pub(crate) fn pair(&self, b: usize) -> (&K, &V)
        requires { IsFull self.now.slots b }
        ensures pair { entry_at self.now.slots b ≡ Some (deref_pair result) }
    {
        let entry = self.chain.table.get(b);
        (&entry.key, &entry.value)
    }

    #[inline]
    pub(crate) fn newest(&self) -> usize
        requires { 0 < length self.now.order }
        ensures newest { first_bucket self.now.order ≡ Some result }
    {
        self.chain.newest.into_usize()
    }

    #[inline]
    pub(crate) fn oldest(&self) -> usize
        requires { 0 < length self.now.order }
        ensures oldest { last_bucket self.now.order ≡ Some result }
    {
        self.chain.oldest.into_usize()
    }

    #[inline]
    pub(crate) fn older_unless_last(&self, b: usize) -> usize
        requires { IsFull self.now.slots b }
        ensures older { (c : ℕ) → bucket_after b self.now.order ≡ Some c → result ≡ c }
    {
        self.chain.table.get(b).older.into_usize()
    }

    #[inline]
    pub(crate) fn newer_unless_first(&self, b: usize) -> usize
        requires { IsFull self.now.slots b }
        ensures newer { (c : ℕ) → bucket_before b self.now.order ≡ Some c → result ≡ c }
    {
        self.chain.table.get(b).newer.into_usize()
    }

    #[inline]
    pub(crate) fn pair_mut(&mut self, b: usize) -> (&K, &mut V)
        requires { IsFull self.old.slots b }
        ensures* writes_back { sem 𝓛
            (lends_linked_pair K.row V.row N.row N.LinkType self.entry b result) }
        ensures pair { entry_at self.old.slots b ≡ Some (deref_pair_mut result) }
        ensures fits { (hash_of : K → ℕ) → KeysFit hash_of self.old.slots → (last : V) →
            KeysFit hash_of (with_pair self.old b (result.0.now, last)).slots }
        ensures linked { (last : V) → IsLinked (with_pair self.old b (result.0.now, last)) }
    {
        let entry = self.chain.table.get_mut(b);
        (&entry.key, &mut entry.value)
    }

    #[inline]
    pub(crate) fn find_by<F: FnMut(&K, &V) -> bool>(&self, hash: u64, mut f: F) -> Option<usize>
        requires { F.IsAlwaysCallable f }
        ensures found { IfSome result (FindsPair F.FnMut self.now.slots hash f) }
        ensures full { IfSome result (IsFull self.now.slots) }
        ensures none { IfNone result (FindsNoPair F.FnMut self.now.slots hash f) }
    {
        self.chain.table.find(
            hash,
            move |entry: &Entry<K, V, N>| -> bool
                requires { F.IsAlwaysCallable f }
                ensures { Asks F.FnMut f.entry (entry.now.key, entry.now.value) result f.exit }
            { f(&entry.key, &entry.value) },
        )
    }

    #[inline]
    pub(crate) fn promote(&mut self, b: usize)
        requires { IsFull self.old.slots b }
        ensures slots { self.new.slots ≡ self.old.slots }
        ensures order { self.new.order ≡ b ∷ without_bucket b self.old.order }
        ensures insertions { self.new.insertions ≡ self.old.insertions }
        ensures linked { IsLinked self.new }
    {
        let newer = self.chain.table.get(b).newer;
        if !self.chain.leads(newer) {
            return;
        }
        self.chain.unlink(b);
        self.chain.link_newest(b);
    }

    pub(crate) fn demote(&mut self, b: usize)
        requires { IsFull self.old.slots b }
        ensures slots { self.new.slots ≡ self.old.slots }
        ensures order { self.new.order ≡ without_bucket b self.old.order ++ b ∷ [] }
        ensures insertions { self.new.insertions ≡ self.old.insertions }
        ensures linked { IsLinked self.new }
    {
        let older = self.chain.table.get(b).older;
        if !self.chain.leads(older) {
            return;
        }
        self.chain.unlink(b);
        self.chain.link_oldest(b);
    }

    #[inline(always)]
    pub(crate) fn take(&mut self, b: usize, last: bool) -> (K, V)
        requires full { IsFull self.old.slots b }
        requires last { IsTrue last → last_bucket self.old.order ≡ Some b }
        ensures pair { entry_at self.old.slots b ≡ Some result }
        ensures removed { Removes self.old.slots self.new.slots b }
        ensures order { self.new.order ≡ without_bucket b self.old.order }
        ensures insertions { self.new.insertions ≡ self.old.insertions }
        ensures growth_left { growth_left (bucket_states self.new.slots) ≡ growth_left (bucket_states self.old.slots)
            + growth_left_at (bucket_states self.new.slots) b }
        ensures fits { (hash_of : K → ℕ) → KeysFit hash_of self.old.slots → KeysFit hash_of self.new.slots }
        ensures linked { IsLinked self.new }
    {
        let Entry {
            key,
            value,
            newer,
            older,
        } = self.chain.table.take(b);
        self.chain.close_gap(newer, older, last);
        (key, value)
    }
}

impl<K: Drop, V: Drop, N: LinkType> LinkedTable<K, V, N> {
    pub(crate) fn clear(&mut self)
        ensures slots { self.new.slots ≡ replicate (length self.old.slots) empty }
        ensures order { self.new.order ≡ [] }
        ensures insertions { self.new.insertions ≡ self.old.insertions }
        ensures fits { (hash_of : K → ℕ) → KeysFit hash_of self.new.slots }
        ensures linked { IsLinked self.new }
    {
        self.chain.table.clear();
        self.chain.newest = N::MAX;
        self.chain.oldest = N::MAX;
    }
}

impl<K: Eq + Hash, V, N: LinkType> LinkedTable<K, V, N> {
    #[inline]
    pub(crate) fn find<Q: LookupKey<K>>(&self, hash: u64, key: &Q) -> Option<usize>
        ensures found { IfSome result (λ b. (pair : K × V) × (entry_at self.now.slots b ≡ Some pair)
            × IsTrue (Q.names key.now pair.0)) }
        ensures full { IfSome result (IsFull self.now.slots) }
        ensures none { IfNone result ((hash_of : K → ℕ) → KeysFit hash_of self.now.slots →
            (b : ℕ) (pair : K × V) → entry_at self.now.slots b ≡ Some pair → hash_of pair.0 ≡ hash
            → Q.names key.now pair.0 ≡ false) }
    {
        self.chain.table.find(hash, |entry| key.is_key(&entry.key))
    }
}
