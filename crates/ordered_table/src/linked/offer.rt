ghost use Rattle.std.specs.Prelude.{◌≡◌, ℕ, Some};
ghost use Rattle.group_table.specs.Bucket.{IsFull, entry_at};
ghost use Rattle.ordered_table.specs.Offers.{IsOffered, Offered};
ghost use Rattle.ordered_table.specs.OrderedTable.{IsLinked, KeysFit};

use crate::linked::{Entry, LinkedTable};
use group_table::LinkType;
use lru_limits::{Insertion, LookupKey};
use std::hash::Hash;
use std::mem;

impl<K: Eq + Hash, V, N: LinkType> LinkedTable<K, V, N> {
    #[inline]
    pub(crate) fn offer<I: LookupKey<K>, L: Insertion<K, V, I>>(
        &mut self,
        b: usize,
        length: usize,
        limiter: &mut L,
        key: I,
        value: &mut V,
    ) -> bool
        requires { IsFull self.old.slots b }
        ensures offered { IsOffered (λ pair. L.offers.on_replace limiter.old length pair.0 key pair.1 value.old) b self.old
            result self.new limiter.new value.new }
        ensures linked { IsLinked self.new }
        ensures fits { (hash_of : K → ℕ) → KeysFit hash_of self.old.slots → ((pair : K × V) →
            entry_at self.old.slots b ≡ Some pair → hash_of pair.0
            ≡ hash_of (L.offers.on_replace limiter.old length pair.0 key pair.1 value.old).key) →
            KeysFit hash_of self.new.slots }
    {
        offer_entry(self.chain.table.get_mut(b), length, limiter, key, value)
    }
}

#[inline]
fn offer_entry<K: Eq + Hash, V, N, I: LookupKey<K>, L: Insertion<K, V, I>>(
    entry: &mut Entry<K, V, N>,
    length: usize,
    limiter: &mut L,
    key: I,
    value: &mut V,
) -> bool
    ensures offered { Offered (L.offers.on_replace limiter.old length entry.old.key key entry.old.value value.old)
        result (entry.new.key, entry.new.value) limiter.new value.new }
    ensures newer { entry.new.newer ≡ entry.old.newer }
    ensures older { entry.new.older ≡ entry.old.older }
{
    let accepted = limiter.on_replace(length, &mut entry.key, key, &mut entry.value, &mut *value);
    if accepted {
        mem::swap(&mut entry.value, value);
    }
    accepted
}
