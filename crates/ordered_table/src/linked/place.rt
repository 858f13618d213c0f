ghost use Rattle.std.specs.Prelude.{◌≡◌, ℕ, ◌<◌, OnOk, OnErr, IfErr};
ghost use Rattle.group_table.specs.Bucket.{bucket_states, growth_left};
ghost use Rattle.group_table.specs.Change.{HasNoPlace};
ghost use Rattle.ordered_table.specs.OrderedTable.{IsLinked, KeysFit, Lands};

use crate::linked::{Entry, LinkedTable};
use group_table::LinkType;

impl<K, V, N: LinkType> LinkedTable<K, V, N> {
    #[inline(always)]
    pub(crate) fn place(&mut self, hash: u64, pair: (K, V))
        requires { 0 < growth_left (bucket_states self.old.slots) }
        ensures placed { (b : ℕ) × Lands self.old self.new hash pair b }
        ensures fits { (hash_of : K → ℕ) → KeysFit hash_of self.old.slots → hash_of pair.0 ≡ hash
            → KeysFit hash_of self.new.slots }
        ensures linked { IsLinked self.new }
    {
        let first = self.chain.newest;
        let b = self.chain.table.place(hash, newest_entry(pair, first));
        self.chain.link_placed(b, first);
    }

    pub(crate) fn try_place(&mut self, hash: u64, pair: (K, V)) -> Result<(), (K, V)>
        ensures placed { OnOk result ((b : ℕ) × Lands self.old self.new hash pair b) }
        ensures fits { OnOk result ((hash_of : K → ℕ) → KeysFit hash_of self.old.slots → hash_of pair.0 ≡ hash
            → KeysFit hash_of self.new.slots) }
        ensures linked { IsLinked self.new }
        ensures returned { IfErr result (λ back. back ≡ pair) }
        ensures unchanged { OnErr result (self.new ≡ self.old) }
        ensures no_place { OnErr result (HasNoPlace (bucket_states self.old.slots) hash) }
    {
        let first = self.chain.newest;
        match self.chain.table.try_place(hash, newest_entry(pair, first)) {
            Ok(b) => {
                self.chain.link_placed(b, first);
                Ok(())
            }
            Err(entry) => Err((entry.key, entry.value)),
        }
    }
}

#[inline]
fn newest_entry<K, V, N: LinkType>(pair: (K, V), first: N) -> Entry<K, V, N>
    ensures pair { (result.key, result.value) ≡ pair }
    ensures newer { result.newer ≡ N.MAX }
    ensures older { result.older ≡ first }
{
    let (key, value) = pair;
    Entry {
        key,
        value,
        newer: N::MAX,
        older: first,
    }
}
