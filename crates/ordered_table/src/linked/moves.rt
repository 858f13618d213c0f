//! Moves all entries of a `LinkedTable` into a table of another size, or rehashes them.
ghost use Rattle.std.specs.Prelude.{◌≡◌, ◌+◌, ◌^◌, ◌<◌, ◌≤◌, length};
ghost use Rattle.std.specs.Prelude.{IfOk, OnOk, OnErr, IsOk};
ghost use Rattle.group_table.specs.Sizes.{IsBucketCount, full_capacity};
ghost use Rattle.group_table.specs.Bucket.{bucket_states, entry_at, entry_count, growth_left};
ghost use Rattle.group_table.specs.Change.{some_moved};
ghost use Rattle.group_table.specs.Relocation.{Renumbers, KeepsHashes};
ghost use Rattle.group_table.specs.Table.{IsTable};
ghost use Rattle.lru_limits.specs.Hashing.{hash_by};
ghost use Rattle.ordered_table.specs.OrderedTable.{IsLinked, KeysFit, pairs_of, hash_in};
ghost use Rattle.ordered_table.specs.Chain.{pair_slots};

use crate::linked::{Entry, LinkedTable};
use group_table::{LinkType, Table};
use lru_limits::KeyHasher;
use std::alloc::AllocError;
use std::hash::{BuildHasher, Hash};

impl<K: Eq + Hash, V, N: LinkType> LinkedTable<K, V, N> {
    pub(crate) fn move_to<S: KeyHasher<K>>(
        &mut self,
        buckets: usize,
        hasher: &S,
    ) -> Result<(), AllocError>
        requires count { IsBucketCount buckets }
        requires addressable { buckets + 16 < 2 ^ 63 }
        requires below { buckets < N.number N.MAX }
        requires within { entry_count self.old.slots ≤ full_capacity buckets }
        ensures buckets { OnOk result (length self.new.slots ≡ buckets) }
        ensures pairs { pairs_of self.new ≡ pairs_of self.old }
        ensures growth_left { OnOk result (growth_left (bucket_states self.new.slots) + length self.old.order ≡ full_capacity buckets) }
        ensures insertions { OnOk result (
            self.new.insertions ≡ some_moved self.old.insertions (length self.old.order)) }
        ensures fits { OnOk result (KeysFit (S.hash_of hasher.now) self.new.slots) }
        ensures linked { IsLinked self.new }
        ensures unchanged { OnErr result (self.new ≡ self.old) }
        ensures succeeds { length self.old.order ≡ 0 → length self.old.slots ≡ buckets → IsOk result }
        ensures gives_back { buckets ≡ 0 → IsOk result }
    {
        let links = renumber_entries(&mut self.chain.table, buckets, hasher)?;
        self.chain.rewrite(links.as_slice());
        Ok(())
    }
}

fn renumber_entries<K: Eq + Hash, V, N: LinkType, S: BuildHasher>(
    table: &mut Table<Entry<K, V, N>>,
    buckets: usize,
    hasher: &S,
) -> Result<Vec<N>, AllocError>
    requires count { IsBucketCount buckets }
    requires addressable { buckets + 16 < 2 ^ 63 }
    requires below { buckets < N.number N.MAX }
    requires within { entry_count table.old.slots ≤ full_capacity buckets }
    ensures buckets { OnOk result (length table.new.slots ≡ buckets) }
    ensures renumbered { IfOk result (λ links. Renumbers N.number N.MAX table.old.slots table.new.slots links.items) }
    ensures entries { OnOk result (entry_count table.new.slots ≡ entry_count table.old.slots) }
    ensures growth_left { OnOk result (growth_left (bucket_states table.new.slots) + entry_count table.old.slots ≡ full_capacity buckets) }
    ensures insertions { OnOk result (
        table.new.insertions ≡ some_moved table.old.insertions (entry_count table.old.slots)) }
    ensures hashes { IfOk result (λ links.
        KeepsHashes N.number N.MAX (entry_at table.old.slots) table.new.slots links.items
        (hash_in (hash_by K.hash_input S.BuildHasher S.Hasher.Hasher hasher.now) (pair_slots table.old.slots))) }
    ensures table { IsTable (bucket_states table.new.slots) }
    ensures unchanged { OnErr result (table.new ≡ table.old) }
    ensures succeeds { entry_count table.old.slots ≡ 0 → length table.old.slots ≡ buckets → IsOk result }
    ensures gives_back { buckets ≡ 0 → IsOk result }
{
    if buckets == table.buckets() {
        table.rehash(|entry| hasher.hash_one(&entry.key))
    } else {
        table.relocate(buckets, |entry| hasher.hash_one(&entry.key))
    }
}
