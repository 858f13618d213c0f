ghost use Rattle.std.specs.Prelude.{◌≡◌, ℕ, List, length, IfOk, IsOk};
ghost use Rattle.std.specs.List.{AllZip};
ghost use Rattle.group_table.specs.Bucket.{bucket_states};
ghost use Rattle.lru_model.specs.Clones.{IsPairClone};
ghost use Rattle.ordered_table.specs.Copies.{IsEntryCopy};
ghost use Rattle.ordered_table.specs.OrderedTable.{IsLinked, KeysFit, entries_in};

use crate::linked::chain::Chain;
use crate::linked::{Entry, LinkedTable};
use group_table::LinkType;
use std::alloc::AllocError;

impl<K: Drop, V: Drop, N: LinkType> LinkedTable<K, V, N> {
    pub(crate) fn copy(&self) -> Result<Self, AllocError>
    where
        K: Clone,
        V: Clone,
        ensures pairs { IfOk result (λ t. (order : List ℕ) → AllZip (IsPairClone K.is_clone V.is_clone)
            (entries_in self.now.slots order) (entries_in t.slots order)) }
        ensures order { IfOk result (λ t. t.order ≡ self.now.order) }
        ensures states { IfOk result (λ t. bucket_states t.slots ≡ bucket_states self.now.slots) }
        ensures insertions { IfOk result (λ t. t.insertions ≡ self.now.insertions) }
        ensures fits { IfOk result (λ t. (hash_of other : K → ℕ)
            → ((key copy : K) → K.is_clone key copy → other copy ≡ hash_of key) →
            KeysFit hash_of self.now.slots → KeysFit other t.slots) }
        ensures linked { IfOk result IsLinked }
        ensures succeeds { length self.now.slots ≡ 0 → IsOk result }
    {
        let table = self.chain.table.clone_with(
            |entry| -> Result<Entry<K, V, N>, AllocError>
                ensures { IfOk result (IsEntryCopy K.is_clone V.is_clone entry.now) }
            {
                Ok(Entry {
                    key: entry.key.clone()?,
                    value: entry.value.clone()?,
                    newer: entry.newer,
                    older: entry.older,
                })
            },
        )?;
        Ok(LinkedTable {
            chain: Chain {
                table,
                newest: self.chain.newest,
                oldest: self.chain.oldest,
            },
        })
    }
}
