//! The calls of `Table` that move every entry. `T` has no bound `Drop`, so the compiler rejects code that loses an
//! entry.
ghost use Rattle.std.specs.Prelude.{◌≡◌, ℕ, ◌+◌, ◌^◌, ◌<◌, ◌≤◌, [], length, count_by, IfOk, OnErr, OnOk, IsOk};
ghost use Rattle.group_table.specs.Sizes.{IsBucketCount, full_capacity};
ghost use Rattle.group_table.specs.Bucket.{bucket_states, entry_at, entry_count, is_deleted, growth_left};
ghost use Rattle.group_table.specs.Table.{IsTable};
ghost use Rattle.group_table.specs.Change.{some_moved};
ghost use Rattle.group_table.specs.Relocation.{Renumbers, KeepsHashes, GivesHashes};

use crate::control::Control;
use crate::fields::no_links;
use crate::link::LinkType;
use crate::sizes::full_capacity;
use crate::table::Table;
use crate::table::in_place::place_again;
use crate::table::moves::move_entries;
use std::alloc::AllocError;
use std::mem;

impl<T> Table<T> {
    /// Moves all entries, in rising order of their buckets, into a fresh table of `buckets` buckets.
    ///
    /// A table without entries may move to 0 buckets, which frees its memory.
    ///
    /// For each old bucket, the result contains the link to the new bucket of its entry, or `MAX` if the old bucket was
    /// free. For a table without entries, the result is empty. `hash_of` is called once for each entry. Afterwards no
    /// bucket is deleted. Takes time O(old buckets + new buckets).
    ///
    /// # Errors
    ///
    /// Out of memory. Nothing has changed. With 0 buckets the call never fails.
    pub fn relocate<N: LinkType, H: Fn(&T) -> u64>(
        &mut self,
        buckets: usize,
        hash_of: H,
    ) -> Result<Vec<N>, AllocError>
        requires count { IsBucketCount buckets }
        requires addressable { buckets + 16 < 2 ^ 63 }
        requires below { buckets < N.number N.MAX }
        requires within { entry_count self.old.slots ≤ full_capacity buckets }
        requires callable { H.IsAlwaysCallable hash_of }
        ensures buckets { OnOk result (length self.new.slots ≡ buckets) }
        ensures renumbered { IfOk result (λ links. Renumbers N.number N.MAX self.old.slots self.new.slots links.items) }
        ensures no_links { IfOk result (λ links. entry_count self.old.slots ≡ 0 → links.items ≡ []) }
        ensures entries { OnOk result (entry_count self.new.slots ≡ entry_count self.old.slots) }
        ensures growth_left { OnOk result (
            growth_left (bucket_states self.new.slots) + entry_count self.old.slots ≡ full_capacity (length self.new.slots)) }
        ensures none_deleted { OnOk result (count_by is_deleted self.new.slots ≡ 0) }
        ensures insertions { OnOk result (
            self.new.insertions ≡ some_moved self.old.insertions (entry_count self.old.slots)) }
        ensures hashes { IfOk result (λ links. (hash_at : ℕ → ℕ) →
            GivesHashes H.Fn hash_of (entry_at self.old.slots) hash_at →
            KeepsHashes N.number N.MAX (entry_at self.old.slots) self.new.slots links.items hash_at) }
        ensures table { IsTable (bucket_states self.new.slots) }
        ensures unchanged { OnErr result (self.new ≡ self.old) }
        ensures succeeds { buckets ≡ 0 → IsOk result }
    {
        let alloc = self.entries.allocator();
        let mut fresh = Table::with_buckets(alloc, buckets)?;
        if self.len == 0 {
            fresh.placed = self.placed;
            fresh.moved = self.moved;
            mem::replace(self, fresh).free_unused();
            return Ok(Vec::new(alloc));
        }
        let mut links = match no_links(alloc, self.buckets()) {
            Ok(links) => links,
            Err(error) => {
                fresh.free_unused();
                return Err(error);
            }
        };
        let placed = self.placed;
        let moved = self.moved.saturating_add(self.len as u64);
        let (control, mut entries) = mem::replace(self, fresh).into_parts();
        move_entries(&control, &mut entries, self, &mut links, &hash_of);
        self.placed = placed;
        self.moved = moved;
        entries.free(control.buckets());
        Ok(links)
    }

    /// Moves all entries within the table, so that no bucket is deleted afterwards. Returns what `relocate` returns.
    ///
    /// `hash_of` is called once for each entry.
    ///
    /// # Errors
    ///
    /// Out of memory. Nothing has changed. If the table has no entries, the call only empties the buckets, and never
    /// fails.
    pub fn rehash<N: LinkType, H: Fn(&T) -> u64>(
        &mut self,
        hash_of: H,
    ) -> Result<Vec<N>, AllocError>
        requires below { length self.old.slots < N.number N.MAX }
        requires callable { H.IsAlwaysCallable hash_of }
        ensures buckets { length self.new.slots ≡ length self.old.slots }
        ensures renumbered { IfOk result (λ links. Renumbers N.number N.MAX self.old.slots self.new.slots links.items) }
        ensures no_links { IfOk result (λ links. entry_count self.old.slots ≡ 0 → links.items ≡ []) }
        ensures entries { OnOk result (entry_count self.new.slots ≡ entry_count self.old.slots) }
        ensures growth_left { OnOk result (
            growth_left (bucket_states self.new.slots) + entry_count self.old.slots ≡ full_capacity (length self.new.slots)) }
        ensures none_deleted { OnOk result (count_by is_deleted self.new.slots ≡ 0) }
        ensures insertions { OnOk result (
            self.new.insertions ≡ some_moved self.old.insertions (entry_count self.old.slots)) }
        ensures hashes { IfOk result (λ links. (hash_at : ℕ → ℕ) →
            GivesHashes H.Fn hash_of (entry_at self.old.slots) hash_at →
            KeepsHashes N.number N.MAX (entry_at self.old.slots) self.new.slots links.items hash_at) }
        ensures table { IsTable (bucket_states self.new.slots) }
        ensures unchanged { OnErr result (self.new ≡ self.old) }
        ensures succeeds { entry_count self.old.slots ≡ 0 → IsOk result }
    {
        let alloc = self.entries.allocator();
        if self.len == 0 {
            self.empty_buckets();
            return Ok(Vec::new(alloc));
        }
        let buckets = self.buckets();
        let mut links = no_links(alloc, buckets)?;
        let fresh = Control::with_buckets(alloc, buckets)?;
        let before = mem::replace(&mut self.control, fresh);
        place_again(
            &before,
            &mut self.control,
            &mut self.entries,
            &mut links,
            &hash_of,
        );
        self.growth_left = full_capacity(buckets) - self.len;
        self.moved = self.moved.saturating_add(self.len as u64);
        Ok(links)
    }
}
