ghost use Rattle.std.specs.Prelude.{◌≡◌, ℕ, ◌<◌, ◌≤◌, length, replicate, count_by, is_some, slice_index_or};
ghost use Rattle.std.specs.Prelude.{None};
ghost use Rattle.group_table.specs.Sizes.{full_capacity};
ghost use Rattle.group_table.specs.Bucket.{empty, bucket_at, is_deleted, entry_count};
ghost use Rattle.group_table.specs.Layout.{IsLaidOut};
ghost use Rattle.group_table.specs.Moves.{place_at, Joins};
ghost use Rattle.group_table.specs.Relocation.{Moves, KeepsHashes, GivesHashes};

use crate::control::{Control, DELETED, tag_of};
use crate::entries::Entries;
use crate::fields::fill_bucket;
use crate::link::LinkType;
use crate::probe::first_free;
use crate::table::Table;

impl<T> Table<T> {
    // Inserts an entry, but does not count the insertion.
    #[inline]
    pub(crate) fn place_fresh(&mut self, hash: u64, entry: T) -> usize
        requires growth_left { entry_count self.old.slots < full_capacity (length self.old.slots) }
        requires none_deleted { count_by is_deleted self.old.slots ≡ 0 }
        ensures joins { Joins self.old.slots self.new.slots hash entry result }
        ensures insertions { self.new.insertions ≡ self.old.insertions }
    {
        let b = first_free(&self.control, hash);
        fill_bucket(&mut self.control, &mut self.entries, b, tag_of(hash), entry);
        self.growth_left -= 1;
        self.len += 1;
        b
    }
}

// Moves each entry from `old` to `fresh`. `control` says which places of `old` hold an entry.
pub(crate) fn move_entries<T, N: LinkType, H: Fn(&T) -> u64>(
    control: &Control,
    old: &mut Entries<T>,
    fresh: &mut Table<T>,
    links: &mut Vec<N>,
    hash_of: &H,
)
    requires callable { H.IsAlwaysCallable hash_of.now }
    requires laid_out { IsLaidOut control.now old.old }
    requires all_empty { (b : ℕ) → bucket_at fresh.old.slots b ≡ empty }
    requires within { count_by is_some old.old ≤ full_capacity (length fresh.old.slots) }
    requires below { length fresh.old.slots ≤ N.number N.MAX }
    requires one_each { length links.old.items ≡ length old.old }
    requires none_linked { (b : ℕ) → slice_index_or links.old.items b N.MAX ≡ N.MAX }
    ensures buckets { length fresh.new.slots ≡ length fresh.old.slots }
    ensures insertions { fresh.new.insertions ≡ fresh.old.insertions }
    ensures one_each { length links.new.items ≡ length old.old }
    ensures none_left { old.new ≡ replicate (length old.old) None }
    ensures none_deleted { count_by is_deleted fresh.new.slots ≡ 0 }
    ensures entries { entry_count fresh.new.slots ≡ count_by is_some old.old }
    ensures moves { Moves N.number N.MAX (place_at old.old) fresh.new.slots links.new.items }
    ensures hashes { (hash_at : ℕ → ℕ) → GivesHashes H.Fn hash_of.now (place_at old.old) hash_at →
        KeepsHashes N.number N.MAX (place_at old.old) fresh.new.slots links.new.items hash_at }
{
    for b in 0..control.buckets() {
        if control.byte(b) < DELETED {
            let entry = old.read(b);
            let hash = hash_of(&entry);
            links[b] = N::from_usize(fresh.place_fresh(hash, entry));
        }
    }
}
