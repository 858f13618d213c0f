//! Contracts describe a table by its `slots` (one for each bucket) and the counts of its `insertions`.
ghost use Rattle.std.specs.Prelude.{◌≡◌, ℕ, ◌+◌, ◌^◌, ◌<◌, ◌≤◌, [], length, replicate, Some, IfSome, IfNone};
ghost use Rattle.std.specs.Prelude.{IfOk, IfErr, OnErr, IsOk, nat_eq};
ghost use Rattle.std.specs.Borrow.{sem};
ghost use Rattle.group_table.specs.Sizes.{IsBucketCount};
ghost use Rattle.group_table.specs.Bucket.{empty, bucket_states, IsFull, entry_at, entry_count, growth_left, growth_left_at};
ghost use Rattle.group_table.specs.Table.{IsTable, with_entry};
ghost use Rattle.group_table.specs.Fits.{Fits, with_hash};
ghost use Rattle.group_table.specs.Control.{buckets_of};
ghost use Rattle.group_table.specs.Layout.{IsLaidOut, slots_of};
ghost use Rattle.group_table.specs.Probe.{IsFirstFree};
ghost use Rattle.group_table.specs.Search.{Finds, FindsNone};
ghost use Rattle.group_table.specs.Change.{Places, MayFill, HasNoPlace, Removes, no_insertions};

use crate::control::{Control, emptied_byte, room_taken, tag_of};
use crate::entries::Entries;
use crate::fields::{drop_entries, empty_bucket, fill_bucket};
use crate::neighbours::ones_if_empty_neighbours;
use crate::probe::{find_bucket, first_free};
use crate::sizes::full_capacity;
use std::alloc::{AllocError, Global};
use std::marker::Model;

mod copies;
mod figures;
mod in_place;
mod moves;
mod relocation;

/// A hash table of numbered buckets. Each bucket is empty, deleted or full.
///
/// A table sees no key and stores no hash. The caller passes the hash, and a search calls the caller's closure. An
/// entry keeps its bucket until the entry is taken out, or all entries are moved. `docs/TABLE.md` explains the rules.
///
/// Only `with_buckets`, `relocate`, `rehash` and `clone_with` allocate. `new`, `get`, `get_mut`, `take` and reads such
/// as `len` cost O(1). `find`, `place` and `try_place` cost O(1) if the hashes are spread, and at worst O(B) for B
/// buckets. All other calls cost O(B).
///
/// ```
/// let mut table = Table::with_buckets(alloc, 8)?;
/// let b = table.try_place(7, "a").ok().ok_or("no room")?;
/// assert_eq!(rt; table.find(7, |entry| *entry == "a"), Some(b));
/// ```
pub struct Table<T> {
    // If this field were next to `len`, the compiler would change both fields by a single load and store, which is
    // slower.
    growth_left: usize,
    control: Control,
    entries: Entries<T>,
    placed: u64,
    len: usize,
    moved: u64,
}

impl<T> Model for Table<T> {
    ghost use Rattle.group_table.specs.Table.{Table as Seen};

    ghost Value = { Seen T };

    ghost use Rattle.std.specs.Prelude.{◌≡◌};
    ghost use Rattle.group_table.specs.Bucket.{entry_count};
    ghost use Rattle.group_table.specs.Layout.{slots_of, IsValid};

    ghost view = { λ t. record {
      slots = slots_of t.control t.entries;
      insertions = record { placed = t.placed; moved = t.moved };
    } };

    ghost invariant = { λ t. IsValid t.control t.entries t.growth_left
        × (t.len ≡ entry_count (slots_of t.control t.entries)) };
}

impl<T> Table<T> {
    ghost use Rattle.group_table.specs.Lends.{lends_entry};

    /// Makes a table without buckets, and allocates nothing. `try_place` fails until `relocate` adds buckets.
    pub fn new(alloc: Global) -> Self
        ensures slots { result.slots ≡ [] }
        ensures insertions { result.insertions ≡ no_insertions }
        ensures table { IsTable (bucket_states result.slots) }
        ensures fits { (hash_of : ℕ → ℕ) → Fits result.slots hash_of }
    {
        Table {
            control: Control::new(alloc),
            entries: Entries::new(alloc),
            growth_left: 0,
            len: 0,
            placed: 0,
            moved: 0,
        }
    }

    /// Makes a table of `buckets` empty buckets. `buckets` must be 0, or a power of two from 4 on, and `buckets` + 16
    /// must be at most `isize::MAX`.
    ///
    /// Allocates twice: a `T` for each bucket, and then `buckets` + 16 control bytes. With 0 buckets it allocates
    /// nothing.
    ///
    /// # Errors
    ///
    /// Out of memory.
    pub fn with_buckets(alloc: Global, buckets: usize) -> Result<Self, AllocError>
        requires count { IsBucketCount buckets }
        requires addressable { buckets + 16 < 2 ^ 63 }
        ensures slots { IfOk result (λ t. t.slots ≡ replicate buckets empty) }
        ensures insertions { IfOk result (λ t. t.insertions ≡ no_insertions) }
        ensures table { IfOk result (λ t. IsTable (bucket_states t.slots)) }
        ensures fits { IfOk result (λ t. (hash_of : ℕ → ℕ) → Fits t.slots hash_of) }
        ensures succeeds { buckets ≡ 0 → IsOk result }
    {
        if buckets == 0 {
            return Ok(Table::new(alloc));
        }
        // Allocates the entries first: if the table is too large for the memory, the call fails before it writes a
        // byte.
        let entries = Entries::with_places(alloc, buckets)?;
        let control = match Control::with_buckets(alloc, buckets) {
            Ok(control) => control,
            Err(error) => {
                entries.free(buckets);
                return Err(error);
            }
        };
        Ok(Table {
            control,
            entries,
            growth_left: full_capacity(buckets),
            len: 0,
            placed: 0,
            moved: 0,
        })
    }

    /// Returns the bucket of the first entry that `f` accepts.
    ///
    /// `f` is called in the order of the search, with entries whose hashes agree with `hash` in the top 7 bits. Tests,
    /// not proofs, show that `f` is called at most once with each entry. If the result is `None`, `f` rejected each
    /// entry with this hash.
    #[inline]
    pub fn find<F: FnMut(&T) -> bool>(&self, hash: u64, f: F) -> Option<usize>
        requires { F.IsAlwaysCallable f }
        ensures found { IfSome result (Finds F.FnMut self.now.slots hash f) }
        ensures full { IfSome result (IsFull self.now.slots) }
        ensures none { IfNone result (FindsNone F.FnMut self.now.slots hash f) }
        ensures table { IsTable (bucket_states self.now.slots) }
    {
        if self.control.is_empty_at(hash) {
            return None;
        }
        find_bucket(&self.control, &self.entries, hash, f)
    }

    /// Returns the entry in a full bucket.
    #[inline]
    pub fn get(&self, b: usize) -> &T
        requires { IsFull self.now.slots b }
        ensures entry { entry_at self.now.slots b ≡ Some result.now }
        ensures table { IsTable (bucket_states self.now.slots) }
    {
        self.entries.get(b)
    }

    /// Lends the entry in a full bucket for writing. Do not change the entry's hash, because the entry keeps its
    /// bucket.
    #[inline]
    pub fn get_mut(&mut self, b: usize) -> &mut T
        requires { IsFull self.old.slots b }
        ensures* writes_back { sem 𝓛 (lends_entry T.row self.entry b result) }
        ensures entry { entry_at self.old.slots b ≡ Some result.now }
        ensures table { IsTable (bucket_states self.old.slots) }
        ensures fits { (hash_of : ℕ → ℕ) → Fits self.old.slots hash_of →
            (last : T) → Fits (with_entry self.old b last).slots hash_of }
    {
        self.entries.get_mut(b)
    }

    /// Takes the entry out of a full bucket.
    ///
    /// If each run of 16 neighbouring buckets that includes this bucket contains an empty bucket, this bucket becomes
    /// empty, and the growth left rises by one. Otherwise, it becomes deleted, so that searches still go past it. In a
    /// table of up to 16 buckets, it always becomes empty.
    #[inline(always)]
    pub fn take(&mut self, b: usize) -> T
        requires { IsFull self.old.slots b }
        ensures entry { entry_at self.old.slots b ≡ Some result }
        ensures removed { Removes self.old.slots self.new.slots b }
        ensures growth_left { growth_left (bucket_states self.new.slots)
            ≡ growth_left (bucket_states self.old.slots) + growth_left_at (bucket_states self.new.slots) b }
        ensures insertions { self.new.insertions ≡ self.old.insertions }
        ensures fits { (hash_of : ℕ → ℕ) → Fits self.old.slots hash_of → Fits self.new.slots hash_of }
        ensures table { IsTable (bucket_states self.new.slots) }
    {
        self.len -= 1;
        let gives_room = ones_if_empty_neighbours(&self.control, b);
        // If `gives_room` is all ones, subtracting it adds 1.
        self.growth_left = self.growth_left.wrapping_sub(gives_room);
        let byte = emptied_byte(gives_room);
        empty_bucket(&mut self.control, &mut self.entries, b, byte)
    }

    /// Puts an entry with this hash into the first free bucket in the order of a search, and returns the bucket. There
    /// must be growth left.
    ///
    /// If the bucket was empty, the growth left falls by one. If the bucket was deleted, the growth left is unchanged.
    /// `place` allocates nothing, and moves no other entry.
    ///
    /// ```
    /// if table.growth_left() > 0 {
    ///     let b = table.place(9, "b");
    ///     assert_eq!(rt; table.find(9, |entry| *entry == "b"), Some(b));
    /// }
    /// ```
    #[inline(always)]
    pub fn place(&mut self, hash: u64, entry: T) -> usize
        requires { 0 < growth_left (bucket_states self.old.slots) }
        ensures placed { Places self.old self.new hash entry result }
        ensures growth_left { growth_left (bucket_states self.new.slots) + growth_left_at (bucket_states self.old.slots) result
            ≡ growth_left (bucket_states self.old.slots) }
        ensures fits { (hash_of : ℕ → ℕ) → Fits self.old.slots hash_of →
            Fits self.new.slots (with_hash hash_of result hash) }
        ensures table { IsTable (bucket_states self.new.slots) }
    {
        let b = first_free(&self.control, hash);
        let spent = room_taken(self.control.byte(b));
        self.fill_free(b, spent, hash, entry);
        b
    }

    /// Does what `place` does. If no growth is left, only a deleted bucket may take the entry.
    ///
    /// # Errors
    ///
    /// Fails if there are no buckets, or if no growth is left and the first free bucket is empty. Returns the entry.
    /// Nothing has changed.
    #[inline(always)]
    pub fn try_place(&mut self, hash: u64, entry: T) -> Result<usize, T>
        ensures placed { IfOk result (Places self.old self.new hash entry) }
        ensures may_fill { IfOk result (MayFill (bucket_states self.old.slots)) }
        ensures growth_left { IfOk result (λ b.
            growth_left (bucket_states self.new.slots) + growth_left_at (bucket_states self.old.slots) b ≡ growth_left (bucket_states self.old.slots)) }
        ensures fits { IfOk result (λ b. (hash_of : ℕ → ℕ) → Fits self.old.slots hash_of →
            Fits self.new.slots (with_hash hash_of b hash)) }
        ensures table { IsTable (bucket_states self.new.slots) }

        ensures returned { IfErr result (λ back. back ≡ entry) }
        ensures unchanged { OnErr result (self.new ≡ self.old) }
        ensures no_place { OnErr result (HasNoPlace (bucket_states self.old.slots) hash) }
    {
        if is_without_buckets(&self.control, self.growth_left) {
            return Err(entry);
        }
        let b = first_free(&self.control, hash);
        let spent = room_taken(self.control.byte(b));
        if self.growth_left < spent {
            return Err(entry);
        }
        self.fill_free(b, spent, hash, entry);
        Ok(b)
    }

    #[inline(always)]
    fn fill_free(&mut self, b: usize, spent: usize, hash: u64, entry: T)
        requires bucket { b < length self.old.slots }
        requires first { IsFirstFree (bucket_states self.old.slots) hash b }
        requires spent { spent ≡ growth_left_at (bucket_states self.old.slots) b }
        requires within { spent ≤ growth_left (bucket_states self.old.slots) }
        ensures placed { Places self.old self.new hash entry b }
        ensures growth_left { growth_left (bucket_states self.new.slots) + growth_left_at (bucket_states self.old.slots) b
            ≡ growth_left (bucket_states self.old.slots) }
        ensures fits { (hash_of : ℕ → ℕ) → Fits self.old.slots hash_of →
            Fits self.new.slots (with_hash hash_of b hash) }
        ensures table { IsTable (bucket_states self.new.slots) }
    {
        self.len += 1;
        fill_bucket(&mut self.control, &mut self.entries, b, tag_of(hash), entry);
        self.growth_left -= spent;
        self.placed = self.placed.saturating_add(1);
    }

    fn empty_buckets(&mut self)
        requires { entry_count self.old.slots ≡ 0 }
        ensures slots { self.new.slots ≡ replicate (length self.old.slots) empty }
        ensures insertions { self.new.insertions ≡ self.old.insertions }
        ensures table { IsTable (bucket_states self.new.slots) }
    {
        self.control.clear();
        self.growth_left = full_capacity(self.control.buckets());
    }

    fn free_unused(self)
        requires { entry_count self.slots ≡ 0 }
    {
        let (control, unused) = self.into_parts();
        unused.free(control.buckets());
    }

    fn into_parts(self) -> (Control, Entries<T>)
        ensures laid_out { IsLaidOut result.0 result.1 }
        ensures slots { slots_of result.0 result.1 ≡ self.slots }
    {
        let Table {
            control,
            entries,
            growth_left: _,
            len: _,
            placed: _,
            moved: _,
        } = self;
        (control, entries)
    }
}

impl<T: Drop> Drop for Table<T> {
    fn drop(self) {
        let len = self.len;
        let (control, mut entries) = self.into_parts();
        drop_entries(&control, &mut entries, len);
        entries.free(control.buckets());
    }
}

impl<T: Drop> Table<T> {
    /// Drops all entries. Every bucket is empty afterwards. The number of buckets and the counts of insertions stay.
    ///
    /// Does nothing if no bucket is full or deleted.
    pub fn clear(&mut self)
        ensures slots { self.new.slots ≡ replicate (length self.old.slots) empty }
        ensures insertions { self.new.insertions ≡ self.old.insertions }
        ensures table { IsTable (bucket_states self.new.slots) }
        ensures fits { (hash_of : ℕ → ℕ) → Fits self.new.slots hash_of }
    {
        let most = full_capacity(self.control.buckets());
        if self.growth_left == most {
            return;
        }
        drop_entries(&self.control, &mut self.entries, self.len);
        self.control.clear();
        self.growth_left = most;
        self.len = 0;
    }
}

// If growth is left, the table has buckets, so `control` is not read.
#[inline]
fn is_without_buckets(control: &Control, growth_left: usize) -> bool
    requires { buckets_of control.now ≡ 0 → growth_left ≡ 0 }
    ensures { result ≡ nat_eq (buckets_of control.now) 0 }
{
    growth_left == 0 && control.is_empty()
}
