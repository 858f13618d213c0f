//! The sizes and counts of a `Table`, and which buckets are full.
ghost use Rattle.std.specs.Prelude.{◌≡◌, ◌↔◌, ◌<◌, nat_lt, length, IsTrue};
ghost use Rattle.std.specs.Mem.{type_size};
ghost use prog.Memory.{capped};
ghost use Rattle.group_table.specs.Bucket.{bucket_states, IsFull, entry_count, growth_left};
ghost use Rattle.group_table.specs.Table.{IsTable};
ghost use Rattle.group_table.specs.Change.{insertion_count};

use super::Table;
use crate::cells::bytes_of;
use crate::control::DELETED;

impl<T> Table<T> {
    /// Returns the number of buckets: 0, or a power of two from 4 on.
    #[inline]
    pub fn buckets(&self) -> usize
        ensures value { result ≡ length self.now.slots }
        ensures table { IsTable (bucket_states self.now.slots) }
    {
        self.control.buckets()
    }

    /// Returns whether the table has bucket b. The table must have buckets.
    ///
    /// ```
    /// let table: Table<u64> = Table::with_buckets(alloc, 8)?;
    /// assert!(rt; table.has_bucket(7) && !table.has_bucket(8));
    /// ```
    #[inline]
    pub fn has_bucket(&self, b: usize) -> bool
        requires { 0 < length self.now.slots }
        ensures value { result ≡ nat_lt b (length self.now.slots) }
        ensures table { IsTable (bucket_states self.now.slots) }
    {
        self.control.has_bucket(b)
    }

    /// Returns the number of entries.
    #[inline]
    pub fn len(&self) -> usize
        ensures value { result ≡ entry_count self.now.slots }
        ensures table { IsTable (bucket_states self.now.slots) }
    {
        self.len
    }

    /// Returns the growth left: how many empty buckets may still be filled.
    #[inline]
    pub fn growth_left(&self) -> usize
        ensures value { result ≡ growth_left (bucket_states self.now.slots) }
        ensures table { IsTable (bucket_states self.now.slots) }
    {
        self.growth_left
    }

    /// Returns the number of insertions into the table. A moved entry counts as one insertion. The count stops at
    /// `u64::MAX`.
    #[inline]
    pub fn insertion_count(&self) -> u64
        ensures value { result ≡ insertion_count self.now.insertions }
        ensures table { IsTable (bucket_states self.now.slots) }
    {
        self.placed.saturating_add(self.moved)
    }

    /// Returns the number of entries that `place` and `try_place` inserted. The count stops at `u64::MAX`.
    ///
    /// ```
    /// let mut table = Table::with_buckets(alloc, 8)?;
    /// let _ = table.try_place(7, "a");
    /// assert_eq!(rt; (table.placed(), table.insertion_count()), (1, 1));
    /// ```
    #[inline]
    pub fn placed(&self) -> u64
        ensures value { result ≡ self.now.insertions.placed }
        ensures table { IsTable (bucket_states self.now.slots) }
    {
        self.placed
    }

    /// Returns the size of an entry's type in bytes.
    pub const fn entry_bytes() -> usize
        ensures { result ≡ capped (type_size T.row) }
    {
        bytes_of::<T>()
    }

    /// Returns whether bucket `b` exists and holds an entry.
    #[inline]
    pub fn is_full(&self, b: usize) -> bool
        ensures full { IsTrue result ↔ IsFull self.now.slots b }
        ensures table { IsTable (bucket_states self.now.slots) }
    {
        b < self.buckets() && self.control.byte(b) < DELETED
    }
}
