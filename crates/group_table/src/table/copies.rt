ghost use Rattle.std.specs.Prelude.{◌≡◌, ℕ, ◌<◌, length, IfOk, IsOk};
ghost use Rattle.std.specs.List.{AllZip};
ghost use Rattle.group_table.specs.Bucket.{bucket_states};
ghost use Rattle.group_table.specs.Layout.{IsLaidOut};
ghost use Rattle.group_table.specs.Table.{IsTable};
ghost use Rattle.group_table.specs.Fits.{Fits};
ghost use Rattle.group_table.specs.Copies.{Copies, IsPlaceCopy};

use crate::control::Control;
use crate::entries::Entries;
use crate::fields::drop_first;
use crate::full_buckets::FullBuckets;
use crate::table::Table;
use std::alloc::AllocError;

impl<T: Drop> Table<T> {
    /// Copies the table. The copy of each entry is the result of `f`, and is in the same bucket.
    ///
    /// `f` is called in rising order of the buckets, once for each entry, until it returns an error. Deleted buckets
    /// stay deleted, so the growth left is the same. The counts of insertions are copied. Allocates twice.
    ///
    /// # Errors
    ///
    /// Out of memory, or the error of `f`. The entries copied so far are dropped. For a table without buckets, the call
    /// allocates nothing and never fails.
    pub fn clone_with<F: Fn(&T) -> Result<T, AllocError>>(&self, f: F) -> Result<Self, AllocError>
        requires callable { F.IsAlwaysCallable f }
        ensures copies { IfOk result (λ t. Copies F.Fn f self.now.slots t.slots) }
        ensures states { IfOk result (λ t. bucket_states t.slots ≡ bucket_states self.now.slots) }
        ensures insertions { IfOk result (λ t. t.insertions ≡ self.now.insertions) }
        ensures fits { IfOk result (λ t. (hash_of : ℕ → ℕ) → Fits self.now.slots hash_of → Fits t.slots hash_of) }
        ensures table { IfOk result (λ t. IsTable (bucket_states t.slots)) }
        ensures succeeds { length self.now.slots ≡ 0 → IsOk result }
    {
        let alloc = self.entries.allocator();
        if self.control.is_empty() {
            let mut none = Table::new(alloc);
            none.placed = self.placed;
            none.moved = self.moved;
            return Ok(none);
        }
        let control = self.control.copied(alloc)?;
        let entries = copy_entries(&control, &self.entries, &f)?;
        Ok(Table {
            control,
            entries,
            growth_left: self.growth_left,
            len: self.len,
            placed: self.placed,
            moved: self.moved,
        })
    }
}

fn copy_entries<T: Drop, F: Fn(&T) -> Result<T, AllocError>>(
    control: &Control,
    entries: &Entries<T>,
    f: &F,
) -> Result<Entries<T>, AllocError>
    requires callable { F.IsAlwaysCallable f.now }
    requires laid_out { IsLaidOut control.now entries.now }
    requires some { 0 < length entries.now }
    ensures { IfOk result (λ copies. AllZip (IsPlaceCopy F.Fn f.now) entries.now copies) }
{
    let count = control.buckets();
    let mut copies = Entries::with_places(entries.allocator(), count)?;
    let mut walk = FullBuckets::of(control);
    let mut b = walk.next(control);
    'entries: while b < count {
        match f(entries.get(b)) {
            Ok(copy) => copies.write(b, copy),
            Err(error) => {
                drop_first(control, &mut copies, b);
                copies.free(count);
                return Err(error);
            }
        }
        b = walk.next(control);
    }
    Ok(copies)
}
