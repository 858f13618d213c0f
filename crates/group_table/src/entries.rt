//! The entries of a table: a place for each bucket, in one block of memory.
ghost use Rattle.std.specs.Prelude.{◌≡◌, ◌<◌, List, Option, Some, None, [], length, replicate, slice_index_or};
ghost use Rattle.std.specs.Prelude.{slice_set, IsSome, IfOk};
ghost use Rattle.std.specs.Borrow.{sem};

use crate::cells::{Block, Cells, Deed, allocate, deallocate, fits_in_block};
use std::alloc::{AllocError, Global};
use std::marker::Model;

// A block of places, with the right to free the block.
struct Row<T> {
    block: Block<T>,
    cells: Cells<T>,
    deed: Deed<T, Global>,
}

// If there are no places, `row` is `None`. Only the control bytes know the number of places, so the caller of `free`
// passes this number, and shows that no place holds an entry.
pub(crate) struct Entries<T> {
    row: Option<Row<T>>,
    alloc: Global,
}

impl<T> Model for Entries<T> {
    ghost use Rattle.std.specs.Prelude.{List, Option};
    ghost use Rattle.group_table.specs.Entries.{places_of, IsRow};

    ghost Value = { List (Option T) };

    ghost view = { λ e. places_of e.row };

    ghost invariant = { λ e. IsRow e.row e.alloc };
}

impl<T> Entries<T> {
    ghost use Rattle.group_table.specs.EntryLends.{lends_held};

    pub(crate) const fn new(alloc: Global) -> Entries<T>
        ensures { result ≡ [] }
    {
        Entries { row: None, alloc }
    }

    pub(crate) fn with_places(alloc: Global, count: usize) -> Result<Entries<T>, AllocError>
        requires { 0 < count }
        ensures { IfOk result (λ e. e ≡ replicate count None) }
    {
        if !fits_in_block::<T>(count) {
            return Err(AllocError);
        }
        let (block, cells, deed) = allocate(&alloc, count)?;
        Ok(Entries {
            row: Some(Row { block, cells, deed }),
            alloc,
        })
    }

    pub(crate) fn allocator(&self) -> Global {
        self.alloc
    }

    #[inline]
    pub(crate) fn get(&self, b: usize) -> &T
        requires { IsSome (slice_index_or self.now b None) }
        ensures { slice_index_or self.now b None ≡ Some result.now }
    {
        match &self.row {
            Some(row) => row.cells.get(row.block, b),
            None => nowhere!(),
        }
    }

    #[inline]
    pub(crate) fn get_mut(&mut self, b: usize) -> &mut T
        requires { IsSome (slice_index_or self.old b None) }
        ensures* writes_back { sem 𝓛 (lends_held T.row self.entry b result) }
        ensures value { slice_index_or self.old b None ≡ Some result.now }
    {
        match &mut self.row {
            Some(row) => {
                let block = row.block;
                row.cells.get_mut(block, b)
            }
            None => nowhere!(),
        }
    }

    #[inline]
    pub(crate) fn write(&mut self, b: usize, entry: T)
        requires place { b < length self.old }
        requires free { slice_index_or self.old b None ≡ None }
        ensures { self.new ≡ slice_set self.old b (Some entry) }
    {
        match &mut self.row {
            Some(row) => row.cells.write(row.block, b, entry),
            None => nowhere!(),
        }
    }

    #[inline]
    pub(crate) fn read(&mut self, b: usize) -> T
        requires { IsSome (slice_index_or self.old b None) }
        ensures entry { slice_index_or self.old b None ≡ Some result }
        ensures places { self.new ≡ slice_set self.old b None }
    {
        match &mut self.row {
            Some(row) => row.cells.read(row.block, b),
            None => nowhere!(),
        }
    }

    pub(crate) fn free(self, count: usize)
        requires { self ≡ replicate count None }
    {
        let Entries { row, alloc } = self;
        match row {
            Some(Row { block, cells, deed }) => deallocate(&alloc, block, count, cells, deed),
            None => {}
        }
    }
}
