//! Places for entries in one block of memory. Only the owner of the places knows which of them hold an entry.
ghost use Rattle.std.specs.Prelude.{◌≡◌, ℕ, ◌<◌, List, Option, Some, None, length, replicate, get_or, slice_set, IfOk};
ghost use Rattle.std.specs.Prelude.{true, ⊤};
ghost use Rattle.std.specs.Borrow.{sem};
ghost use Rattle.std.specs.Mem.{type_size};
ghost use Rattle.std.specs.Vec.Ownership.{FitsInBlock};
ghost use base.Fml.{ftrue};
ghost use denote.RawPtr.{Ptr};
ghost use prog.Memory.{capped};
ghost use Rattle.group_table.specs.Cells.{Holds};
ghost use Rattle.group_table.specs.CellOwners.{owns_cells, lends_cells, owns_block};

use std::alloc::{AllocError, Allocator};
use std::marker::{Model, PhantomData, Send, Sync};
use std::mem::{align_of, size_of};

// The address of the first place. It owns nothing.
pub(crate) struct Block<T> {
    start: *mut T,
}

impl<T> Clone for Block<T> {
    ghost is_clone = { λ x y. y ≡ x };

    ghost is_infallible = { λ _. ⊤ };

    fn clone(&self) -> Result<Block<T>, AllocError> {
        Ok(*self)
    }
}

impl<T> Copy for Block<T> {}

// SAFETY: a `Block` is an address. Only code that has the `Cells` of the block reads or writes at this address. `Cells`
// are `Send` or `Sync` only if `T` is.
unsafe impl<T> Send for Block<T> {}

unsafe impl<T> Sync for Block<T> {}

// The owner of the places and of the entries in them. It is zero-sized.
pub(crate) struct Cells<T> {
    mark: PhantomData<*const T>,
    ghost start: { Ptr },
    ghost places: { List (Option T) },
}

impl<T> Model for Cells<T> {
    ghost also_owns = { λ c. owns_cells T.row c.start c.places };

    ghost also_shares = { λ c _ κ. lends_cells T.row c.start c.places κ };
}

// SAFETY: `Cells` own the entries as a `Box<T>` does, so they may be sent and shared if the entries may.
unsafe impl<T: Send> Send for Cells<T> {}

unsafe impl<T: Sync> Sync for Cells<T> {}

// The right to give a block of `count` places back to its allocator. It is zero-sized.
pub(crate) struct Deed<T, A: Allocator> {
    mark: PhantomData<*const (T, A)>,
    ghost start: { Ptr },
    ghost count: { ℕ },
    ghost alloc: { A },
}

impl<T, A: Allocator> Model for Deed<T, A> {
    ghost also_owns = { λ d. owns_block T.row (A.dealloc_token d.alloc) d.start d.count };

    ghost also_shares = { λ _ _ _. ftrue };
}

// SAFETY: a `Deed` only gives memory back to the allocator, so it may be sent if the allocator may.
unsafe impl<T, A: Allocator + Send> Send for Deed<T, A> {}

// SAFETY: a `Deed` has no method that takes a `&`.
unsafe impl<T, A: Allocator> Sync for Deed<T, A> {}

#[inline]
pub(crate) const fn bytes_of<T>() -> usize
    ensures { result ≡ capped (type_size T.row) }
{
    size_of::<T>()
}

#[inline]
pub(crate) fn fits_in_block<T>(count: usize) -> bool
    ensures block { result ≡ true → FitsInBlock T.row count }
    ensures all { FitsInBlock T.row count → result ≡ true }
{
    match count.checked_mul(bytes_of::<T>()) {
        Some(bytes) => count < 1 << 63 && bytes < 1 << 63,
        None => false,
    }
}

pub(crate) fn allocate<T, A: Allocator>(
    alloc: &A,
    count: usize,
) -> Result<(Block<T>, Cells<T>, Deed<T, A>), AllocError>
    requires { FitsInBlock T.row count }
    ensures { IfOk result (λ made. (made.1.start ≡ made.0.start) × (made.1.places ≡ replicate count None)
        × (made.2.start ≡ made.0.start) × (made.2.count ≡ count) × (made.2.alloc ≡ alloc.now)) }
{
    match alloc.allocate(count * size_of::<T>(), align_of::<T>()) {
        Ok(bytes) => {
            let block = Block {
                start: bytes as *mut T,
            };
            Ok((
                block,
                Cells { mark: PhantomData },
                Deed { mark: PhantomData },
            ))
        }
        Err(error) => Err(error),
    }
}

pub(crate) fn deallocate<T, A: Allocator>(
    alloc: &A,
    block: Block<T>,
    count: usize,
    cells: Cells<T>,
    deed: Deed<T, A>,
)
    requires { (cells.start ≡ block.start) × (cells.places ≡ replicate count None)
        × (deed.start ≡ block.start) × (deed.count ≡ count) × (deed.alloc ≡ alloc.now) }
{
    let Cells { mark: _ } = cells;
    let Deed { mark: _ } = deed;
    // SAFETY: `deed` shows that this allocator allocated this block with this size. No place holds an entry.
    unsafe {
        alloc.deallocate(
            block.start as *mut u8,
            count * size_of::<T>(),
            align_of::<T>(),
        );
    }
}

impl<T> Cells<T> {
    ghost use Rattle.group_table.specs.CellLends.{lends_place};

    #[inline]
    pub(crate) fn write(&mut self, block: Block<T>, b: usize, entry: T)
        requires { (self.old.start ≡ block.start) × (b < length self.old.places)
            × (get_or self.old.places b None ≡ None) }
        ensures { (self.new.start ≡ self.old.start)
            × (self.new.places ≡ slice_set self.old.places b (Some entry)) }
    {
        // SAFETY: `self` owns place b of the block, and place b holds no entry.
        unsafe { block.start.add(b).write(entry) }
    }

    #[inline]
    pub(crate) fn read(&mut self, block: Block<T>, b: usize) -> T
        requires { (self.old.start ≡ block.start) × Holds self.old.places b }
        ensures entry { get_or self.old.places b None ≡ Some result }
        ensures places { (self.new.start ≡ self.old.start)
            × (self.new.places ≡ slice_set self.old.places b None) }
    {
        // SAFETY: place b holds an entry, which `self` no longer owns afterwards.
        unsafe { block.start.add(b).read() }
    }

    #[inline]
    pub(crate) fn get(&self, block: Block<T>, b: usize) -> &T
        requires { (self.now.start ≡ block.start) × Holds self.now.places b }
        ensures { get_or self.now.places b None ≡ Some result.now }
    {
        // SAFETY: place b holds an entry, which `self` lends for as long as `self` is borrowed.
        unsafe { &*block.start.add(b) }
    }

    #[inline]
    pub(crate) fn get_mut(&mut self, block: Block<T>, b: usize) -> &mut T
        requires { (self.old.start ≡ block.start) × Holds self.old.places b }
        ensures* writes_back { sem 𝓛 (lends_place T.row self.entry b result) }
        ensures value { get_or self.old.places b None ≡ Some result.now }
    {
        // SAFETY: place b holds an entry, which `self` lends to nobody else.
        unsafe { &mut *block.start.add(b) }
    }
}
