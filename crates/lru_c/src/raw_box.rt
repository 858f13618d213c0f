//! A box without its allocator: only the address of its value.
ghost use Rattle.std.specs.Prelude.{◌≡◌};
ghost use Rattle.std.specs.Box.{box_allocator};
ghost use Rattle.std.specs.Box.Ownership.{box_owns};

use std::alloc::Allocator;
use std::marker::{Model, PhantomData};

// Owns the value at `start`, and the right to free its block with the allocator `alloc`.
pub(crate) struct RawBox<T, A: Allocator> {
    pub(crate) start: *mut T,
    pub(crate) mark: PhantomData<*const A>,
    pub(crate) ghost value: { T },
    pub(crate) ghost alloc: { A },
}

impl<T, A: Allocator> Model for RawBox<T, A> {
    ghost also_owns = { λ b. box_owns (A.dealloc_token b.alloc) T.row b.start b.value };
}

impl<T: Drop, A: Allocator> RawBox<T, A> {
    pub(crate) fn from_box(boxed: Box<T, A>) -> RawBox<T, A>
        ensures value { result.value ≡ boxed.value }
        ensures alloc { result.alloc ≡ box_allocator boxed }
    {
        RawBox {
            start: Box::into_raw(boxed),
            mark: PhantomData,
        }
    }

    pub(crate) fn into_box(self, alloc: A) -> Box<T, A>
        requires { self.alloc ≡ alloc }
        ensures value { result.value ≡ self.value }
    {
        let RawBox { start, mark: _ } = self;
        // SAFETY: `self` owns the value at `start`, `alloc` gave its block, and this call consumes `self`.
        unsafe { Box::from_raw(alloc, start) }
    }
}
