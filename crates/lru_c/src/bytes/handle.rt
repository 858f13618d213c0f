//! The handle that C keeps for a map of byte strings.
ghost use Rattle.std.specs.Prelude.{◌≡◌, None, Some, IfSome, option_map};
ghost use Rattle.lru_c.specs.Bytes.{IsWithinBudget};
ghost use Rattle.lru_c.specs.BytesHandle.{bytes_row, maybe_bytes_row};
ghost use Rattle.lru_c.specs.Handle.{owns_boxed};

use crate::raw_box::RawBox;
use lru_limits::ByWeight;
use schnellru::LruMap;
use std::alloc::Global;
use std::marker::{Model, PhantomData};
use std::mem::replace;
use std::ptr::null_mut;

/// What an entry weighs besides its key and its value: the bytes of a bucket.
pub const OVERHEAD: u64 = 64;

pub type BytesMap = LruMap<Vec<u8>, Vec<u8>, ByWeight<64>>;

#[repr(C)]
pub(crate) struct BytesSlot {
    start: *mut u8,
    pub ghost map: { maybe_bytes_row.Denot } by { maybe_bytes_row.coded },
}

impl Model for BytesSlot {
    ghost also_owns = { λ lru. owns_boxed bytes_row lru.start lru.map };
}

impl BytesSlot {
    fn vacant() -> BytesSlot
        ensures { result.map ≡ None }
    {
        BytesSlot { start: null_mut() }
    }

    fn forget(self)
        requires { self.map ≡ None }
    {
        let BytesSlot { start: _ } = self;
    }

    fn from_raw(map: RawBox<BytesMap, Global>) -> BytesSlot
        ensures { result.map ≡ Some map.value }
    {
        let RawBox { start, mark: _ } = map;
        BytesSlot {
            start: start as *mut u8,
        }
    }

    fn into_raw(self) -> Option<RawBox<BytesMap, Global>>
        ensures { option_map (λ map. map.value) result ≡ self.map }
    {
        let BytesSlot { start } = self;
        if start.is_null() {
            None
        } else {
            Some(RawBox {
                start: start as *mut BytesMap,
                mark: PhantomData,
            })
        }
    }

    #[inline]
    fn take(&mut self, alloc: Global) -> Option<Box<BytesMap>>
        ensures map { option_map (λ map. map.value) result ≡ self.old.map }
        ensures none { self.new.map ≡ None }
    {
        match replace(self, BytesSlot::vacant()).into_raw() {
            Some(map) => Some(map.into_box(alloc)),
            None => None,
        }
    }

    #[inline]
    fn put(&mut self, map: Box<BytesMap>)
        requires { self.old.map ≡ None }
        ensures { self.new.map ≡ Some map.value }
    {
        replace(self, BytesSlot::from_raw(RawBox::from_box(map))).forget();
    }
}

/// A handle: a map of byte strings on the heap, or none. The running total of the map is the total weight of its
/// entries, and is at most the map's budget. Nothing drops a handle (see [`Lru`](crate::handle::Lru)).
#[repr(C)]
pub struct LruBytes {
    pub(crate) slot: BytesSlot,
}

impl Model for LruBytes {
    ghost use Rattle.std.specs.Prelude.{IfSome};
    ghost use Rattle.lru_c.specs.Bytes.{IsWithinBudget};
    ghost use Rattle.lru_c.specs.declared.bytes.handle.BytesSlot.{BytesSlot};

    ghost Value = { BytesSlot };

    ghost view = { λ lru. lru.slot };

    ghost inverse = { λ slot. record { slot = slot } };

    ghost invariant = { λ lru. IfSome lru.slot.map IsWithinBudget };
}

impl LruBytes {
    #[inline]
    pub fn take(&mut self, alloc: Global) -> Option<Box<BytesMap>>
        ensures map { option_map (λ map. map.value) result ≡ self.old.map }
        ensures within { IfSome result (λ map. IsWithinBudget map.value) }
        ensures none { self.new.map ≡ None }
    {
        self.slot.take(alloc)
    }

    #[inline]
    pub fn put(&mut self, map: Box<BytesMap>)
        requires none { self.old.map ≡ None }
        requires within { IsWithinBudget map.value }
        ensures { self.new.map ≡ Some map.value }
    {
        self.slot.put(map)
    }
}
