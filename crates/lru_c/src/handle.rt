//! The handle that C keeps for a map.
ghost use Rattle.std.specs.Prelude.{◌≡◌, None, Some, IfSome, option_map};
ghost use Rattle.lru_c.specs.Handle.{map_row, maybe_row, owns_boxed, FitsHandle};

use crate::raw_box::RawBox;
use schnellru::LruMap;
use std::alloc::Global;
use std::marker::{Model, PhantomData};
use std::mem::replace;
use std::ptr::null_mut;

// Takes the map out of a handle, makes a call on the map, and puts the map back. If there is no map, returns the last
// argument.
macro_rules! with_map {
    ($lru:ident, $alloc:ident, |$map:ident| $call:expr, $nothing:expr) => {
        match $lru.take($alloc) {
            Some(mut $map) => {
                let answer = $call;
                $lru.put($map);
                answer
            }
            None => $nothing,
        }
    };
}

pub(crate) use with_map;

pub type Map = LruMap<u64, u64>;

#[repr(C)]
pub(crate) struct Slot {
    start: *mut u8,
    pub ghost map: { maybe_row.Denot } by { maybe_row.coded },
}

impl Model for Slot {
    ghost also_owns = { λ lru. owns_boxed map_row lru.start lru.map };
}

impl Slot {
    fn vacant() -> Slot
        ensures { result.map ≡ None }
    {
        Slot { start: null_mut() }
    }

    fn forget(self)
        requires { self.map ≡ None }
    {
        let Slot { start: _ } = self;
    }

    fn from_raw(map: RawBox<Map, Global>) -> Slot
        ensures { result.map ≡ Some map.value }
    {
        let RawBox { start, mark: _ } = map;
        Slot {
            start: start as *mut u8,
        }
    }

    fn into_raw(self) -> Option<RawBox<Map, Global>>
        ensures { option_map (λ map. map.value) result ≡ self.map }
    {
        let Slot { start } = self;
        if start.is_null() {
            None
        } else {
            Some(RawBox {
                start: start as *mut Map,
                mark: PhantomData,
            })
        }
    }

    #[inline]
    fn take(&mut self, alloc: Global) -> Option<Box<Map>>
        ensures map { option_map (λ map. map.value) result ≡ self.old.map }
        ensures none { self.new.map ≡ None }
    {
        match replace(self, Slot::vacant()).into_raw() {
            Some(map) => Some(map.into_box(alloc)),
            None => None,
        }
    }

    #[inline]
    fn put(&mut self, map: Box<Map>)
        requires { self.old.map ≡ None }
        ensures { self.new.map ≡ Some map.value }
    {
        replace(self, Slot::from_raw(RawBox::from_box(map))).forget();
    }
}

/// A handle: a map on the heap, or none. The map is within its maximum length (`FitsHandle`). Contracts represent the
/// handle by its map.
///
/// Nothing drops a handle, because its map cannot be freed without an allocator.
#[repr(C)]
pub struct Lru {
    pub(crate) slot: Slot,
}

impl Model for Lru {
    ghost use Rattle.std.specs.Prelude.{IfSome};
    ghost use Rattle.lru_c.specs.Handle.{FitsHandle};
    ghost use Rattle.lru_c.specs.declared.handle.Slot.{Slot};

    ghost Value = { Slot };

    ghost view = { λ lru. lru.slot };

    ghost inverse = { λ slot. record { slot = slot } };

    ghost invariant = { λ lru. IfSome lru.slot.map FitsHandle };
}

impl Lru {
    #[inline]
    pub fn take(&mut self, alloc: Global) -> Option<Box<Map>>
        ensures map { option_map (λ map. map.value) result ≡ self.old.map }
        ensures fits { IfSome result (λ map. FitsHandle map.value) }
        ensures none { self.new.map ≡ None }
    {
        self.slot.take(alloc)
    }

    #[inline]
    pub fn put(&mut self, map: Box<Map>)
        requires none { self.old.map ≡ None }
        requires fits { FitsHandle map.value }
        ensures { self.new.map ≡ Some map.value }
    {
        self.slot.put(map)
    }
}
