//! What the calls on a map of byte strings return to C.
ghost use Rattle.std.specs.Prelude.{◌≡◌, None};
ghost use Rattle.lru_c.specs.Bytes.{answer_of, no_entry};

#[repr(C)]
#[derive(Drop)]
pub struct Value {
    pub len: usize,
    pub found: bool,
}

/// The address and the length of a value. Its bytes belong to the map.
#[repr(C)]
#[derive(Clone, Copy)]
pub struct Lent {
    pub bytes: *const u8,
    pub len: usize,
}

#[repr(C)]
#[derive(Drop)]
pub struct Popped {
    pub key_len: usize,
    pub value_len: usize,
    pub found: bool,
    pub removed: bool,
}

#[inline]
pub fn no_value() -> Value
    ensures { result ≡ answer_of None }
{
    Value {
        len: 0,
        found: false,
    }
}

#[inline]
pub fn nothing_popped() -> Popped
    ensures { result ≡ no_entry }
{
    Popped {
        key_len: 0,
        value_len: 0,
        found: false,
        removed: false,
    }
}
