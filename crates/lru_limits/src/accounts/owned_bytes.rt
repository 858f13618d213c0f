ghost use Rattle.std.specs.Prelude.{◌≡◌, ◌+◌, ◌*◌, ◌==◌, ℕ, Some, None, MatchOption, sum_by, string_capacity};
ghost use Rattle.std.specs.Prelude.{vec_capacity, option_map, unwrap_or};
ghost use Rattle.std.specs.Mem.{type_size};
ghost use prog.Memory.{capped};
ghost use Rattle.lru_limits.specs.Bytes.{in_word, block_bytes};

use group_table::Table;

/// A value that reports how many bytes it owns outside of itself: the bytes of its blocks, plus the bytes that the
/// values in these blocks own.
///
/// The bytes of a block are rounded up to a multiple of 16, and 16 is added for the allocator. The GNU allocator takes
/// at most this number of bytes, except for very large blocks, which it maps page by page.
///
/// ```
/// let block: Vec<u8> = Vec::with_capacity(alloc, 17)?;
/// assert_eq!(rt; (block.owned_bytes(), 7u64.owned_bytes()), (48, 0));
/// ```
pub trait OwnedBytes {
    ghost owned: { Self → ℕ };

    /// Returns the bytes that the value owns.
    fn owned_bytes(&self) -> u64
        ensures { result ≡ owned self.now };
}

#[inline]
fn block_bytes(bytes: u64) -> u64
    ensures { result ≡ block_bytes bytes }
{
    if bytes == 0 {
        0
    } else {
        bytes.saturating_add(31) / 16 * 16
    }
}

/// Numbers, `bool` and `char` own nothing.
impl OwnedBytes for u8 {
    ghost owned = { λ n. 0 };

    #[inline]
    fn owned_bytes(&self) -> u64 {
        0
    }
}

impl OwnedBytes for u16 {
    ghost owned = { λ n. 0 };

    #[inline]
    fn owned_bytes(&self) -> u64 {
        0
    }
}

impl OwnedBytes for u32 {
    ghost owned = { λ n. 0 };

    #[inline]
    fn owned_bytes(&self) -> u64 {
        0
    }
}

impl OwnedBytes for u64 {
    ghost owned = { λ n. 0 };

    #[inline]
    fn owned_bytes(&self) -> u64 {
        0
    }
}

impl OwnedBytes for u128 {
    ghost owned = { λ n. 0 };

    #[inline]
    fn owned_bytes(&self) -> u64 {
        0
    }
}

impl OwnedBytes for usize {
    ghost owned = { λ n. 0 };

    #[inline]
    fn owned_bytes(&self) -> u64 {
        0
    }
}

impl OwnedBytes for i32 {
    ghost owned = { λ n. 0 };

    #[inline]
    fn owned_bytes(&self) -> u64 {
        0
    }
}

impl OwnedBytes for i64 {
    ghost owned = { λ n. 0 };

    #[inline]
    fn owned_bytes(&self) -> u64 {
        0
    }
}

impl OwnedBytes for bool {
    ghost owned = { λ n. 0 };

    #[inline]
    fn owned_bytes(&self) -> u64 {
        0
    }
}

impl OwnedBytes for char {
    ghost owned = { λ n. 0 };

    #[inline]
    fn owned_bytes(&self) -> u64 {
        0
    }
}

impl OwnedBytes for String {
    ghost owned = { λ text. block_bytes (string_capacity text) };

    #[inline]
    fn owned_bytes(&self) -> u64 {
        block_bytes(self.capacity() as u64)
    }
}

impl<T: OwnedBytes> OwnedBytes for Vec<T> {
    ghost owned = { λ v. in_word
        (block_bytes (in_word (vec_capacity v * capped (type_size T.row))) + sum_by T.owned v.items) };

    fn owned_bytes(&self) -> u64 {
        let mut sum = block_bytes(
            (self.capacity() as u64).saturating_mul(Table::<T>::entry_bytes() as u64),
        );
        for item in self.as_slice() {
            sum = sum.saturating_add(item.owned_bytes());
        }
        sum
    }
}

impl<T: OwnedBytes> OwnedBytes for Box<T> {
    ghost owned = { λ b. in_word (block_bytes (capped (type_size T.row)) + T.owned b.value) };

    #[inline]
    fn owned_bytes(&self) -> u64 {
        let value: &T = &**self;
        block_bytes(Table::<T>::entry_bytes() as u64).saturating_add(value.owned_bytes())
    }
}

impl<A: OwnedBytes, B: OwnedBytes> OwnedBytes for (A, B) {
    ghost owned = { λ p. in_word (A.owned p.0 + B.owned p.1) };

    #[inline]
    fn owned_bytes(&self) -> u64 {
        self.0.owned_bytes().saturating_add(self.1.owned_bytes())
    }
}

impl<T: OwnedBytes> OwnedBytes for Option<T> {
    ghost owned = { λ o. unwrap_or (option_map T.owned o) 0 };

    #[inline]
    fn owned_bytes(&self) -> u64 {
        match self {
            Some(value) => value.owned_bytes(),
            None => 0,
        }
    }
}
