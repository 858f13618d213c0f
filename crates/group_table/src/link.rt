//! `LinkType`: the integer types of links.
ghost use Rattle.std.specs.Prelude.{◌≡◌, ◌<◌, ℕ};
ghost use Rattle.group_table.specs.Link.{IsLinkType};

/// The type of a link. A link is the number of a bucket, or is `MAX`, which means no bucket.
///
/// A table with links of type `N` has fewer than `N::MAX` buckets, so the width of the links limits the size of the
/// table. The trait is implemented for `u8`, `u16`, `u32` and `usize`.
pub trait LinkType: Copy {
    /// The link that means no bucket. The number of `MAX` is greater than the number of every bucket.
    const MAX: Self;

    ghost MAX: { Self };

    ghost number: { Self → ℕ };

    /// The link with the number n, if n is below the number of `MAX`.
    ghost link: { ℕ → Self };

    /// Returns the link with this number. `value` must be below the number of `MAX`.
    fn from_usize(value: usize) -> Self
        requires { value < number MAX }
        ensures { result ≡ link value };

    /// Returns the number of this link.
    fn into_usize(self) -> usize
        ensures { result ≡ number self };

    /// If n is below the number of `MAX`, `link n` has the number n. Links with equal numbers are equal. A link has at
    /// least 8 bits.
    ghost laws: { IsLinkType number link MAX };
}

impl LinkType for u8 {
    const MAX: u8 = u8::MAX;

    ghost use Rattle.std.proofs.Common.{lit≤};
    ghost use Rattle.group_table.specs.Link.{narrowest_most, numbers_are_links};

    ghost MAX = { narrowest_most };

    ghost number = { λ n. n };

    ghost link = { λ n. n };

    #[inline]
    fn from_usize(value: usize) -> u8 {
        value as u8
    }

    #[inline]
    fn into_usize(self) -> usize {
        self as usize
    }

    ghost laws = { numbers_are_links narrowest_most (lit≤ tt) };
}

impl LinkType for u16 {
    const MAX: u16 = u16::MAX;

    ghost use Rattle.std.proofs.Common.{lit≤};
    ghost use Rattle.group_table.specs.Link.{numbers_are_links};

    ghost MAX = { 65535 };

    ghost number = { λ n. n };

    ghost link = { λ n. n };

    #[inline]
    fn from_usize(value: usize) -> u16 {
        value as u16
    }

    #[inline]
    fn into_usize(self) -> usize {
        self as usize
    }

    ghost laws = { numbers_are_links 65535 (lit≤ tt) };
}

impl LinkType for u32 {
    const MAX: u32 = u32::MAX;

    ghost use Rattle.std.proofs.Common.{lit≤};
    ghost use Rattle.group_table.specs.Link.{numbers_are_links};

    ghost MAX = { 4294967295 };

    ghost number = { λ n. n };

    ghost link = { λ n. n };

    #[inline]
    fn from_usize(value: usize) -> u32 {
        value as u32
    }

    #[inline]
    fn into_usize(self) -> usize {
        self as usize
    }

    ghost laws = { numbers_are_links 4294967295 (lit≤ tt) };
}

impl LinkType for usize {
    const MAX: usize = usize::MAX;

    ghost use Rattle.std.proofs.Common.{lit≤};
    ghost use Rattle.group_table.specs.Link.{numbers_are_links};

    ghost MAX = { 18446744073709551615 };

    ghost number = { λ n. n };

    ghost link = { λ n. n };

    #[inline]
    fn from_usize(value: usize) -> usize {
        value
    }

    #[inline]
    fn into_usize(self) -> usize {
        self
    }

    ghost laws = { numbers_are_links 18446744073709551615 (lit≤ tt) };
}
