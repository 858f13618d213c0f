//! Costs, and limiters with a running total of costs or bytes.
ghost use Rattle.std.specs.Prelude.{◌≡◌, ◌+◌, ℕ, Some, None, if◌then◌else◌, string_len, vec_len};
ghost use Rattle.lru_limits.specs.Admissions.{offers_of};
ghost use Rattle.lru_limits.specs.Budget.{can_add};
ghost use Rattle.lru_limits.specs.Laws.{IsAccount};

mod budgeted;
mod by_bytes;
mod by_cost;
mod by_weight;
mod owned_bytes;

use crate::admission::Admission;
pub use budgeted::Budgeted;
pub use by_bytes::ByBytes;
pub use by_cost::ByCost;
pub use by_weight::ByWeight;
pub use owned_bytes::OwnedBytes;

/// A value with a cost. The cost of an unsigned number of up to 64 bits is the number. The cost of a text is its number
/// of bytes, and the cost of a vector is its number of items.
///
/// The limiter reads the cost of a value again when the value is replaced, or when the entry is evicted or removed. If
/// the cost of a stored value changes, the running total is no longer the sum of the costs.
///
/// ```
/// struct Page {
///     bytes: u64,
/// }
///
/// impl Costed for Page {
///     ghost cost = { λ page. page.bytes };
///
///     fn cost(&self) -> u64 {
///         self.bytes
///     }
/// }
///
/// assert_eq!(rt; Page { bytes: 4096 }.cost(), 4096);
/// ```
pub trait Costed {
    ghost cost: { Self → ℕ };

    /// Returns the cost of the value.
    fn cost(&self) -> u64
        ensures { result ≡ cost self.now };
}

impl Costed for u8 {
    ghost cost = { λ n. n };

    #[inline]
    fn cost(&self) -> u64 {
        *self as u64
    }
}

impl Costed for u16 {
    ghost cost = { λ n. n };

    #[inline]
    fn cost(&self) -> u64 {
        *self as u64
    }
}

impl Costed for u32 {
    ghost cost = { λ n. n };

    #[inline]
    fn cost(&self) -> u64 {
        *self as u64
    }
}

impl Costed for u64 {
    ghost cost = { λ n. n };

    #[inline]
    fn cost(&self) -> u64 {
        *self
    }
}

impl Costed for usize {
    ghost cost = { λ n. n };

    #[inline]
    fn cost(&self) -> u64 {
        *self as u64
    }
}

impl Costed for String {
    ghost cost = { λ text. string_len text };

    #[inline]
    fn cost(&self) -> u64 {
        self.as_bytes().len() as u64
    }
}

impl<T> Costed for Vec<T> {
    ghost cost = { λ items. vec_len items };

    #[inline]
    fn cost(&self) -> u64 {
        self.len() as u64
    }
}

/// A limiter with a running total: it adds the cost of each accepted entry, and subtracts the cost of each evicted or
/// removed entry.
///
/// The total after each call is the sum of the costs of the map's entries, until a caller writes to a stored value, or
/// changes the limiter.
///
/// ```
/// let limiter = ByCost::new(3);
/// assert_eq!(rt; Summing::<u64, u64>::account(&limiter), 0);
/// ```
pub trait Summing<K, V>: Admission<K, V> {
    ghost cost_of: { K → V → ℕ };

    ghost account: { Self → ℕ };

    /// Returns the cost of an entry.
    fn cost_of(key: &K, value: &V) -> u64
        ensures { result ≡ cost_of key.now value.now };

    /// Returns the running total.
    fn account(&self) -> u64
        ensures { result ≡ account self.now };

    /// States how each callback changes the running total.
    ghost laws: { IsAccount Self.rules (offers_of Self.terms) cost_of account };
}

#[inline]
fn sum_with(limit: u64, sum: u64, cost: u64) -> Option<u64>
    ensures { result ≡ (if can_add limit sum cost then Some (sum + cost) else None) }
{
    if cost <= limit {
        sum.checked_add(cost)
    } else {
        None
    }
}
