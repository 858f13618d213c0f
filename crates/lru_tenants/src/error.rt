use thiserror::Error;

/// Why a call on a tenant failed. After an error other than `Memory`, nothing has changed.
///
/// ```
/// assert_eq!(rt; cache.open(1, 5), Err(TenantError::AlreadyOpen));
/// ```
#[derive(Clone, Copy, Debug, PartialEq, Eq, Error)]
pub enum TenantError {
    /// A tenant with this name is open.
    #[error("already open")]
    AlreadyOpen = 1,
    /// No tenant with this name is open.
    #[error("not open")]
    NotOpen = 2,
    /// Memory ran out, or no larger table is possible. Some of the tenant's oldest entries may have been evicted.
    #[error("out of memory")]
    Memory = 3,
    /// The sum of all budgets, or of all shares, would be above the limit.
    #[error("over the total limit")]
    OverTotal = 4,
}
