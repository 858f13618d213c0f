use crate::error::TenantError;

/// A call that `run_tenants` can carry out.
///
/// ```
/// let calls = vec![in alloc; TenantCall::Open(1, 3), TenantCall::Put(1, 7, 1), TenantCall::Get(2, 7)]?;
/// ```
#[derive(Debug, Drop)]
pub enum TenantCall<N, K, V> {
    Open(N, u64),
    Put(N, K, V),
    Get(N, K),
    Cost(N),
    Close(N),
}

/// The answer to a [`TenantCall`].
///
/// ```
/// let answers = run_tenants(alloc, &mut cache, calls)?;
/// assert!(rt; answers.get(1) == Some(&TenantAnswer::Put(Ok(true))));
/// ```
#[derive(Debug, Drop, PartialEq)]
pub enum TenantAnswer<V> {
    Opened(Result<(), TenantError>),
    Put(Result<bool, TenantError>),
    Got(Result<Option<V>, TenantError>),
    Cost(Result<u64, TenantError>),
    Closed(Result<usize, TenantError>),
}
