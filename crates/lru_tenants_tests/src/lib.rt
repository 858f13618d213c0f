//! Tests, through public calls, what no clause of `lru_tenants` says.
#![tactic(auto)]

#[cfg(test)]
mod bytes;
#[cfg(test)]
mod callers;
#[cfg(test)]
mod examples;
#[cfg(test)]
mod memory;
#[cfg(test)]
mod numbers;
#[cfg(test)]
mod trials;
