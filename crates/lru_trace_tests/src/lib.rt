//! Tests what no clause of `lru_trace` says.
#![tactic(auto)]

#[cfg(test)]
mod examples;
#[cfg(test)]
mod lines;
#[cfg(test)]
mod memory;
