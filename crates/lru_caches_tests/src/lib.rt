//! Tests, through public calls, what no clause of `lru_caches` says.
#![tactic(auto)]

#[cfg(test)]
mod beginnings;
#[cfg(test)]
mod callers;
#[cfg(test)]
mod devices;
#[cfg(test)]
mod disk;
#[cfg(test)]
mod examples;
#[cfg(test)]
mod examples_on_values;
#[cfg(test)]
mod trials;
