//! Tests, through public calls, what no contract of `schnellru` says.
//!
//! `examples` includes the examples of `lru_model` and `ordered_table`.
#![tactic(auto)]

#[cfg(test)]
mod bytes;
#[cfg(test)]
mod callers;
#[cfg(test)]
mod every_call;
#[cfg(test)]
mod exact;
#[cfg(test)]
mod examples;
#[cfg(test)]
mod examples_on_values;
#[cfg(test)]
mod found;
#[cfg(test)]
mod memory;
#[cfg(test)]
mod sizes;
#[cfg(test)]
mod walks;
