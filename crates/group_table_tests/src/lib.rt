//! Tests, through public calls, what no clause of `group_table` says.
#![tactic(auto)]

#[cfg(test)]
mod examples;
#[cfg(test)]
mod relocations;
#[cfg(test)]
mod tables;
