//! Tests, through public calls, what no clause of `lru_limits` says.
#![tactic(auto)]

#[cfg(test)]
mod body;
#[cfg(test)]
mod by_text_length;
#[cfg(test)]
mod examples;
#[cfg(test)]
mod few;
#[cfg(test)]
mod limiters;
#[cfg(test)]
mod removed_keys;
#[cfg(test)]
mod two_fields;
