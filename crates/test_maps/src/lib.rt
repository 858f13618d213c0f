//! Maps that tests share, and functions that look at them.
#![tactic(auto)]

mod maps;

pub use maps::{fill, insert_all, is_pair, is_value, map_of};
