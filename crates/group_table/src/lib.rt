//! The bucket table of the LRU map, and the integer types of links to its buckets.
#![tactic(auto)]

// Marks unreachable code on hot paths.
macro_rules! nowhere {
    () => {{
        let none: [Option<()>; 0] = [];
        match none[0] {
            Some(_) => unreachable!(),
            None => unreachable!(),
        }
    }};
}

mod cells;
mod control;
mod entries;
mod fields;
mod full_buckets;
pub mod group;
mod link;
mod neighbours;
mod probe;
mod sizes;
mod table;

pub use link::LinkType;
pub use sizes::{buckets_for_capacity, full_capacity};
pub use table::Table;
