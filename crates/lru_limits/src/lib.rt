//! The parts of a map with a limiter: look-up keys, limiters, running totals and a hasher.
//!
//! `docs/LIMITERS.md` shows how to write a limiter and a look-up key of your own.
#![tactic(auto)]

mod accounts;
mod admission;
mod hasher;
mod keys;
mod limiter;
mod limiters;

pub use accounts::{Budgeted, ByBytes, ByCost, ByWeight, Costed, OwnedBytes, Summing};
pub use admission::Admission;
pub use group_table::LinkType;
pub use hasher::{DefaultHasher, RandomState};
pub use keys::{KeyHasher, LookupKey};
pub use limiter::{Insertion, Limiter};
pub use limiters::{
    Both, ByLength, ByMemoryUsage, Storing, Unlimited, UnlimitedCompact, limiters_fix_their_links,
};
