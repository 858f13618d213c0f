//! Definitions and theorems on how each call changes the entries of a map. The contracts of `schnellru` cite the
//! definitions, and the theorems follow from the contracts.
//!
//! The definitions are in `specs/`: `State` is what a contract sees of a map, and `Step` in `specs/Runs` says how one
//! call changes a map. The theorems are the contracts of the functions of [`laws`]. The crate has no map: its only code
//! is the types that calls return, and [`sizes`].
#![tactic(auto)]

pub mod laws;
mod results;
pub mod sizes;

pub use results::{GetOrInsertError, Inserted, MoveReport, ReserveError, Updated};
