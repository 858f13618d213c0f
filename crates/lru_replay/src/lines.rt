//! What the lines of a replay mean, and the texts of its answers.

mod bytes;
mod drain;
pub mod figures;
pub mod line;
pub mod outcome;
pub mod output;
mod pairs;
pub(crate) mod replays;
pub mod taken;
pub mod words;
